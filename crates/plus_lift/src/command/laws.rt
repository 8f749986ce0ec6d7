//! What a reader of a reply may rely on, over the definitions alone.

ghost use Rattle.plus_lift.specs.Command.Laws.{OneReply};

/// The same three texts have one reply: one status, and one text.
pub fn one_reply()
    ensures { OneReply }
{}
