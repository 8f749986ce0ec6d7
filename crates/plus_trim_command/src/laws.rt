//! What a reader of replies may rely on, over the definitions alone.

ghost use Rattle.plus_trim_command.specs.Laws.{OneStatus};

/// The same three texts have one status; and where that is another than of a valid plan, one text.
pub fn one_status()
    ensures { OneStatus }
{}
