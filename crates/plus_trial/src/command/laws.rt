//! What a reader of a reply may rely on, over the definitions alone.

ghost use Rattle.std.specs.Prelude.{ℕ};
ghost use Rattle.plus_reply.specs.Reply.{HasOneReply};
ghost use Rattle.plus_trial.specs.Trial.{IsTrial};

/// A trial has one reply: one status, and one line.
pub fn one_reply()
    ensures { (n : ℕ) → HasOneReply (IsTrial n) }
{}
