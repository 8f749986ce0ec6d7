//! What a reader of an answer may rely on, over the definitions alone.

ghost use Rattle.plus_run.specs.Laws.{OneAnswer, Decides};

/// A command over the same files has one answer: one status, and one text that is written.
pub fn one_answer()
    ensures { OneAnswer }
{}

/// A plan that stays inside the limits is valid and has a trajectory, or is invalid and has none.
pub fn decides()
    ensures { Decides }
{}
