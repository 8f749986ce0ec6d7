//! What each status shows. A law alone, there is no code here.

ghost use Rattle.laws_answers.specs.ByStatus.{ByStatus};

/// An answer shows this by its status, command by command.
pub fn by_status()
    ensures { ByStatus }
{}
