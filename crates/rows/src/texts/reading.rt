//! Texts, the canonical texts of the trees that they spell, and the places of refusals.
ghost use Rattle.rows.specs.Texts.Reading.{DomainRow, ProblemRow, FaultRows, ConstraintRows};

/// A domain with each form, its sections out of order and its words in letters of both sizes.
pub fn domain_row()
    ensures { DomainRow }
{}

/// A problem with each form, and a metric, which is left out.
pub fn problem_row()
    ensures { ProblemRow }
{}

/// Texts that spell none, each refused at the first token behind which no text goes on.
pub fn fault_rows()
    ensures { FaultRows }
{}

/// Constraints with each rule, in a list and alone, and texts that spell none.
pub fn constraint_rows()
    ensures { ConstraintRows }
{}
