//! Worked rows of the rules.
ghost use Rattle.plus_typing.specs.Rows.{RuleRows, AloneRows};

/// A pair that obeys each rule, and pairs that break one.
pub fn rule_rows()
    ensures { RuleRows }
{}

/// For each rule a pair that breaks it and obeys all others: no rule follows from the others.
pub fn alone_rows()
    ensures { AloneRows }
{}
