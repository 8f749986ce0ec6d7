//! Worked rows of the grammar.
ghost use Rattle.plus_grammar.specs.Rows.{ListRows, CountRows};

/// A list of two groups and a name without a type, and a type with no name before it.
pub fn list_rows()
    ensures { ListRows }
{}

/// Keys and sections that stand in any order, that stand twice, and that are missing.
pub fn count_rows()
    ensures { CountRows }
{}
