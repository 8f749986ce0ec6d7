//! Values of expressions, truths of conditions and joint effects.
ghost use Rattle.rows.specs.Model.Values.{ValueRows, HoldsRows};
ghost use Rattle.rows.specs.Model.Effects.{AtomRows, FluentRows, FaultRows};

/// Each operation, and where a value is missing.
pub fn value_rows()
    ensures { ValueRows }
{}

/// Each comparison, each connective, and a comparison whose side has no value.
pub fn holds_rows()
    ensures { HoldsRows }
{}

/// What becomes of atoms.
pub fn atom_rows()
    ensures { AtomRows }
{}

/// What becomes of fluents.
pub fn fluent_rows()
    ensures { FluentRows }
{}

/// Why there is no joint effect.
pub fn fault_rows()
    ensures { FaultRows }
{}
