//! The literals of actions.

ghost use Rattle.std.specs.List.{flat_map};
ghost use Rattle.plus_expansion.specs.Literals.{schema_literals};
ghost use Rattle.plus_numbering.specs.Tested.{Tests};

use plus_literal::FromParts;
use plus_numbering::schema_fits;
use plus_tree::{Schema, Span};

/// Tests that the literals of actions, action by action, are values of the type of numbers, and answers the
/// place of the first that is none.
#[tactic(auto, using(plus_numbering::proofs::Unfits::walking))]
pub fn fit<Q: FromParts>(schemas: &[Schema]) -> Result<(), Span>
    ensures { Tests Q.fits (flat_map schema_literals schemas.now) result }
{
    'schemas: for schema in schemas {
        schema_fits::<Q>(schema)?;
    }
    Ok(())
}
