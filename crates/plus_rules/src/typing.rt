//! Walks constraints as the goal of a problem is walked.

ghost use Rattle.std.specs.Prelude.{◌≡◌};
ghost use Rattle.plus_types.specs.Faults.{Walks};
ghost use Rattle.plus_rules.specs.Written.{faults_of};

use plus_tree::Constraint;
use plus_types::conditions::condition;
use plus_types::{Kinds, TypeFault, Typed};
use std::alloc::Global;

/// Walks the conditions of constraints in text order.
pub fn walk(alloc: Global, typed: &Typed, rules: &[Constraint]) -> Result<(), TypeFault>
    ensures { Walks (faults_of typed.now.domain typed.now.problem rules.now) result }
{
    let known = typed.known();
    let mut vars = Kinds::new(alloc);
    'rules: for rule in rules {
        condition(alloc, &known, &mut vars, &rule.cond)?;
    }
    Ok(())
}
