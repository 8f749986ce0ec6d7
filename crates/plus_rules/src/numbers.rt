//! The numbers of constraints: the literals of their conditions, and the times of their rules.

ghost use Rattle.std.specs.Prelude.{[]};
ghost use Rattle.std.specs.List.{flat_map};
ghost use Rattle.plus_tree.specs.declared.trees.Constraint.{Constraint};
ghost use Rattle.plus_expansion.specs.Literals.{condition_literals};
ghost use Rattle.plus_numbering.specs.Tested.{Tests};
ghost use Rattle.plus_rules.specs.Written.{times_of, numbers_of};

use plus_literal::{FromParts, literal};
use plus_numbering::fitting;
use plus_tree::{Constraint, Rule, Span};

// The literals of the conditions.
#[tactic(auto, using(plus_numbering::proofs::Unfits::walking))]
fn conditions<Q: FromParts>(rules: &[Constraint]) -> Result<(), Span>
    ensures { Tests Q.fits (flat_map (λ (c : Constraint). condition_literals c.cond) rules.now) result }
{
    'rules: for rule in rules {
        fitting::condition::<Q>(&rule.cond)?;
    }
    Ok(())
}

// The time of a rule, if it has one.
#[tactic(auto, using(plus_numbering::proofs::Unfits::walking))]
fn time<Q: FromParts>(rule: Rule) -> Result<(), Span>
    ensures { Tests Q.fits (times_of rule) result }
{
    match rule {
        Rule::Always | Rule::Sometime => Ok(()),
        Rule::Within(value) | Rule::HoldAfter(value) => match literal::<Q>(&value) {
            Ok(_) => Ok(()),
            Err(_) => Err(value.span),
        },
    }
}

// The times of the rules.
#[tactic(auto, using(plus_numbering::proofs::Unfits::walking))]
fn times<Q: FromParts>(rules: &[Constraint]) -> Result<(), Span>
    ensures { Tests Q.fits (flat_map (λ (c : Constraint). times_of c.rule) rules.now) result }
{
    'rules: for rule in rules {
        time::<Q>(rule.rule)?;
    }
    Ok(())
}

/// Tests that all literals of conditions, and then all times of rules, are values of the type of numbers, and answers the place of the
/// first that is none.
pub fn fit<Q: FromParts>(rules: &[Constraint]) -> Result<(), Span>
    ensures { Tests Q.fits (numbers_of rules.now) result }
{
    conditions::<Q>(rules)?;
    times::<Q>(rules)
}
