//! The nodes of a pair's ground forms, with constraints in the place of its goal.

ghost use Rattle.std.specs.Prelude.{◌≡◌, ◌+◌, not, nat_lt};
ghost use Rattle.plus_expansion.specs.Counting.{most_nodes};
ghost use Rattle.plus_numbering.specs.Numbered.{context};
ghost use Rattle.plus_numbering.specs.Sizes.{held, condition_size, problem_size};
ghost use Rattle.plus_rules.specs.Written.{together, beside, nodes_of};

use plus_numbering::counting::nodes;
use plus_numbering::{MOST_NODES, Numbering, sizes};
use plus_tree::Constraint;

// The sum, of which no more is held than that it passes the limit.
#[tactic(auto, unfolding(plus_numbering::specs::Sizes::held))]
fn sum(left: u32, right: u32) -> u32
    ensures { result ≡ held (left + right) }
{
    left.saturating_add(right).min(MOST_NODES + 1)
}

// The nodes of all conditions together.
#[tactic(auto, using(plus_numbering::proofs::Holding::holding))]
fn conditions(numbering: &Numbering<'_>, rules: &[Constraint]) -> u32
    ensures { result ≡ held (condition_size (context numbering.now) (together rules.now)) }
{
    let mut total = 1;
    'rules: for rule in rules {
        total = sum(total, sizes::condition(numbering, &rule.cond));
    }
    total
}

// The nodes of the ground events, the ground processes and all conditions.
#[tactic(auto, using(plus_numbering::proofs::Holding::holding))]
fn all_nodes(numbering: &Numbering<'_>, rules: &[Constraint]) -> u32
    ensures { result ≡ held (problem_size (context numbering.now) numbering.now.typed.now.domain
        (beside numbering.now.typed.now.problem rules.now)) }
{
    let domain = numbering.typed.domain();
    let events = nodes(numbering, false, domain.events.as_slice());
    let processes = nodes(numbering, true, domain.processes.as_slice());
    sum(events, sum(processes, conditions(numbering, rules)))
}

/// Whether the ground events, the ground processes and the ground conditions of constraints have at most 1,000,000 nodes together.
/// Nothing that is counted is built.
pub fn are_small(numbering: &Numbering<'_>, rules: &[Constraint]) -> bool
    ensures { result ≡ not (nat_lt most_nodes
        (nodes_of numbering.now.typed.now.domain numbering.now.typed.now.problem rules.now)) }
{
    all_nodes(numbering, rules) <= MOST_NODES
}
