//! Counts of ground actions and their nodes.

ghost use Rattle.std.specs.Prelude.{◌≡◌, None, MatchResult};
ghost use Rattle.plus_expansion.specs.Counts.{first_over};
ghost use Rattle.plus_numbering.specs.Refusals.{RefusesCount};
ghost use Rattle.plus_actions.specs.Actions.{action_counts};

use plus_expansion::Count;
use plus_numbering::counting::{few, instances, nodes};
use plus_numbering::{GroundFault, MOST_NODES, Numbering};

// How many ground actions there may be.
const MOST_ACTIONS: u32 = 10_000;

/// Tests that there are at most 10,000 ground actions, and that these have at most 1,000,000 nodes
/// together. Nothing that is counted is built.
pub fn within(numbering: &Numbering) -> Result<(), GroundFault>
    ensures { MatchResult result
        (λ _. first_over (action_counts numbering.now.typed.now.domain numbering.now.typed.now.problem) ≡ None)
        (RefusesCount (action_counts numbering.now.typed.now.domain numbering.now.typed.now.problem)) }
{
    let actions = numbering.typed.domain().actions.as_slice();
    few(Count::Actions, MOST_ACTIONS, instances(numbering, actions))?;
    few(Count::Nodes, MOST_NODES, nodes(numbering, false, actions))
}
