//! Counts of ground processes, ground events and nodes.

ghost use Rattle.std.specs.Prelude.{◌≡◌, ◌<◌, ◌≤◌, None, not, nat_lt, MatchResult};
ghost use Rattle.plus_expansion.specs.Counts.{first_over};
ghost use Rattle.plus_numbering.specs.Refusals.{RefusesCount};
ghost use Rattle.plus_expansion.specs.Environments.{Environment};
ghost use Rattle.plus_expansion.specs.Expansion.{action_meant};
ghost use Rattle.plus_expansion.specs.Nodes.{action_nodes};
ghost use Rattle.plus_expansion.specs.Counting.{most_nodes, counts_of};
ghost use Rattle.plus_numbering.specs.Sizes.{held, instances, schema_size, schemas_size, problem_size};
ghost use Rattle.plus_numbering.specs.Numbered.{context};

use crate::faults::GroundFault;
use crate::held::{product, sum};
use crate::numbering::Numbering;
use crate::sizes;
use plus_expansion::Count;
use plus_tree::Schema;

// How many ground processes and ground events there may be.
const MOST_PROCESSES: u32 = 10_000;

const MOST_EVENTS: u32 = 10_000;

/// How many nodes there may be: in the ground processes, the ground events and the goal together, and
/// in one instance of an action.
pub const MOST_NODES: u32 = 1_000_000;

/// How many instances schemas have.
#[tactic(auto, using(crate::proofs::Holding::holding))]
pub fn instances(numbering: &Numbering<'_>, schemas: &[Schema]) -> u32
    ensures { result ≡ held (instances (context numbering.now) schemas.now) }
{
    let mut total = 0;
    'schemas: for schema in schemas {
        total = sum(total, sizes::choices(numbering, schema.params.as_slice()));
    }
    total
}

/// The nodes of the instances of processes, or of actions or events.
#[tactic(auto, using(crate::proofs::Holding::holding))]
pub fn nodes(numbering: &Numbering<'_>, process: bool, schemas: &[Schema]) -> u32
    ensures { result ≡ held (schemas_size (context numbering.now) (schema_size (context numbering.now) process) schemas.now) }
{
    let mut total = 0;
    'schemas: for schema in schemas {
        let repeated = sizes::choices(numbering, schema.params.as_slice());
        total = sum(
            total,
            product(repeated, sizes::schema(numbering, process, schema)),
        );
    }
    total
}

// The nodes of the ground processes, the ground events and the goal.
#[tactic(auto, using(crate::proofs::Holding::holding))]
fn problem(numbering: &Numbering<'_>) -> u32
    ensures { result ≡ held (problem_size (context numbering.now) numbering.now.typed.now.domain numbering.now.typed.now.problem) }
{
    let domain = numbering.typed.domain();
    let events = nodes(numbering, false, domain.events.as_slice());
    let processes = nodes(numbering, true, domain.processes.as_slice());
    let goal = sizes::condition(numbering, &numbering.typed.problem().goal);
    sum(events, sum(processes, goal))
}

/// Tests that there are not too many of a kind.
pub fn few(kind: Count, most: u32, number: u32) -> Result<(), GroundFault>
    ensures { MatchResult result (λ _. number ≤ most) (λ e. (e ≡ GroundFault.TooMany kind most) × (most < number)) }
{
    if number > most {
        Err(GroundFault::TooMany { kind, most })
    } else {
        Ok(())
    }
}

/// Tests that there are at most 10,000 ground processes, 10,000 ground events, and 1,000,000 nodes of
/// these and the goal together. Nothing that is counted is built.
#[tactic(auto, using(crate::proofs::LimitLemmas::limits))]
pub fn within(numbering: &Numbering) -> Result<(), GroundFault>
    ensures { MatchResult result
        (λ _. first_over (counts_of numbering.now.typed.now.domain numbering.now.typed.now.problem) ≡ None)
        (RefusesCount (counts_of numbering.now.typed.now.domain numbering.now.typed.now.problem)) }
{
    let domain = numbering.typed.domain();
    let processes = instances(numbering, domain.processes.as_slice());
    few(Count::Processes, MOST_PROCESSES, processes)?;
    let events = instances(numbering, domain.events.as_slice());
    few(Count::Events, MOST_EVENTS, events)?;
    few(Count::Nodes, MOST_NODES, problem(numbering))
}

/// Whether an instance of an action has at most 1,000,000 nodes. All its instances have equally many.
pub fn is_small(numbering: &Numbering, schema: &Schema) -> bool
    ensures { (env : Environment) → result ≡ not (nat_lt most_nodes
        (action_nodes (action_meant (context numbering.now) schema.now env))) }
{
    sizes::schema(numbering, false, schema) <= MOST_NODES
}
