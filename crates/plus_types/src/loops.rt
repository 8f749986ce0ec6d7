//! Which listed types are above themselves.
//!
//! Searches over a graph of the types, of which nothing is proved, give numbers and steps. Each is tried
//! afterwards, in one walk over the list or up from a type, and only what has passed is told.

ghost use Rattle.std.specs.Prelude.{◌≡◌, true, IfOk, IfSome};
ghost use Rattle.plus_types.specs.Types.{bindings_of, is_above};
ghost use Rattle.plus_types.specs.Ranks.{AreSuspects, rank_of};

use crate::names::Names;
use crate::types::{OBJECT, add_where};
use plus_graph::{Graph, components, entered_by};
use plus_tree::TypedName;
use std::alloc::{AllocError, Global};

// The types by numbers, `object` first.
fn numbered(alloc: Global, types: &[TypedName]) -> Result<Names, AllocError> {
    let mut names = Names::new(alloc);
    names.add(alloc, OBJECT)?;
    'types: for member in types {
        names.add(alloc, member.name.name.bytes())?;
        names.add(alloc, member.kind.name.bytes())?;
    }
    Ok(names)
}

// The number of a type; past all types, where it has none.
fn number(names: &Names, name: &[u8]) -> usize {
    match names.number(name) {
        None => names.len(),
        Some(place) => place,
    }
}

// For each member of the list an edge, from a type to the one above it.
fn steps_up(alloc: Global, types: &[TypedName], names: &Names) -> Result<Graph, AllocError> {
    let mut graph = Graph::new(alloc, names.len())?;
    'types: for member in types {
        let low = number(names, member.name.name.bytes());
        let high = number(names, member.kind.name.bytes());
        graph.add_edge(low, high)?;
    }
    Ok(graph)
}

// A rank for each type, such that a type has no lower one than those that are above it, and the same only
// where it is above them too.
fn ranks(alloc: Global, types: &[TypedName], names: &Names) -> Result<Vec<usize>, AllocError> {
    let mut graph = steps_up(alloc, types, names)?;
    'types: for low in 1..names.len() {
        graph.add_edge(low, 0)?;
    }
    components(alloc, &graph)
}

fn rank(names: &Names, ranks: &[usize], name: &[u8]) -> usize
    ensures { result ≡ rank_of names.now ranks.now name.now }
{
    match names.number(name) {
        None => 0,
        Some(place) => match ranks.get(place) {
            None => 0,
            Some(rank) => *rank,
        },
    }
}

// The types that have a step up to one of the same rank, where no step goes to a higher one.
fn tied(
    alloc: Global,
    types: &[TypedName],
    names: &Names,
    ranks: &[usize],
) -> Result<Option<Names>, AllocError>
    ensures { IfOk result (λ o. IfSome o (λ s. AreSuspects (bindings_of types.now) s)) }
{
    if rank(names, ranks, OBJECT) != 0 {
        return Ok(None);
    }
    let mut suspects = Names::new(alloc);
    'types: for member in types {
        let low = rank(names, ranks, member.name.name.bytes());
        let high = rank(names, ranks, member.kind.name.bytes());
        if low < high {
            return Ok(None);
        }
        add_where(alloc, &mut suspects, low == high, member.name.name.bytes())?;
    }
    Ok(Some(suspects))
}

/// The types that may be above themselves: no other listed one is. Nothing where the ranks were no help.
pub fn suspects(alloc: Global, types: &[TypedName]) -> Result<Option<Names>, AllocError>
    ensures { IfOk result (λ o. IfSome o (λ s. AreSuspects (bindings_of types.now) s)) }
{
    let names = numbered(alloc, types)?;
    let ranks = ranks(alloc, types, &names)?;
    tied(alloc, types, &names, ranks.as_slice())
}

// Whether these members of the list, one for each number of a type, lead down from a type to itself, or to
// `object`, which is above it.
fn leads_back<'a>(types: &'a [TypedName], names: &Names, steps: &[usize], name: &'a [u8]) -> bool
    ensures { result ≡ true → is_above (bindings_of types.now) name.now name.now ≡ true }
{
    let mut high = name;
    let mut left = types.len() + 1;
    'steps: while left > 0 {
        left -= 1;
        if high == OBJECT.as_slice() {
            if name != OBJECT.as_slice() {
                return true;
            }
        }
        let step = step_to(steps, number(names, high));
        match types.get(step) {
            None => return false,
            Some(member) => {
                if member.kind.name.bytes() != high {
                    return false;
                }
                if member.name.name.bytes() == name {
                    return true;
                }
                high = member.name.name.bytes();
            }
        }
    }
    false
}

// The member of the list that a search came by; past all, where it came by none.
fn step_to(steps: &[usize], number: usize) -> usize {
    match steps.get(number) {
        None => usize::MAX,
        Some(step) => *step,
    }
}

/// Whether a way up from a type to itself was found.
pub fn finds_loop(alloc: Global, types: &[TypedName], name: &[u8]) -> Result<bool, AllocError>
    ensures { IfOk result (λ found. found ≡ true → is_above (bindings_of types.now) name.now name.now ≡ true) }
{
    let names = numbered(alloc, types)?;
    let graph = steps_up(alloc, types, &names)?;
    let steps = entered_by(alloc, &graph, number(&names, name), 0)?;
    Ok(leads_back(types, &names, steps.as_slice(), name))
}
