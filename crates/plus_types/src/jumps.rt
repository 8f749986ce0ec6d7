//! Ways up from a type in few steps.
//!
//! Two steps lead up from each listed type: to the type right above it, and by a jump to one further up. A type
//! jumps as far as two jumps lead from the type right above it, if these two are of one length, and else to that
//! type. So the jumps of a way up double in length, and any depth on it is reached in a few steps for each
//! doubling of the way (jump pointers: Myers 1983, for lists that share their tails).
//!
//! The order of the types and their depths come of searches of which nothing is proved. The depths are tried in
//! one walk over the list, and each jump is made of two that were made before.

ghost use Rattle.std.specs.Prelude.{◌≡◌, ◌<◌, ◌≤◌, ℕ, List, true, false, None, length, get_or, position, IfOk, IfSome};
ghost use Rattle.std.specs.Str.{bytes_eq};
ghost use Rattle.plus_types.specs.Types.{Binding, bindings_of, bound_kinds, bound_names, is_under, object_name};
ghost use Rattle.plus_types.specs.Listed.{IsListed, name_at};
ghost use Rattle.plus_types.specs.Jumps.{depth_of, AreDepths, AreAlike, Reaches, LeadUp, AllLeadUp, AreJumps, MayBeJumps};

use crate::kinds::Kinds;
use crate::names::is_name;
use plus_graph::{Graph, components};
use plus_tree::TypedName;
use std::alloc::{AllocError, Global};

// A way up through so many listed types is short: it is walked as soon as it is jumped.
const SHORT: usize = 16;

/// The two steps up from a listed type, to types by their numbers. One with no listed type above it goes to
/// itself.
#[derive(Clone, Copy)]
pub struct Steps {
    up: usize,
    jump: usize,
}

/// How deep the listed types stand, and their steps up.
#[derive(Drop)]
pub struct Jumps {
    depths: Vec<usize>,
    steps: Vec<Steps>,
}

impl Jumps {
    /// The jumps of types that are well listed. There are none where all ways up are short.
    pub fn build(
        alloc: Global,
        types: &[TypedName],
        listed: &Kinds,
    ) -> Result<Option<Jumps>, AllocError>
        requires table { listed.now ≡ bindings_of types.now }
        requires listed { IsListed listed.now (bound_kinds listed.now) }
        ensures { IfOk result (λ jumps. MayBeJumps listed.now jumps) }
    {
        if types.len() <= SHORT {
            return Ok(None);
        }
        let parents = parents(alloc, types, listed)?;
        if !has_long_way(parents.as_slice()) {
            return Ok(None);
        }
        from_parents(alloc, types, listed, parents.as_slice())
    }

    /// Whether a type is another, or is under it. Nothing is told of a type that is not listed.
    pub fn is_under(&self, listed: &Kinds, low: &[u8], high: &[u8]) -> Option<bool>
        requires jumps { AreJumps listed.now self.now }
        requires high { bytes_eq high.now object_name ≡ false }
        ensures { IfSome result (λ under. under ≡ is_under listed.now low.now high.now) }
    {
        match listed.number(low) {
            None => None,
            Some(start) => match listed.number(high) {
                None => self.is_under_top(listed, start, high),
                Some(end) => self.is_under_listed(listed, start, end),
            },
        }
    }

    // Whether a listed type is another, or is under it: it is where the way up comes to the other at its depth.
    fn is_under_listed(&self, listed: &Kinds, start: usize, end: usize) -> Option<bool>
        requires jumps { AreJumps listed.now self.now }
        requires end { end < length listed.now }
        requires high { bytes_eq (name_at listed.now end) object_name ≡ false }
        ensures { IfSome result (λ under. under ≡ is_under listed.now (name_at listed.now start) (name_at listed.now end)) }
    {
        match self.reach(start, depth_at(self.depths.as_slice(), end)) {
            None => None,
            Some(at) => {
                if at < listed.len() {
                    Some(at == end)
                } else {
                    None
                }
            }
        }
    }

    // Whether a listed type is under one that is not listed: that stands right above the last listed type of the
    // way up, whose depth is 1.
    fn is_under_top(&self, listed: &Kinds, start: usize, high: &[u8]) -> Option<bool>
        requires jumps { AreJumps listed.now self.now }
        requires unlisted { position (bytes_eq high.now) (bound_names listed.now) ≡ None }
        requires high { bytes_eq high.now object_name ≡ false }
        ensures { IfSome result (λ under. under ≡ is_under listed.now (name_at listed.now start) high.now) }
    {
        match self.reach(start, 1) {
            None => None,
            Some(at) => match listed.kind_at(at) {
                None => None,
                Some(kind) => Some(is_name(high, kind)),
            },
        }
    }

    // The type of this depth on the way up from a listed one; the type itself, where it stands no deeper.
    fn reach(&self, start: usize, depth: usize) -> Option<usize>
        ensures depth { IfSome result (λ at. get_or self.now.depths.items at 0 ≤ depth) }
        ensures alike { IfSome result (λ at. (types : List Binding) → AllLeadUp types self.now.depths.items self.now.steps.items
            → AreAlike types self.now.depths.items depth start at) }
    {
        let mut at = start;
        let mut left = self.depths.len();
        'steps: while left > 0 {
            left -= 1;
            if depth_at(self.depths.as_slice(), at) <= depth {
                return Some(at);
            }
            match self.next(at, depth) {
                None => return None,
                Some(next) => at = next,
            }
        }
        None
    }

    // The longer step up from a listed type that goes no higher than to this depth.
    fn next(&self, at: usize, depth: usize) -> Option<usize>
        ensures { IfSome result (λ next. (types : List Binding) → AllLeadUp types self.now.depths.items self.now.steps.items
            → AreAlike types self.now.depths.items depth at next) }
    {
        if at >= self.steps.len() {
            return None;
        }
        let steps = self.steps[at];
        if depth <= depth_at(self.depths.as_slice(), steps.jump) {
            return Some(steps.jump);
        }
        if depth <= depth_at(self.depths.as_slice(), steps.up) {
            return Some(steps.up);
        }
        None
    }
}

// The depth of a listed type by its number; 0 past all.
fn depth_at(depths: &[usize], number: usize) -> usize
    ensures { result ≡ get_or depths.now number 0 }
{
    match depths.get(number) {
        None => 0,
        Some(depth) => *depth,
    }
}

// The depth of a type; 0 where it is not listed.
fn depth(listed: &Kinds, depths: &[usize], name: &[u8]) -> usize
    ensures { result ≡ depth_of listed.now depths.now name.now }
{
    match listed.number(name) {
        None => 0,
        Some(number) => depth_at(depths, number),
    }
}

// For each listed type the number of the one above it; past all, where that is not listed.
fn parents(alloc: Global, types: &[TypedName], listed: &Kinds) -> Result<Vec<usize>, AllocError> {
    let mut parents = Vec::with_capacity(alloc, types.len())?;
    'types: for member in types {
        let parent = match listed.number(member.kind.name.bytes()) {
            None => types.len(),
            Some(number) => number,
        };
        parents.push(parent)?;
    }
    Ok(parents)
}

// Whether some way up is not short.
fn has_long_way(parents: &[usize]) -> bool {
    for number in 0..parents.len() {
        if is_long(parents, number) {
            return true;
        }
    }
    false
}

// Whether the way up from a listed type is not short.
fn is_long(parents: &[usize], number: usize) -> bool {
    let mut at = number;
    for _ in 0..SHORT {
        match parents.get(at) {
            None => return false,
            Some(parent) => at = *parent,
        }
    }
    at < parents.len()
}

// The listed types, each behind the one above it.
fn ordered(alloc: Global, parents: &[usize]) -> Result<Vec<usize>, AllocError> {
    let mut graph = Graph::new(alloc, parents.len())?;
    for (number, parent) in parents.iter().enumerate() {
        if *parent < parents.len() {
            graph.add_edge(number, *parent)?;
        }
    }
    let ranks = components(alloc, &graph)?;
    inverse(alloc, ranks.as_slice())
}

// The numbers by their ranks.
fn inverse(alloc: Global, ranks: &[usize]) -> Result<Vec<usize>, AllocError> {
    let mut numbers = vec![in alloc; 0; ranks.len()]?;
    for (number, rank) in ranks.iter().enumerate() {
        if *rank < numbers.len() {
            numbers[*rank] = number;
        }
    }
    Ok(numbers)
}

// One more than the depth of the type above it, for each listed type in order.
fn depths(alloc: Global, parents: &[usize], order: &[usize]) -> Result<Vec<usize>, AllocError> {
    let mut depths = vec![in alloc; 0; parents.len()]?;
    for number in order {
        if *number < parents.len() {
            let above = depth_at(depths.as_slice(), parents[*number]);
            if *number < depths.len() {
                depths[*number] = above.saturating_add(1);
            }
        }
    }
    Ok(depths)
}

// Whether each type stands deeper than the one above it, and none deeper than there are types.
fn are_depths(types: &[TypedName], listed: &Kinds, depths: &[usize]) -> bool
    requires { listed.now ≡ bindings_of types.now }
    ensures { result ≡ true → AreDepths listed.now depths.now }
{
    'types: for member in types {
        let low = depth(listed, depths, member.name.name.bytes());
        let high = depth(listed, depths, member.kind.name.bytes());
        if low <= high || types.len() < low {
            return false;
        }
    }
    true
}

// The jumps of types with these right above them. There are none where the depths are none, which no list has
// shown yet.
fn from_parents(
    alloc: Global,
    types: &[TypedName],
    listed: &Kinds,
    parents: &[usize],
) -> Result<Option<Jumps>, AllocError>
    requires table { listed.now ≡ bindings_of types.now }
    requires listed { IsListed listed.now (bound_kinds listed.now) }
    ensures { IfOk result (λ jumps. MayBeJumps listed.now jumps) }
{
    let order = ordered(alloc, parents)?;
    let depths = depths(alloc, parents, order.as_slice())?;
    if !are_depths(types, listed, depths.as_slice()) {
        return Ok(None);
    }
    let steps = all_steps(alloc, types, listed, depths.as_slice(), order.as_slice())?;
    Ok(Some(Jumps { depths, steps }))
}

// The steps up from each type.
fn all_steps(
    alloc: Global,
    types: &[TypedName],
    listed: &Kinds,
    depths: &[usize],
    order: &[usize],
) -> Result<Vec<Steps>, AllocError>
    requires table { listed.now ≡ bindings_of types.now }
    requires listed { IsListed listed.now (bound_kinds listed.now) }
    requires depths { AreDepths listed.now depths.now }
    ensures { IfOk result (λ steps. AllLeadUp listed.now depths.now steps.items) }
{
    let mut steps = staying(alloc, types.len())?;
    'order: for number in order {
        set_steps(types, listed, depths, &mut steps, *number);
    }
    Ok(steps)
}

// Steps that go to the type itself, for so many types.
fn staying(alloc: Global, len: usize) -> Result<Vec<Steps>, AllocError>
    ensures { IfOk result (λ steps. (types : List Binding) → (depths : List ℕ) → AllLeadUp types depths steps.items) }
{
    let mut steps = Vec::with_capacity(alloc, len)?;
    'numbers: for number in 0..len {
        steps.push(Steps {
            up: number,
            jump: number,
        })?;
    }
    Ok(steps)
}

// Sets the steps up from a type with a listed one above it.
fn set_steps(
    types: &[TypedName],
    listed: &Kinds,
    depths: &[usize],
    steps: &mut Vec<Steps>,
    number: usize,
)
    requires table { listed.now ≡ bindings_of types.now }
    requires listed { IsListed listed.now (bound_kinds listed.now) }
    requires depths { AreDepths listed.now depths.now }
    requires steps { AllLeadUp listed.now depths.now steps.old.items }
    ensures { AllLeadUp listed.now depths.now steps.new.items }
{
    if let Some(own) = steps_from(types, listed, depths, steps.as_slice(), number) {
        if number < steps.len() {
            steps[number] = own;
        }
    }
}

// The steps up from a type with a listed one above it.
fn steps_from(
    types: &[TypedName],
    listed: &Kinds,
    depths: &[usize],
    steps: &[Steps],
    number: usize,
) -> Option<Steps>
    requires table { listed.now ≡ bindings_of types.now }
    requires listed { IsListed listed.now (bound_kinds listed.now) }
    requires depths { AreDepths listed.now depths.now }
    requires steps { AllLeadUp listed.now depths.now steps.now }
    ensures { IfSome result (λ own. LeadUp listed.now depths.now number own) }
{
    match types.get(number) {
        None => None,
        Some(member) => match listed.number(member.kind.name.bytes()) {
            None => None,
            Some(up) => Some(Steps {
                up,
                jump: jump(depths, steps, up),
            }),
        },
    }
}

// Where a type jumps to from below this one: as far as two jumps lead from this one, if both are of one length;
// else to this one.
fn jump(depths: &[usize], steps: &[Steps], up: usize) -> usize
    ensures depth { get_or depths.now result 0 ≤ get_or depths.now up 0 }
    ensures reaches { (types : List Binding) → AllLeadUp types depths.now steps.now → Reaches types depths.now up result }
{
    let middle = jump_from(steps, up);
    let far = jump_from(steps, middle);
    let low = depth_at(depths, up);
    let mid = depth_at(depths, middle);
    let high = depth_at(depths, far);
    if high <= mid && mid <= low && low - mid == mid - high {
        far
    } else {
        up
    }
}

// Where a type jumps to; past all types it stays.
fn jump_from(steps: &[Steps], number: usize) -> usize
    ensures { (types : List Binding) → (depths : List ℕ) → AllLeadUp types depths steps.now → Reaches types depths number result }
{
    if number < steps.len() {
        steps[number].jump
    } else {
        number
    }
}
