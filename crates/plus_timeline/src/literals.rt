//! Timed literals: how far it is to the next, and what those of one time change.
ghost use Rattle.std.specs.Prelude.{◌≡◌, ◌↔◌, ◌≤◌, ◌<◌, true, false, [], ◌∷◌, length, map, slice_index_or, pos, IfOk, if◌then◌else◌};
ghost use Rattle.std.specs.List.Sorted.{IsPartitionPoint};
ghost use Rattle.plus_fraction.specs.Fraction.{whole};
ghost use Rattle.plus_model.specs.Trajectory.{least, is_below as is_below_of};
ghost use Rattle.plus_model.specs.Joint.{new_atoms};
ghost use Rattle.plus_state.specs.View.{problem_of, timed_of};
ghost use Rattle.plus_state.specs.Fits.{AreInOrder};
ghost use Rattle.plus_state.specs.Changes.{patched_list, AreIn, Rises};
ghost use Rattle.plus_state.specs.ChangesView.{atom_changes};
ghost use Rattle.plus_state.specs.Due.{DuesFit, atom_changes as made_of};
ghost use Rattle.plus_state.specs.Stops.{due_of};
ghost use Rattle.plus_timeline.specs.Literals.{AreLiterals, is_before, is_by, puts_of};

use plus_crossing::crossings::is_below;
use plus_number::exact::Exact;
use plus_state::atoms::changed_atoms;
use plus_state::changes::{AtomChange, Changes};
use plus_state::due::Due;
use plus_state::problem::{Ground, Timed};
use std::alloc::{AllocError, Global};

fn earlier<Q: Exact>(x: Q, y: Q) -> Q
    ensures { Q.value result ≡ (if is_below_of (Q.value x) (Q.value y) then Q.value x else Q.value y) }
{
    if is_below(x, y) { x } else { y }
}

// Where the first literal stands that does not come before the time.
fn first_from<Q: Exact>(literals: &[Timed<Q>], time: Q) -> usize
    requires { AreInOrder (whole (pos 0)) (map (timed_of Q.value) literals.now) }
    ensures inside { result ≤ length literals.now }
    ensures point { IsPartitionPoint (λ l. is_before Q.value (Q.value time) l ≡ true)
        (λ l. is_before Q.value (Q.value time) l ≡ false) literals.now result }
{
    literals.partition_point(|literal| is_below(literal.time, time))
}

// Where the first literal stands that comes after the time.
fn first_after<Q: Exact>(literals: &[Timed<Q>], time: Q) -> usize
    requires { AreInOrder (whole (pos 0)) (map (timed_of Q.value) literals.now) }
    ensures inside { result ≤ length literals.now }
    ensures point { IsPartitionPoint (λ l. is_by Q.value (Q.value time) l ≡ true)
        (λ l. is_by Q.value (Q.value time) l ≡ false) literals.now result }
{
    literals.partition_point(|literal| !is_below(time, literal.time))
}

// Whether the literal at this place comes before the time. None does behind the last.
#[inline(always)]
fn is_before_at<Q: Exact>(literals: &[Timed<Q>], time: Q, place: usize) -> bool
    ensures { place < length literals.now → (d : _) → result ≡ is_before Q.value (Q.value time) (slice_index_or literals.now place d) }
{
    match literals.get(place) {
        Some(literal) => is_below(literal.time, time),
        None => false,
    }
}

// Whether the literal at this place does not come after the time. Each one behind the last does.
#[inline(always)]
fn is_by_at<Q: Exact>(literals: &[Timed<Q>], time: Q, place: usize) -> bool
    ensures { place < length literals.now → (d : _) → result ≡ is_by Q.value (Q.value time) (slice_index_or literals.now place d) }
{
    match literals.get(place) {
        Some(literal) => !is_below(time, literal.time),
        None => false,
    }
}

// Whether the first literal that does not come before the time stands at this place.
#[inline(always)]
fn is_first_from<Q: Exact>(literals: &[Timed<Q>], time: Q, place: usize) -> bool
    requires { AreInOrder (whole (pos 0)) (map (timed_of Q.value) literals.now) }
    ensures inside { result ≡ true → place ≤ length literals.now }
    ensures point { result ≡ true → IsPartitionPoint (λ l. is_before Q.value (Q.value time) l ≡ true)
        (λ l. is_before Q.value (Q.value time) l ≡ false) literals.now place }
{
    if place > literals.len() {
        return false;
    }
    if place > 0 && !is_before_at(literals, time, place - 1) {
        return false;
    }
    !is_before_at(literals, time, place)
}

// Whether the first literal that comes after the time stands at this place.
#[inline(always)]
fn is_first_after<Q: Exact>(literals: &[Timed<Q>], time: Q, place: usize) -> bool
    requires { AreInOrder (whole (pos 0)) (map (timed_of Q.value) literals.now) }
    ensures inside { result ≡ true → place ≤ length literals.now }
    ensures point { result ≡ true → IsPartitionPoint (λ l. is_by Q.value (Q.value time) l ≡ true)
        (λ l. is_by Q.value (Q.value time) l ≡ false) literals.now place }
{
    if place > literals.len() {
        return false;
    }
    if place > 0 && !is_by_at(literals, time, place - 1) {
        return false;
    }
    !is_by_at(literals, time, place)
}

// The same as `first_from`. It costs no search where the place is this one.
#[inline(always)]
fn first_from_near<Q: Exact>(literals: &[Timed<Q>], time: Q, near: usize) -> usize
    requires { AreInOrder (whole (pos 0)) (map (timed_of Q.value) literals.now) }
    ensures inside { result ≤ length literals.now }
    ensures point { IsPartitionPoint (λ l. is_before Q.value (Q.value time) l ≡ true)
        (λ l. is_before Q.value (Q.value time) l ≡ false) literals.now result }
{
    if is_first_from(literals, time, near) {
        return near;
    }
    first_from(literals, time)
}

// The same as `first_after`. It costs no search where the place is this one or the next.
#[inline(always)]
fn first_after_near<Q: Exact>(literals: &[Timed<Q>], time: Q, near: usize) -> usize
    requires { AreInOrder (whole (pos 0)) (map (timed_of Q.value) literals.now) }
    ensures inside { result ≤ length literals.now }
    ensures point { IsPartitionPoint (λ l. is_by Q.value (Q.value time) l ≡ true)
        (λ l. is_by Q.value (Q.value time) l ≡ false) literals.now result }
{
    if is_first_after(literals, time, near) {
        return near;
    }
    if near < literals.len() {
        let next = near + 1;
        if is_first_after(literals, time, next) {
            return next;
        }
    }
    first_after(literals, time)
}

// Where those of the time begin, and where they end.
#[inline(always)]
fn run_of<Q: Exact>(literals: &[Timed<Q>], time: Q, near: usize) -> (usize, usize)
    requires { AreInOrder (whole (pos 0)) (map (timed_of Q.value) literals.now) }
    ensures turn { result.0 ≤ result.1 }
    ensures inside { result.1 ≤ length literals.now }
    ensures first { IsPartitionPoint (λ l. is_before Q.value (Q.value time) l ≡ true)
        (λ l. is_before Q.value (Q.value time) l ≡ false) literals.now result.0 }
    ensures after { IsPartitionPoint (λ l. is_by Q.value (Q.value time) l ≡ true)
        (λ l. is_by Q.value (Q.value time) l ≡ false) literals.now result.1 }
{
    let first = first_from_near(literals, time, near);
    (first, first_after_near(literals, time, first))
}

/// The least of a moment and of the times of literals that come after the present time. Where the first
/// of those stands at `near`, or next to it, that costs no search.
#[inline(always)]
pub fn bound<Q: Exact>(ground: &Ground<Q>, time: Q, until: Q, near: usize) -> Q
    ensures { Q.value result ≡ least (Q.value time) (Q.value until) (problem_of Q.value ground.now).timed }
{
    let next = first_after_near(&ground.timed, time, near);
    if next < ground.timed.len() {
        earlier(ground.timed[next].time, until)
    } else {
        until
    }
}

// What these literals do.
#[inline(always)]
fn puts<Q: Exact>(alloc: Global, literals: &[Timed<Q>]) -> Result<Vec<Due<Q>>, AllocError>
    ensures { IfOk result (λ due. map (due_of Q.value) due.items ≡ puts_of literals.now) }
{
    let mut due = Vec::new(alloc);
    'each: for literal in literals {
        due.push(Due::Put(literal.atom, literal.positive))?;
    }
    Ok(due)
}

// What becomes of the atom of one literal.
fn one_change<Q: Exact>(alloc: Global, literal: &Timed<Q>) -> Result<Vec<AtomChange>, AllocError>
    ensures { IfOk result (λ c. atom_changes c.items ≡ (literal.now.atom.0, literal.now.positive) ∷ []) }
{
    let mut changes = Vec::new(alloc);
    changes.push(AtomChange {
        atom: literal.atom,
        truth: literal.positive,
    })?;
    Ok(changes)
}

// What becomes of the atoms of these literals. One alone takes no list of writes.
#[inline(always)]
fn atoms_by<Q: Exact>(alloc: Global, literals: &[Timed<Q>]) -> Result<Vec<AtomChange>, AllocError>
    ensures rises { IfOk result (λ c. Rises (atom_changes c.items)) }
    ensures inside { IfOk result (λ c. (n m : _) → DuesFit n m (puts_of literals.now) → AreIn n (atom_changes c.items)) }
    ensures same { IfOk result (λ c. (bs : _) → patched_list (atom_changes c.items) bs ≡ new_atoms 0 (made_of (puts_of literals.now)) bs) }
{
    if literals.len() == 1 {
        return one_change(alloc, &literals[0]);
    }
    let due = puts(alloc, literals)?;
    changed_atoms(alloc, &due)
}

/// What the literals of this time change: an atom that is set and cleared is set. Where at most one
/// stands there, at `near`, that costs no search. Afterwards `near` is where they end.
#[inline(always)]
pub fn literal_changes<Q: Exact>(
    alloc: Global,
    ground: &Ground<Q>,
    time: Q,
    near: &mut usize,
) -> Result<Changes<Q>, AllocError>
    ensures { IfOk result (AreLiterals (problem_of Q.value ground.now) (Q.value time)) }
{
    let (first, after) = run_of(&ground.timed, time, *near);
    *near = after;
    let atoms = atoms_by(alloc, &ground.timed[first..after])?;
    Ok(Changes {
        atoms,
        fluents: Vec::new(alloc),
    })
}

/// Whether there are literals.
pub fn are_there<Q: Exact>(literals: &Changes<Q>) -> bool
    ensures { (result ≡ false) ↔ (literals.now.atoms ≡ []) }
{
    !literals.atoms.is_empty()
}
