//! Timed literals, step by step.
ghost use Rattle.std.specs.Prelude.{◌≡◌, ℕ, suc, ◌+◌, ◌<◌, ◌≤◌, length, map, take, drop, pos, All, IfSome, slice_get};
ghost use Rattle.plus_fraction.specs.Fraction.{whole, ◌<ℚ◌, compared};
ghost use Rattle.plus_model.specs.Terms.{Timed as Meant, Same};
ghost use Rattle.plus_model.specs.Value.{passes};
ghost use Rattle.plus_model.specs.Joint.{new_atoms};
ghost use Rattle.plus_state.specs.View.{timed_of};
ghost use Rattle.plus_steps.specs.Stepped.{time_of_step};
ghost use Rattle.plus_stepped.specs.Coming.{ComesNext};
ghost use Rattle.plus_stepped.specs.Grid.{AllOnGrid, InTime, UpTo, From, IsAt, changes_of, put_signed, run_of};

use crate::grid::steps_of;
use plus_number::exact::Exact;
use plus_state::problem::Timed;
use plus_state::states::State;
use std::cmp::Ordering;

/// Where the next literal stands, and how many ticks it is away; 0 where there is none.
#[derive(Clone, Copy)]
pub struct Upcoming {
    pub place: usize,
    pub ticks: u64,
}

// Puts the literals of one sign.
fn put_sign<Q: Exact>(state: &mut State<Q>, due: &[Timed<Q>], positive: bool)
    requires { All (λ (l : Meant). l.atom < length state.old.atoms) (map (timed_of Q.value) due.now) }
    ensures { state.new ≡ record (state.old) { atoms = put_signed positive (map (timed_of Q.value) due.now) state.old.atoms } }
{
    'each: for literal in due {
        if literal.positive == positive {
            state.put(literal.atom, positive);
        }
    }
}

// The state after these literals: what is cleared goes, and then what is set comes.
pub fn put_literals<Q: Exact>(state: &mut State<Q>, due: &[Timed<Q>])
    requires { All (λ (l : Meant). l.atom < length state.old.atoms) (map (timed_of Q.value) due.now) }
    ensures { state.new ≡ record (state.old) { atoms = new_atoms 0 (changes_of (map (timed_of Q.value) due.now)) state.old.atoms } }
{
    put_sign(state, due, false);
    put_sign(state, due, true);
}

fn is_equal<Q: Exact>(time: Q, other: Q) -> bool
    ensures { result ≡ passes Same (compared (Q.value time) (Q.value other)) }
{
    match time.order(other) {
        Ordering::Less => false,
        Ordering::Equal => true,
        Ordering::Greater => false,
    }
}

// Where the run of literals of this time ends that begins at this place.
fn run_end<Q: Exact>(timed: &[Timed<Q>], from: usize, time: Q) -> usize
    requires { from ≤ length timed.now }
    ensures end { result ≡ from + run_of (Q.value time) (drop from (map (timed_of Q.value) timed.now)) }
    ensures inside { result ≤ length timed.now }
{
    let mut place = from;
    while place < timed.len() && is_equal(timed[place].time, time) {
        place += 1;
    }
    place
}

// How many steps the literal at this place comes after so many steps.
fn ticks_to<Q: Exact>(timed: &[Timed<Q>], place: usize, here: u64, interval: Q) -> u64
    requires above { whole (pos 0) <ℚ Q.value interval }
    requires grid { AllOnGrid (Q.value interval) (map (timed_of Q.value) timed.now) }
    requires later { IfSome (slice_get (map (timed_of Q.value) timed.now) place)
        (λ (l : Meant). time_of_step (Q.value interval) here <ℚ l.time) }
    ensures { IfSome (slice_get (map (timed_of Q.value) timed.now) place)
        (λ (l : Meant). (1 ≤ result) × (l.time ≡ time_of_step (Q.value interval) (here + result))) }
{
    if place >= timed.len() {
        return 0;
    }
    match steps_of(timed[place].time, interval) {
        Some(steps) => steps - here,
        None => unreachable!(),
    }
}

/// Where the first literal after so many steps stands. This is their time, no literal before the place
/// is later, and none from there on is earlier.
pub fn next_after<Q: Exact>(
    timed: &[Timed<Q>],
    from: usize,
    time: Q,
    here: u64,
    interval: Q,
) -> Upcoming
    requires above { whole (pos 0) <ℚ Q.value interval }
    requires grid { AllOnGrid (Q.value interval) (map (timed_of Q.value) timed.now) }
    requires in_time { InTime (map (timed_of Q.value) timed.now) }
    requires inside { from ≤ length timed.now }
    requires time { Q.value time ≡ time_of_step (Q.value interval) here }
    requires past { UpTo (Q.value time) (take from (map (timed_of Q.value) timed.now)) }
    requires rest { From (Q.value time) (drop from (map (timed_of Q.value) timed.now)) }
    ensures place { result.place ≡ from + run_of (Q.value time) (drop from (map (timed_of Q.value) timed.now)) }
    ensures inside { result.place ≤ length timed.now }
    ensures at { IsAt (map (timed_of Q.value) timed.now) (Q.value interval) here result.place result.ticks }
{
    let place = run_end(timed, from, time);
    Upcoming {
        place,
        ticks: ticks_to(timed, place, here, interval),
    }
}

/// Where the next literal stands one step later. The literals between the two places come with that step.
pub fn next_literal<Q: Exact>(timed: &[Timed<Q>], place: usize, ticks: u64, interval: Q) -> Upcoming
    requires above { whole (pos 0) <ℚ Q.value interval }
    requires grid { AllOnGrid (Q.value interval) (map (timed_of Q.value) timed.now) }
    requires in_time { InTime (map (timed_of Q.value) timed.now) }
    requires inside { place ≤ length timed.now }
    requires at { (n : ℕ) × IsAt (map (timed_of Q.value) timed.now) (Q.value interval) n place ticks }
    ensures next { (n : ℕ) → IsAt (map (timed_of Q.value) timed.now) (Q.value interval) n place ticks
        → ComesNext (map (timed_of Q.value) timed.now) (Q.value interval) (suc n) place result }
    ensures onward { place ≤ result.place }
    ensures inside { result.place ≤ length timed.now }
{
    if place == timed.len() {
        return Upcoming { place, ticks: 0 };
    }
    if ticks > 1 {
        return Upcoming {
            place,
            ticks: ticks - 1,
        };
    }
    let time = timed[place].time;
    match steps_of(time, interval) {
        Some(here) => next_after(timed, place, time, here, interval),
        None => unreachable!(),
    }
}
