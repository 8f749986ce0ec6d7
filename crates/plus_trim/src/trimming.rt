//! Leaves acts of a plan out until no single one can go.
ghost use Rattle.std.specs.Prelude.{◌≡◌, ◌≢◌, ◌≤◌, map, length, pos, IfOk, IfErr};
ghost use Rattle.std.specs.List.{range_with_len};
ghost use Rattle.plus_fraction.specs.Fraction.{whole as ratio};
ghost use Rattle.plus_state.specs.View.{problem_of};
ghost use Rattle.plus_trim.specs.Acts.{act_of, plan_of, AreAhead, AllFit};
ghost use Rattle.plus_trim.specs.Judging.{IsInside, Halts};
ghost use Rattle.plus_trim.specs.Work.{IsFirst, AreMarked, IsWork};
ghost use Rattle.plus_trim.specs.Trimmed.{Answers, IsKeptOrMemory, trimmed_by};

use crate::acts::{Bounds, TimedAction};
use crate::tries::Work;
use plus_indexed::Indexed;
use plus_number::exact::Exact;
use plus_state::outcome::{Breach, Limit};
use plus_state::problem::Ground;
use plus_timeline::Stop;
use std::alloc::{AllocError, Global};
use std::mem;

/// What trimming comes to.
#[derive(Drop)]
pub enum Trimmed<Q> {
    /// The acts at these places are kept. In so many cases it is a limit that stands where one of them is
    /// left out.
    Kept { places: Vec<u32>, beyond: u64 },
    /// The plan breaks this rule. The line of a breach by an action is the act's position, from 1.
    Invalid(Breach<Q>),
    /// The plan goes beyond this limit of the program.
    Beyond(Limit<Q>),
    /// Memory is wanting.
    Memory,
}

// What a refusal of the whole list comes to.
fn refused<Q: Exact>(stop: Stop<Q>) -> Trimmed<Q>
    requires { stop ≢ Stop.Ended }
    ensures { result ≡ trimmed_by stop }
{
    match stop {
        Stop::Breach(breach) => Trimmed::Invalid(breach),
        Stop::Limit(limit) => Trimmed::Beyond(limit),
        Stop::Ended => unreachable!(),
        Stop::Memory => Trimmed::Memory,
    }
}

// The places of so many acts.
fn all_places(alloc: Global, count: u32) -> Result<Vec<u32>, AllocError>
    ensures { IfOk result (λ ps. ps.items ≡ range_with_len 0 count) }
{
    let mut places = Vec::new(alloc);
    for place in 0..count {
        places.push(place)?;
    }
    Ok(places)
}

// A timeline that has begun.
fn first_marks<Q: Exact>(
    alloc: Global,
    ground: &Ground<Q>,
    happenings: u64,
) -> Result<Vec<Indexed<Q>>, AllocError>
    requires some { 1 ≤ happenings }
    ensures { IfOk result (λ ms. IsFirst Q.fits (problem_of Q.value ground.now) happenings ms.items) }
{
    let mut marks = Vec::new(alloc);
    let mark = Indexed::begin(alloc, ground, happenings)?;
    marks.push(mark)?;
    Ok(marks)
}

// All acts, and a timeline at the beginning.
fn first_work<Q: Exact>(
    alloc: Global,
    ground: &Ground<Q>,
    acts: &[TimedAction<Q>],
    bounds: &Bounds<Q>,
) -> Result<Work<Q>, AllocError>
    requires few { length acts.now ≤ 200 }
    requires ahead { AreAhead (ratio (pos 0)) (map (act_of Q.value) acts.now) (Q.value bounds.now.end) }
    requires some { 1 ≤ bounds.now.happenings }
    ensures places { IfOk result (λ w. w.places.items ≡ range_with_len 0 (length acts.now)) }
    ensures marked { IfOk result (λ w. AreMarked Q.fits (problem_of Q.value ground.now) bounds.now.happenings (map (act_of Q.value) acts.now) (Q.value bounds.now.end) w.places.items w.marks.items) }
{
    let places = all_places(alloc, acts.len() as u32)?;
    let marks = first_marks(alloc, ground, bounds.happenings)?;
    Ok(Work { places, marks })
}

// Plays the whole list.
fn begin<Q: Exact>(
    alloc: Global,
    ground: &Ground<Q>,
    acts: &[TimedAction<Q>],
    bounds: &Bounds<Q>,
) -> Result<Work<Q>, Stop<Q>>
    requires fit { AllFit (problem_of Q.value ground.now).atoms (problem_of Q.value ground.now).fluents (map (act_of Q.value) acts.now) }
    requires few { length acts.now ≤ 200 }
    requires ahead { AreAhead (ratio (pos 0)) (map (act_of Q.value) acts.now) (Q.value bounds.now.end) }
    requires some { 1 ≤ bounds.now.happenings }
    ensures work { IfOk result (λ w. IsWork Q.fits (problem_of Q.value ground.now) bounds.now.happenings (map (act_of Q.value) acts.now) (Q.value bounds.now.end) w.places.items w.marks.items) }
    ensures halts { IfErr result (Halts Q.value Q.fits (problem_of Q.value ground.now) bounds.now.happenings (plan_of (map (act_of Q.value) acts.now) (Q.value bounds.now.end))) }
{
    let Ok(work) = first_work(alloc, ground, acts, bounds) else {
        return Err(Stop::Memory);
    };
    match work.play(alloc, ground, acts, bounds) {
        Ok(()) => Ok(work),
        Err(stop) => {
            drop(work);
            Err(stop)
        }
    }
}

// Round by round, until no act can go.
fn rounds<Q: Exact>(
    work: &mut Work<Q>,
    alloc: Global,
    ground: &Ground<Q>,
    acts: &[TimedAction<Q>],
    bounds: &Bounds<Q>,
) -> Trimmed<Q>
    requires fit { AllFit (problem_of Q.value ground.now).atoms (problem_of Q.value ground.now).fluents (map (act_of Q.value) acts.now) }
    requires work { IsWork Q.fits (problem_of Q.value ground.now) bounds.now.happenings (map (act_of Q.value) acts.now) (Q.value bounds.now.end) work.old.places.items work.old.marks.items }
    ensures answers { Answers Q.value Q.fits (problem_of Q.value ground.now) bounds.now.happenings (map (act_of Q.value) acts.now) (Q.value bounds.now.end) result }
    ensures kept { IsKeptOrMemory result }
{
    'anew: loop {
        match work.round(alloc, ground, acts, bounds) {
            Ok(None) => {}
            Ok(Some(beyond)) => {
                let places = mem::replace(&mut work.places, Vec::new(alloc));
                return Trimmed::Kept { places, beyond };
            }
            Err(_) => return Trimmed::Memory,
        }
    }
}

/// Leaves acts of a plan out until no single one can go: it tries them from the first, and begins anew after
/// each that is left out, since an earlier one may go then. A try costs what follows the act that it leaves out.
pub fn trim<Q: Exact>(
    alloc: Global,
    ground: &Ground<Q>,
    acts: &[TimedAction<Q>],
    end: Q,
    happenings: u64,
) -> Trimmed<Q>
    requires fit { AllFit (problem_of Q.value ground.now).atoms (problem_of Q.value ground.now).fluents (map (act_of Q.value) acts.now) }
    requires few { length acts.now ≤ 200 }
    requires ahead { AreAhead (ratio (pos 0)) (map (act_of Q.value) acts.now) (Q.value end) }
    requires some { 1 ≤ happenings }
    ensures answers { Answers Q.value Q.fits (problem_of Q.value ground.now) happenings (map (act_of Q.value) acts.now) (Q.value end) result }
    ensures kept { IsInside Q.fits (problem_of Q.value ground.now) happenings (plan_of (map (act_of Q.value) acts.now) (Q.value end)) → IsKeptOrMemory result }
{
    let bounds = Bounds { end, happenings };
    match begin(alloc, ground, acts, &bounds) {
        Ok(mut work) => {
            let trimmed = rounds(&mut work, alloc, ground, acts, &bounds);
            drop(work);
            trimmed
        }
        Err(stop) => refused(stop),
    }
}
