//! Tries acts: plays the others, and leaves out those that can go.
ghost use Rattle.std.specs.Prelude.{◌≡◌, ◌≢◌, ◌<◌, ◌≤◌, ◌+◌, take, Some, map, length, IfOk, IfErr, OnOk};
ghost use Rattle.plus_state.specs.View.{problem_of};
ghost use Rattle.plus_trim.specs.Acts.{act_of, plan_of, without, chosen, AllFit};
ghost use Rattle.plus_trim.specs.Judging.{IsInside, Halts};
ghost use Rattle.plus_trim.specs.Work.{IsMark, AreMarked, IsWork, tried_by, TriedIs, IsMemory, beyond_after, RoundIs};

use crate::acting::act_at;
use crate::acts::{Bounds, TimedAction};
use crate::playing::play_on;
use plus_indexed::Indexed;
use plus_number::exact::Exact;
use plus_state::problem::Ground;
use plus_timeline::Stop;
use std::alloc::{AllocError, Global};

/// The places of the acts that are kept so far, and timelines that stand right behind the first of them:
/// none, one, two and so on.
#[derive(Drop)]
pub struct Work<Q: Exact> {
    pub places: Vec<u32>,
    pub marks: Vec<Indexed<Q>>,
}

/// What becomes of a plan with one act less.
#[derive(Clone, Copy)]
pub enum Tried {
    Valid,
    Breach,
    Limit,
}

// What a stop of a timeline that had not ended says.
fn refused<Q: Exact>(stop: Stop<Q>) -> Result<Tried, AllocError>
    requires { stop ≢ Stop.Ended }
    ensures { IfOk result (λ t. tried_by stop ≡ Some t) }
{
    match stop {
        Stop::Breach(_) => Ok(Tried::Breach),
        Stop::Limit(_) => Ok(Tried::Limit),
        Stop::Ended => unreachable!(),
        Stop::Memory => Err(AllocError),
    }
}

// Want of memory; no other stop comes here.
fn wanting<Q: Exact>(stop: Stop<Q>) -> AllocError
    requires { IsMemory stop }
{
    match stop {
        Stop::Breach(_) => unreachable!(),
        Stop::Limit(_) => unreachable!(),
        Stop::Ended => unreachable!(),
        Stop::Memory => AllocError,
    }
}

// In how many cases a limit stands after one more try; nothing where the act can go.
fn counted(tried: Tried, beyond: u64) -> Option<u64>
    requires { beyond < u64.MAX }
    ensures { result ≡ beyond_after tried beyond }
{
    match tried {
        Tried::Valid => None,
        Tried::Breach => Some(beyond),
        Tried::Limit => Some(beyond + 1),
    }
}

impl<Q: Exact> Work<Q> {
    /// Plays the acts that are kept, from the beginning.
    pub fn play(
        &self,
        alloc: Global,
        ground: &Ground<Q>,
        acts: &[TimedAction<Q>],
        bounds: &Bounds<Q>,
    ) -> Result<(), Stop<Q>>
        requires fit { AllFit (problem_of Q.value ground.now).atoms (problem_of Q.value ground.now).fluents (map (act_of Q.value) acts.now) }
        requires marked { AreMarked Q.fits (problem_of Q.value ground.now) bounds.now.happenings (map (act_of Q.value) acts.now) (Q.value bounds.now.end) self.now.places.items self.now.marks.items }
        ensures inside { OnOk result (IsInside Q.fits (problem_of Q.value ground.now) bounds.now.happenings
            (plan_of (chosen (map (act_of Q.value) acts.now) self.now.places.items) (Q.value bounds.now.end))) }
        ensures halts { IfErr result (Halts Q.value Q.fits (problem_of Q.value ground.now) bounds.now.happenings
            (plan_of (chosen (map (act_of Q.value) acts.now) self.now.places.items) (Q.value bounds.now.end))) }
    {
        match self.marks[0].copy(alloc) {
            Ok(mut line) => {
                let played = play_on(&mut line, ground, acts, &self.places, 0, bounds.end);
                drop(line);
                played
            }
            Err(_) => Err(Stop::Memory),
        }
    }

    // Plays the acts behind one of them, on a timeline that stands behind those before it.
    fn play_behind(
        &self,
        line: &mut Indexed<Q>,
        ground: &Ground<Q>,
        acts: &[TimedAction<Q>],
        bounds: &Bounds<Q>,
        index: usize,
    ) -> Result<Tried, AllocError>
        requires fit { AllFit (problem_of Q.value ground.now).atoms (problem_of Q.value ground.now).fluents (map (act_of Q.value) acts.now) }
        requires marked { AreMarked Q.fits (problem_of Q.value ground.now) bounds.now.happenings (map (act_of Q.value) acts.now) (Q.value bounds.now.end) self.now.places.items self.now.marks.items }
        requires place { index < length self.now.places.items }
        requires mark { IsMark Q.fits (problem_of Q.value ground.now) bounds.now.happenings
            (chosen (map (act_of Q.value) acts.now) (take index self.now.places.items)) line.old }
        ensures tried { IfOk result (TriedIs Q.fits (problem_of Q.value ground.now) bounds.now.happenings
            (chosen (map (act_of Q.value) acts.now) self.now.places.items) (Q.value bounds.now.end) index) }
    {
        let done = index as u32;
        match play_on(
            line,
            ground,
            acts,
            &self.places[index + 1..],
            done,
            bounds.end,
        ) {
            Ok(()) => Ok(Tried::Valid),
            Err(stop) => refused(stop),
        }
    }

    // Plays the acts without one of them, from the timeline behind those before it.
    fn try_without(
        &self,
        alloc: Global,
        ground: &Ground<Q>,
        acts: &[TimedAction<Q>],
        bounds: &Bounds<Q>,
        index: usize,
    ) -> Result<Tried, AllocError>
        requires fit { AllFit (problem_of Q.value ground.now).atoms (problem_of Q.value ground.now).fluents (map (act_of Q.value) acts.now) }
        requires marked { AreMarked Q.fits (problem_of Q.value ground.now) bounds.now.happenings (map (act_of Q.value) acts.now) (Q.value bounds.now.end) self.now.places.items self.now.marks.items }
        requires place { index < length self.now.places.items }
        requires mark { index < length self.now.marks.items }
        ensures tried { IfOk result (TriedIs Q.fits (problem_of Q.value ground.now) bounds.now.happenings
            (chosen (map (act_of Q.value) acts.now) self.now.places.items) (Q.value bounds.now.end) index) }
    {
        let mut line = self.marks[index].copy(alloc)?;
        let tried = self.play_behind(&mut line, ground, acts, bounds, index);
        drop(line);
        tried
    }

    // Does one act more on a timeline that stands behind so many of those that are kept.
    fn go_on(
        &self,
        line: &mut Indexed<Q>,
        ground: &Ground<Q>,
        acts: &[TimedAction<Q>],
        bounds: &Bounds<Q>,
        done: usize,
    ) -> Result<(), AllocError>
        requires fit { AllFit (problem_of Q.value ground.now).atoms (problem_of Q.value ground.now).fluents (map (act_of Q.value) acts.now) }
        requires work { IsWork Q.fits (problem_of Q.value ground.now) bounds.now.happenings (map (act_of Q.value) acts.now) (Q.value bounds.now.end) self.now.places.items self.now.marks.items }
        requires place { done < length self.now.places.items }
        requires mark { IsMark Q.fits (problem_of Q.value ground.now) bounds.now.happenings
            (chosen (map (act_of Q.value) acts.now) (take done self.now.places.items)) line.old }
        ensures mark { OnOk result (IsMark Q.fits (problem_of Q.value ground.now) bounds.now.happenings
            (chosen (map (act_of Q.value) acts.now) (take (done + 1) self.now.places.items)) line.new) }
    {
        let place = self.places[done];
        let act = &acts[place as usize];
        let number = done as u32 + 1;
        match act_at(line, ground, act.time, &act.action, number) {
            Ok(()) => Ok(()),
            Err(stop) => Err(wanting(stop)),
        }
    }

    // A timeline that stands behind one act more than the last of those that are kept, from which it is made.
    fn next_mark(
        &self,
        alloc: Global,
        ground: &Ground<Q>,
        acts: &[TimedAction<Q>],
        bounds: &Bounds<Q>,
    ) -> Result<Indexed<Q>, AllocError>
        requires fit { AllFit (problem_of Q.value ground.now).atoms (problem_of Q.value ground.now).fluents (map (act_of Q.value) acts.now) }
        requires work { IsWork Q.fits (problem_of Q.value ground.now) bounds.now.happenings (map (act_of Q.value) acts.now) (Q.value bounds.now.end) self.now.places.items self.now.marks.items }
        requires room { length self.now.marks.items ≤ length self.now.places.items }
        ensures mark { IfOk result (IsMark Q.fits (problem_of Q.value ground.now) bounds.now.happenings
            (chosen (map (act_of Q.value) acts.now) (take (length self.now.marks.items) self.now.places.items))) }
    {
        let last = self.marks.len() - 1;
        let mut line = self.marks[last].copy(alloc)?;
        match self.go_on(&mut line, ground, acts, bounds, last) {
            Ok(()) => Ok(line),
            Err(error) => {
                drop(line);
                Err(error)
            }
        }
    }

    // Sees that a timeline stands right behind the first so many acts, where one stands behind one fewer.
    fn mark(
        &mut self,
        alloc: Global,
        ground: &Ground<Q>,
        acts: &[TimedAction<Q>],
        bounds: &Bounds<Q>,
        index: usize,
    ) -> Result<(), AllocError>
        requires fit { AllFit (problem_of Q.value ground.now).atoms (problem_of Q.value ground.now).fluents (map (act_of Q.value) acts.now) }
        requires work { IsWork Q.fits (problem_of Q.value ground.now) bounds.now.happenings (map (act_of Q.value) acts.now) (Q.value bounds.now.end) self.old.places.items self.old.marks.items }
        requires place { index < length self.old.places.items }
        requires marks { index ≤ length self.old.marks.items }
        ensures work { OnOk result (IsWork Q.fits (problem_of Q.value ground.now) bounds.now.happenings (map (act_of Q.value) acts.now) (Q.value bounds.now.end) self.new.places.items self.new.marks.items) }
        ensures places { OnOk result (self.new.places.items ≡ self.old.places.items) }
        ensures marks { OnOk result (index < length self.new.marks.items) }
    {
        if index < self.marks.len() {
            return Ok(());
        }
        let line = self.next_mark(alloc, ground, acts, bounds)?;
        self.marks.push(line)?;
        Ok(())
    }

    // Tries one act, where a timeline stands behind those before it, or behind one fewer.
    fn try_at(
        &mut self,
        alloc: Global,
        ground: &Ground<Q>,
        acts: &[TimedAction<Q>],
        bounds: &Bounds<Q>,
        index: usize,
    ) -> Result<Tried, AllocError>
        requires fit { AllFit (problem_of Q.value ground.now).atoms (problem_of Q.value ground.now).fluents (map (act_of Q.value) acts.now) }
        requires work { IsWork Q.fits (problem_of Q.value ground.now) bounds.now.happenings (map (act_of Q.value) acts.now) (Q.value bounds.now.end) self.old.places.items self.old.marks.items }
        requires place { index < length self.old.places.items }
        requires marks { index ≤ length self.old.marks.items }
        ensures work { OnOk result (IsWork Q.fits (problem_of Q.value ground.now) bounds.now.happenings (map (act_of Q.value) acts.now) (Q.value bounds.now.end) self.new.places.items self.new.marks.items) }
        ensures places { OnOk result (self.new.places.items ≡ self.old.places.items) }
        ensures marks { OnOk result (index < length self.new.marks.items) }
        ensures tried { IfOk result (TriedIs Q.fits (problem_of Q.value ground.now) bounds.now.happenings
            (chosen (map (act_of Q.value) acts.now) self.old.places.items) (Q.value bounds.now.end) index) }
    {
        self.mark(alloc, ground, acts, bounds, index)?;
        self.try_without(alloc, ground, acts, bounds, index)
    }

    // Leaves out an act that can go. The timelines up to that act stay, and those behind it are forgotten.
    fn leave_out(&mut self, index: usize)
        requires place { index < length self.old.places.items }
        ensures places { self.new.places.items ≡ without index self.old.places.items }
        ensures marks { self.new.marks.items ≡ take (index + 1) self.old.marks.items }
    {
        self.places.remove(index);
        self.marks.truncate(index + 1);
    }

    /// Tries the acts from the first, until one can go, which is left out. Where none can: in how many cases
    /// a limit stands.
    pub fn round(
        &mut self,
        alloc: Global,
        ground: &Ground<Q>,
        acts: &[TimedAction<Q>],
        bounds: &Bounds<Q>,
    ) -> Result<Option<u64>, AllocError>
        requires fit { AllFit (problem_of Q.value ground.now).atoms (problem_of Q.value ground.now).fluents (map (act_of Q.value) acts.now) }
        requires work { IsWork Q.fits (problem_of Q.value ground.now) bounds.now.happenings (map (act_of Q.value) acts.now) (Q.value bounds.now.end) self.old.places.items self.old.marks.items }
        ensures round { IfOk result (RoundIs Q.fits (problem_of Q.value ground.now) bounds.now.happenings (map (act_of Q.value) acts.now) (Q.value bounds.now.end)
            self.old.places.items self.new.places.items self.new.marks.items) }
    {
        let mut beyond = 0u64;
        'each: for index in 0..self.places.len() {
            let tried = self.try_at(alloc, ground, acts, bounds, index)?;
            match counted(tried, beyond) {
                None => {
                    self.leave_out(index);
                    return Ok(None);
                }
                Some(after) => beyond = after,
            }
        }
        Ok(Some(beyond))
    }
}
