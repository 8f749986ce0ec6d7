//! A plan that is played while what happens is told.
ghost use Rattle.std.specs.Prelude.{◌≡◌, ℕ, ◌≤◌, ◌+◌, List, [], OnOk, OnErr, IfOk, IfErr};
ghost use Rattle.plus_io.specs.Faults.{Rose};
ghost use Rattle.plus_number.specs.Frac.{fraction_of};
ghost use Rattle.plus_state.specs.View.{problem_of, labels_of};
ghost use Rattle.plus_validator.specs.Account.{progress};
ghost use Rattle.plus_validator.specs.Handing.{HandsOn, StaysSo, left, IsAllOut, RunBreaksOff};
ghost use Rattle.plus_validator.specs.Running.{Steps, Reaches};
ghost use Rattle.plus_validator.specs.Halts.{HaltFits, HasCause};
ghost use Rattle.plus_validator.specs.Stopped.{HaltsOnWay};
ghost use Rattle.plus_validator.specs.Playing.{Begins};
ghost use Rattle.plus_validator.specs.Standing.{CanReach, entries_in, firings_in, is_there};

use crate::halt::{Halt, halted};
use crate::teller::Teller;
use plus_indexed::Indexed;
use plus_io::{Failed, Sink};
use plus_number::frac::Frac64;
use plus_state::problem::Ground;
use plus_timeline::Next;
use std::alloc::{AllocError, Global};

/// A plan that is played, and who tells what happens.
#[derive(Drop)]
pub struct Run<T> {
    pub timeline: Indexed<Frac64>,
    pub teller: T,
    /// How many moments are entered.
    pub entries: u64,
    /// How many events fired.
    pub firings: u64,
    /// Whether the end of the plan was read.
    pub ended: bool,
}

fn is_there(next: Next<Frac64>) -> bool
    ensures { result ≡ is_there next }
{
    matches!(next, Next::There)
}

// One count and more. A count that is too large is want of memory.
fn counted(count: u64, more: u64) -> Result<u64, AllocError>
    ensures { IfOk result (λ sum. sum ≡ count + more) }
{
    match count.checked_add(more) {
        Some(sum) => Ok(sum),
        None => Err(AllocError),
    }
}

impl<T: Teller> Run<T> {
    /// Begins a run: the first entry, at time 0.
    pub fn begin(
        alloc: Global,
        ground: &Ground<Frac64>,
        mut teller: T,
        happenings: u64,
    ) -> Result<Run<T>, Halt>
        requires new { T.IsNew teller }
        requires some { 1 ≤ happenings }
        ensures begins { IfOk result (λ run. Begins (problem_of fraction_of ground.now) (T.telling (labels_of ground.now) (problem_of fraction_of ground.now)) happenings
            (progress T.told [] run)) }
        ensures memory { IfErr result (λ halt. halt ≡ Halt.Memory) }
        ensures keeps { IfOk result (λ run. T.kept run.teller ≡ T.kept teller) }
    {
        let timeline = Indexed::begin(alloc, ground, happenings)?;
        teller.begin(ground, &timeline)?;
        Ok(Run {
            timeline,
            teller,
            entries: 1,
            firings: 0,
            ended: false,
        })
    }

    // Counts what the timeline did.
    fn count(&mut self, next: Next<Frac64>) -> Result<(), AllocError>
        ensures counts { OnOk result (self.new ≡ record (self.old) {
          entries = self.old.entries + entries_in next;
          firings = self.old.firings + firings_in self.old.timeline.line next;
        }) }
        ensures same { self.new.teller ≡ self.old.teller }
    {
        match next {
            Next::Round => {
                self.firings = counted(self.firings, self.timeline.events().len() as u64)?;
            }
            Next::Entry { .. } => self.entries = counted(self.entries, 1)?,
            Next::Run | Next::There => {}
        }
        Ok(())
    }

    /// Takes one step toward a time, and says whether the time is reached and nothing is due.
    #[inline(always)]
    fn step(&mut self, ground: &Ground<Frac64>, until: Frac64) -> Result<bool, Halt>
        requires can { CanReach (problem_of fraction_of ground.now) (fraction_of until) self.old.timeline }
        ensures steps { (sent : List ℕ) → IfOk result (Steps (problem_of fraction_of ground.now) (T.telling (labels_of ground.now) (problem_of fraction_of ground.now))
            (fraction_of until) (progress T.told sent self.old) (progress T.told sent self.new)) }
        ensures stops { (sent : List ℕ) → IfErr result (HaltsOnWay (problem_of fraction_of ground.now) (T.telling (labels_of ground.now) (problem_of fraction_of ground.now))
            (fraction_of until) (progress T.told sent self.old) (left T.told sent self.new)) }
        ensures fits { IfErr result (HaltFits (problem_of fraction_of ground.now)) }
        ensures keeps { T.kept self.new.teller ≡ T.kept self.old.teller }
    {
        let next = match self.timeline.advance(ground, until) {
            Ok(next) => next,
            Err(stop) => return Err(halted(stop)),
        };
        self.teller.step(ground, &self.timeline, next)?;
        self.count(next)?;
        Ok(is_there(next))
    }

    /// Plays on up to a time, until nothing is due there.
    #[inline(always)]
    pub fn reach<O: Sink>(
        &mut self,
        ground: &Ground<Frac64>,
        until: Frac64,
        out: &mut O,
    ) -> Result<(), Halt>
        requires can { CanReach (problem_of fraction_of ground.now) (fraction_of until) self.old.timeline }
        ensures reaches { OnOk result (HandsOn (progress T.told) (progress T.told) (Reaches (problem_of fraction_of ground.now) (T.telling (labels_of ground.now) (problem_of fraction_of ground.now))
            (fraction_of until)) self.old self.new (O.taken out.old) (O.taken out.new)) }
        ensures stops { IfErr result (λ halt. HandsOn (progress T.told) (left T.told) (λ old new. HaltsOnWay (problem_of fraction_of ground.now) (T.telling (labels_of ground.now) (problem_of fraction_of ground.now))
            (fraction_of until) old new halt) self.old self.new (O.taken out.old) (O.taken out.new)) }
        ensures cause { IfErr result (HasCause (problem_of fraction_of ground.now) (O.faults out.old) (O.faults out.new)) }
        ensures no_fall { O.faults out.old ≤ O.faults out.new }
        ensures keeps { T.kept self.new.teller ≡ T.kept self.old.teller }
    {
        'steps: loop {
            let there = self.step(ground, until)?;
            let Ok(()) = self.flush_much(out) else {
                return Err(Halt::WriteFault);
            };
            if there {
                return Ok(());
            }
        }
    }

    // Hands on what is told, where much of it waits.
    fn flush_much<O: Sink>(&mut self, out: &mut O) -> Result<(), Failed>
        ensures goes { OnOk result (StaysSo (progress T.told) self.old self.new (O.taken out.old) (O.taken out.new)) }
        ensures breaks { OnErr result (RunBreaksOff T.told T.telling self.old self.new (O.taken out.old) (O.taken out.new)) }
        ensures cause { OnErr result (Rose (O.faults out.old) (O.faults out.new)) }
        ensures no_fall { O.faults out.old ≤ O.faults out.new }
        ensures keeps { T.kept self.new.teller ≡ T.kept self.old.teller }
    {
        if self.teller.has_much() {
            return self.flush(out);
        }
        Ok(())
    }

    /// Hands on what is told.
    pub fn flush<O: Sink>(&mut self, out: &mut O) -> Result<(), Failed>
        ensures goes { OnOk result (StaysSo (progress T.told) self.old self.new (O.taken out.old) (O.taken out.new)) }
        ensures all { OnOk result (IsAllOut T.told T.telling self.new.teller) }
        ensures breaks { OnErr result (RunBreaksOff T.told T.telling self.old self.new (O.taken out.old) (O.taken out.new)) }
        ensures cause { OnErr result (Rose (O.faults out.old) (O.faults out.new)) }
        ensures no_fall { O.faults out.old ≤ O.faults out.new }
        ensures keeps { T.kept self.new.teller ≡ T.kept self.old.teller }
    {
        self.teller.hand_on(out)
    }
}
