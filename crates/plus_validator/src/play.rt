//! Plays the lines of a plan.
ghost use Rattle.std.specs.Prelude.{◌≡◌, ℕ, ◌<◌, ◌≤◌, List, None, OnOk, IfOk, IfErr};
ghost use Rattle.plus_number.specs.Frac.{fraction_of};
ghost use Rattle.plus_model.specs.Terms.{Problem};
ghost use Rattle.plus_model.specs.Trajectory.{is_below};
ghost use Rattle.plus_plan.specs.Answers.{HasBottom};
ghost use Rattle.plus_state.specs.View.{Labels, problem_of, labels_of};
ghost use Rattle.plus_timeline.specs.Finish.{IsPaused};
ghost use Rattle.plus_validator.specs.Account.{progress};
ghost use Rattle.plus_validator.specs.Handing.{HandsOn, left};
ghost use Rattle.plus_validator.specs.Plans.{pair_in};
ghost use Rattle.plus_instances.specs.Made.{AreMade, StayMade};
ghost use Rattle.plus_validator.specs.Halts.{CallHalts, HaltFits, HasCause};
ghost use Rattle.plus_validator.specs.Standing.{CanGoOn};
ghost use Rattle.plus_validator.specs.Stopped.{HaltsAtMoment, HaltsInAct, HaltsInLine, HaltsAtEnd};
ghost use Rattle.plus_validator.specs.Playing.{IsGroundOf, IsInTime, ActsOnce, PlaysLine, Closes};

use crate::halt::{Halt, halted};
use crate::run::Run;
use crate::teller::Teller;
use plus_ground::InstanceFault;
use plus_instances::Instances;
use plus_io::Sink;
use plus_number::exact::Exact;
use plus_number::frac::Frac64;
use plus_numbering::MOST_NODES;
use plus_plan::{Line, Time, time_value};
use plus_report::{Early, Kinds, Text, Verdict};
use plus_state::Label;
use plus_state::outcome::Breach;
use plus_state::problem::Ground;
use plus_tree::Call;
use std::alloc::Global;
use std::cmp::Ordering;

fn is_earlier(time: Frac64, other: Frac64) -> bool
    ensures { result ≡ is_below (fraction_of time) (fraction_of other) }
{
    match time.order(other) {
        Ordering::Less => true,
        Ordering::Equal => false,
        Ordering::Greater => false,
    }
}

// A plan that breaks a rule.
fn broken(breach: Breach<Frac64>) -> Halt
    ensures { result ≡ Halt.Refused (Verdict.Invalid breach) }
{
    Halt::Refused(Verdict::Invalid(breach))
}

// Why an action cannot be called, or its instance is over a limit.
fn refused_call(alloc: Global, fault: InstanceFault, line: u32, call: &Call) -> Halt
    ensures says { CallHalts fault line call.now.name result }
    ensures fits { (P : Problem) → HaltFits P result }
{
    match fault {
        InstanceFault::UnknownAction => match Label::new(alloc, call.name.bytes()) {
            Ok(name) => broken(Breach::UnknownAction { line, name }),
            Err(_) => Halt::Memory,
        },
        InstanceFault::WrongArguments => match Label::new(alloc, call.name.bytes()) {
            Ok(name) => broken(Breach::WrongArguments { line, name }),
            Err(_) => Halt::Memory,
        },
        InstanceFault::TooManyNodes => Halt::Refused(Verdict::Other(Early::TooMany {
            kind: Kinds::Nodes,
            most: MOST_NODES,
        })),
        InstanceFault::Literal { span } => Halt::Refused(Verdict::Other(Early::Literal {
            text: Text::Domain,
            start: span.start,
            end: span.end,
        })),
        InstanceFault::Memory => Halt::Memory,
    }
}

impl<T: Teller> Run<T> {
    // Whether a time is below the present one.
    fn is_past(&self, at: Frac64) -> bool
        ensures { result ≡ is_below (fraction_of at) (self.now.timeline.line.now.time) }
    {
        is_earlier(at, self.timeline.time())
    }

    /// The time of a line, which may be played now.
    #[tactic(auto, using(crate::proofs::Shown::in_time))]
    #[inline(always)]
    fn moment(&self, line: u32, time: &Time) -> Result<Frac64, Halt>
        requires { 0 < time.now.bottom }
        ensures ok { IfOk result (IsInTime self.now.ended self.now.timeline.line.now.time time.now) }
        ensures stops { (N : Labels) (P : Problem) (sent : List ℕ) → IfErr result (HaltsAtMoment P (T.telling N P) line time.now (progress T.told sent self.now)) }
        ensures fits { IfErr result (λ halt. (P : Problem) → HaltFits P halt) }
    {
        if self.ended {
            return Err(broken(Breach::AfterEnd { line }));
        }
        match time_value(time) {
            Ok(at) => {
                if self.is_past(at) {
                    return Err(broken(Breach::TimeGoesBack { line }));
                }
                Ok(at)
            }
            Err(_) => Err(Halt::Refused(Verdict::Other(Early::Literal {
                text: Text::Plan,
                start: time.span.start,
                end: time.span.end,
            }))),
        }
    }

    /// Does the action that a line calls.
    fn act(
        &mut self,
        alloc: Global,
        instances: &mut Instances<'_>,
        ground: &Ground<Frac64>,
        line: u32,
        call: &Call,
    ) -> Result<(), Halt>
        requires expands { IsGroundOf instances.old.numbering.now.typed.now.domain instances.old.numbering.now.typed.now.problem ground.now }
        requires kept { AreMade instances.old }
        requires can { CanGoOn (problem_of fraction_of ground.now) self.old.timeline }
        requires paused { IsPaused self.old.timeline.line }
        ensures acts { (sent : List ℕ) → OnOk result (ActsOnce (pair_in instances.old.numbering.now.typed.now) (problem_of fraction_of ground.now)
            (T.telling (labels_of ground.now) (problem_of fraction_of ground.now)) call.now (progress T.told sent self.old) (progress T.told sent self.new)) }
        ensures stops { (sent : List ℕ) → IfErr result (HaltsInAct (pair_in instances.old.numbering.now.typed.now) (problem_of fraction_of ground.now)
            (T.telling (labels_of ground.now) (problem_of fraction_of ground.now)) line call.now (progress T.told sent self.old) (left T.told sent self.new)) }
        ensures kept { StayMade instances.old instances.new }
        ensures fits { IfErr result (HaltFits (problem_of fraction_of ground.now)) }
        ensures keeps { T.kept self.new.teller ≡ T.kept self.old.teller }
    {
        let place = match instances.place(alloc, call) {
            Ok(place) => place,
            Err(fault) => return Err(refused_call(alloc, fault, line, call)),
        };
        let action = instances.at(place);
        if let Err(stop) = self.timeline.act(ground, action, line) {
            return Err(halted(stop));
        }
        self.teller.act(ground, &self.timeline, &action.label)?;
        Ok(())
    }

    /// Plays one line of the text.
    pub fn line<O: Sink>(
        &mut self,
        alloc: Global,
        instances: &mut Instances<'_>,
        ground: &Ground<Frac64>,
        read: &Line,
        out: &mut O,
    ) -> Result<(), Halt>
        requires expands { IsGroundOf instances.old.numbering.now.typed.now.domain instances.old.numbering.now.typed.now.problem ground.now }
        requires kept { AreMade instances.old }
        requires can { CanGoOn (problem_of fraction_of ground.now) self.old.timeline }
        requires moment { self.old.timeline.line.now.running ≡ None }
        requires bottom { HasBottom read.now }
        ensures plays { OnOk result (HandsOn (progress T.told) (progress T.told) (PlaysLine (pair_in instances.old.numbering.now.typed.now) (problem_of fraction_of ground.now)
            (T.telling (labels_of ground.now) (problem_of fraction_of ground.now)) read.now) self.old self.new (O.taken out.old) (O.taken out.new)) }
        ensures stops { IfErr result (λ halt. HandsOn (progress T.told) (left T.told) (λ old new. HaltsInLine (pair_in instances.old.numbering.now.typed.now) (problem_of fraction_of ground.now)
            (T.telling (labels_of ground.now) (problem_of fraction_of ground.now)) read.now old new halt) self.old self.new (O.taken out.old) (O.taken out.new)) }
        ensures kept { StayMade instances.old instances.new }
        ensures cause { IfErr result (HasCause (problem_of fraction_of ground.now) (O.faults out.old) (O.faults out.new)) }
        ensures no_fall { O.faults out.old ≤ O.faults out.new }
        ensures keeps { T.kept self.new.teller ≡ T.kept self.old.teller }
    {
        match read {
            Line::Act { line, time, call } => {
                let until = self.moment(*line, time)?;
                self.reach(ground, until, out)?;
                self.act(alloc, instances, ground, *line, call)?;
                let now = self.timeline.time();
                self.reach(ground, now, out)
            }
            Line::End { line, time } => {
                let until = self.moment(*line, time)?;
                self.reach(ground, until, out)?;
                self.ended = true;
                Ok(())
            }
            Line::Blank | Line::Step { .. } => Ok(()),
        }
    }

    /// Plays on at the end of the text.
    pub fn close<O: Sink>(&mut self, ground: &Ground<Frac64>, out: &mut O) -> Result<(), Halt>
        requires can { CanGoOn (problem_of fraction_of ground.now) self.old.timeline }
        requires moment { self.old.timeline.line.now.running ≡ None }
        ensures closes { OnOk result (HandsOn (progress T.told) (progress T.told) (Closes (problem_of fraction_of ground.now) (T.telling (labels_of ground.now) (problem_of fraction_of ground.now)))
            self.old self.new (O.taken out.old) (O.taken out.new)) }
        ensures stops { IfErr result (λ halt. HandsOn (progress T.told) (left T.told) (λ old new. HaltsAtEnd (problem_of fraction_of ground.now)
            (T.telling (labels_of ground.now) (problem_of fraction_of ground.now)) old new halt) self.old self.new (O.taken out.old) (O.taken out.new)) }
        ensures cause { IfErr result (HasCause (problem_of fraction_of ground.now) (O.faults out.old) (O.faults out.new)) }
        ensures no_fall { O.faults out.old ≤ O.faults out.new }
        ensures keeps { T.kept self.new.teller ≡ T.kept self.old.teller }
    {
        let now = self.timeline.time();
        self.reach(ground, now, out)?;
        match self.timeline.finish(ground) {
            Ok(()) => Ok(()),
            Err(stop) => Err(halted(stop)),
        }
    }
}
