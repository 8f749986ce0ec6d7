//! Plays a plan without time, call by call.
ghost use Rattle.std.specs.Prelude.{◌≡◌, [], ◌∷◌, ◌++◌, OnOk, IfOk, IfErr};
ghost use Rattle.plus_number.specs.Frac.{fraction_of};
ghost use Rattle.plus_state.specs.View.{problem_of};
ghost use Rattle.plus_expansion.specs.Expansion.{expanded};
ghost use Rattle.plus_numeric.specs.Level.{beyond_level_two};
ghost use Rattle.plus_numeric.specs.Calls.{call_meant, calls_of};
ghost use Rattle.plus_numeric.specs.Tests.{AllPass};
ghost use Rattle.plus_numeric.specs.Asked.{call_tests, line_tests, end_tests};
ghost use Rattle.plus_numeric.specs.Playing.{domain_in, problem_in, IsPlay, IsBegun, Stays, Keeps, Leads, LeadsCall, HaltsIn, HaltsAt, HaltFits, OrMemory, stop_halt, call_halt};

use crate::halt::Halt;
use crate::source::Source;
use plus_ground::InstanceFault;
use plus_instances::Instances;
use plus_number::frac::Frac64;
use plus_numbering::{MOST_NODES, Numbering};
use plus_plan::Line;
use plus_report::{Early, Kinds, Verdict};
use plus_state::Label;
use plus_state::outcome::{Breach, Limit};
use plus_state::problem::Ground;
use plus_stepped::{Numeric, StepStop};
use plus_tree::Call;
use plus_types::File;
use std::alloc::Global;
use std::mem;

/// A plan without time that is played.
#[derive(Drop)]
pub struct Play<'a> {
    pub instances: Instances<'a>,
    pub numeric: Numeric<Frac64>,
    pub source: Source,
    /// Whether the calls are kept.
    pub keep: bool,
    pub calls: Vec<Call>,
}

// A plan that breaks a rule.
fn broken(breach: Breach<Frac64>) -> Halt
    ensures { result ≡ Halt.Refused (Verdict.Invalid breach) }
{
    Halt::Refused(Verdict::Invalid(breach))
}

// A refused call of a plan without time, by what it says where the condition does not hold.
fn stop_halt(unmet: Breach<Frac64>, stop: StepStop<Frac64>) -> Halt
    ensures { result ≡ stop_halt unmet stop }
{
    match stop {
        StepStop::Precondition => broken(unmet),
        StepStop::Repeats(event) => broken(Breach::Repeats { event }),
        StepStop::Conflict(fluent) => broken(Breach::Conflict { fluent }),
        StepStop::NoValue(fluent) => broken(Breach::NoValue { fluent }),
        StepStop::Number(overflow) => Halt::Refused(Verdict::Beyond(Limit::Number(overflow))),
        StepStop::GoalFails => broken(Breach::Goal),
        StepStop::Memory => Halt::Memory,
    }
}

// The action of a line is not done.
fn undone(alloc: Global, line: u32, label: &Label, stop: StepStop<Frac64>) -> Halt
    ensures { OrMemory (stop_halt (Breach.Precondition line label.now) stop) result }
{
    match Label::new(alloc, label.bytes()) {
        Ok(label) => stop_halt(Breach::Precondition { line, label }, stop),
        Err(_) => Halt::Memory,
    }
}

// A call that names no action, or one whose instance is over a limit.
fn refused_call(alloc: Global, source: Source, line: u32, call: &Call, fault: InstanceFault) -> Halt
    ensures { OrMemory (call_halt source line call.now.name fault) result }
{
    match fault {
        InstanceFault::UnknownAction => match Label::new(alloc, call.name.bytes()) {
            Ok(name) => broken(Breach::UnknownAction { line, name }),
            Err(_) => Halt::Memory,
        },
        InstanceFault::WrongArguments => match Label::new(alloc, call.name.bytes()) {
            Ok(name) => broken(Breach::WrongArguments { line, name }),
            Err(_) => Halt::Memory,
        },
        InstanceFault::TooManyNodes => Halt::Refused(Verdict::Other(Early::TooMany {
            kind: Kinds::Nodes,
            most: MOST_NODES,
        })),
        InstanceFault::Literal { span } => Halt::Refused(Verdict::Other(Early::Literal {
            text: source.text(File::Domain),
            start: span.start,
            end: span.end,
        })),
        InstanceFault::Memory => Halt::Memory,
    }
}

impl<'a> Play<'a> {
    /// A play in the initial state of a pair.
    pub fn begin(
        alloc: Global,
        numbering: &'a Numbering<'a>,
        ground: &Ground<Frac64>,
        source: Source,
        keep: bool,
    ) -> Result<Play<'a>, Halt>
        requires level_two { beyond_level_two numbering.now.typed.now.domain numbering.now.typed.now.problem ≡ [] }
        requires expands { problem_of fraction_of ground.now ≡ expanded numbering.now.typed.now.domain numbering.now.typed.now.problem }
        ensures begins { IfOk result (λ play. IsBegun numbering.now source keep play) }
        ensures memory { IfErr result (λ halt. halt ≡ Halt.Memory) }
    {
        Ok(Play {
            instances: Instances::new(alloc, numbering),
            numeric: Numeric::begin(alloc, ground)?,
            source,
            keep,
            calls: Vec::new(alloc),
        })
    }

    // Does the action that a line calls.
    fn call(&mut self, alloc: Global, line: u32, call: &Call) -> Result<(), Halt>
        requires { IsPlay self.old }
        ensures leads { OnOk result (LeadsCall (domain_in self.old) (problem_in self.old) line call.now self.old.numeric self.new.numeric) }
        ensures halts { IfErr result (HaltsAt self.old.source
            (call_tests (domain_in self.old) line call.now.name (call_meant (domain_in self.old) (problem_in self.old) call.now) self.old.numeric)) }
        ensures fits { IfErr result (HaltFits (domain_in self.old) (problem_in self.old)) }
        ensures stays { Stays self.old self.new }
        ensures calls { self.new.calls ≡ self.old.calls }
    {
        let place = match self.instances.place(alloc, call) {
            Ok(place) => place,
            Err(fault) => return Err(refused_call(alloc, self.source, line, call, fault)),
        };
        let action = self.instances.at(place);
        match self.numeric.step(action) {
            Ok(()) => Ok(()),
            Err(stop) => Err(undone(alloc, line, &action.label, stop)),
        }
    }

    // Does what a line calls.
    fn does(&mut self, alloc: Global, read: &Line) -> Result<(), Halt>
        requires { IsPlay self.old }
        ensures leads { OnOk result (Leads (line_tests (domain_in self.old) (problem_in self.old) read.now self.old.numeric) self.new.numeric) }
        ensures halts { IfErr result (HaltsIn self.old.source (line_tests (domain_in self.old) (problem_in self.old) read.now self.old.numeric)) }
        ensures fits { IfErr result (HaltFits (domain_in self.old) (problem_in self.old)) }
        ensures stays { Stays self.old self.new }
        ensures calls { self.new.calls ≡ self.old.calls }
    {
        match read {
            Line::Step { line, call } => self.call(alloc, *line, call),
            _ => Ok(()),
        }
    }

    // Keeps the call of a line.
    fn keep_call(&mut self, read: Line) -> Result<(), Halt>
        requires { IsPlay self.old }
        ensures kept { OnOk result (self.new.calls.items ≡ self.old.calls.items ++ calls_of (read ∷ [])) }
        ensures memory { IfErr result (λ halt. halt ≡ Halt.Memory) }
        ensures stays { Stays self.old self.new }
        ensures numeric { self.new.numeric ≡ self.old.numeric }
    {
        match read {
            Line::Step { call, .. } => {
                self.calls.push(call)?;
                Ok(())
            }
            _ => Ok(()),
        }
    }

    // Keeps the call of a line, where calls are to be kept.
    fn keep_line(&mut self, read: &mut Line) -> Result<(), Halt>
        requires { IsPlay self.old }
        ensures kept { OnOk result (Keeps (read.old ∷ []) self.old self.new) }
        ensures memory { IfErr result (λ halt. halt ≡ Halt.Memory) }
        ensures stays { Stays self.old self.new }
        ensures numeric { self.new.numeric ≡ self.old.numeric }
    {
        if self.keep {
            return self.keep_call(mem::replace(read, Line::Blank));
        }
        Ok(())
    }

    /// Plays one line. Its call is taken out of it, where calls are to be kept.
    pub fn line(&mut self, alloc: Global, read: &mut Line) -> Result<(), Halt>
        requires { IsPlay self.old }
        ensures keeps { OnOk result (Keeps (read.old ∷ []) self.old self.new) }
        ensures leads { OnOk result (Leads (line_tests (domain_in self.old) (problem_in self.old) read.old self.old.numeric) self.new.numeric) }
        ensures halts { IfErr result (HaltsIn self.old.source (line_tests (domain_in self.old) (problem_in self.old) read.old self.old.numeric)) }
        ensures fits { IfErr result (HaltFits (domain_in self.old) (problem_in self.old)) }
        ensures stays { Stays self.old self.new }
    {
        match self.does(alloc, read) {
            Ok(()) => self.keep_line(read),
            Err(halt) => Err(halt),
        }
    }

    /// Hands out the calls that are kept.
    pub fn take_calls(&mut self, alloc: Global) -> Vec<Call>
        ensures { result ≡ self.old.calls }
    {
        mem::replace(&mut self.calls, Vec::new(alloc))
    }

    /// Asks for the goal.
    pub fn finish(&self, ground: &Ground<Frac64>) -> Result<(), Halt>
        requires going { IsPlay self.now }
        requires expands { problem_of fraction_of ground.now ≡ expanded (domain_in self.now) (problem_in self.now) }
        ensures passes { OnOk result (AllPass (end_tests (domain_in self.now) (problem_in self.now) self.now.numeric)) }
        ensures halts { IfErr result (HaltsAt self.now.source (end_tests (domain_in self.now) (problem_in self.now) self.now.numeric)) }
        ensures fits { IfErr result (HaltFits (domain_in self.now) (problem_in self.now)) }
    {
        match self.numeric.goal(ground) {
            Ok(()) => Ok(()),
            Err(stop) => Err(stop_halt(Breach::Goal, stop)),
        }
    }
}
