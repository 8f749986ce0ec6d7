//! A plan without time, as one who plays lines.
ghost use Rattle.std.specs.Prelude.{◌≡◌};
ghost use Rattle.plus_tree.specs.declared.trees.Domain.{Domain};
ghost use Rattle.plus_tree.specs.declared.trees.Problem.{Problem};
ghost use Rattle.plus_numeric.specs.Playing.{HaltFits, fault_halt};
ghost use Rattle.plus_numeric.specs.PlayRules.{play_rules};

use crate::halt::Halt;
use crate::play::Play;
use plus_number::frac::Frac64;
use plus_plan::{Line, PlanFault};
use plus_play::Plays;
use plus_report::{Early, Text, Verdict};
use plus_state::problem::Ground;
use std::alloc::Global;

/// A plan that is played over a ground problem.
#[derive(Drop)]
pub struct Playing<'a> {
    pub play: Play<'a>,
    pub ground: &'a Ground<Frac64>,
}

// A line that is none.
fn fault_halt(fault: PlanFault) -> Halt
    ensures says { result ≡ fault_halt fault }
    ensures fits { (d : Domain) (p : Problem) → HaltFits d p result }
{
    match fault {
        PlanFault::NotLine { line, start, end } => {
            Halt::Refused(Verdict::Other(Early::BadLine { line, start, end }))
        }
        PlanFault::LineTooLong { line } => {
            Halt::Refused(Verdict::Other(Early::LineTooLong { line }))
        }
        PlanFault::Memory => Halt::Memory,
    }
}

impl<'a, O> Plays<O> for Playing<'a> {
    type Stop = Halt;

    ghost rules = { play_rules };

    fn line(&mut self, alloc: Global, read: &mut Line, _out: &mut O) -> Result<(), Halt> {
        self.play.line(alloc, read)
    }

    fn end(&mut self, _alloc: Global, _out: &mut O) -> Result<(), Halt> {
        self.play.finish(self.ground)
    }

    fn hand_on(&mut self, _out: &mut O) -> Result<(), Halt> {
        Ok(())
    }

    fn no_line(&self, fault: PlanFault, _out: &O) -> Halt {
        fault_halt(fault)
    }

    fn too_long(&self, _out: &O) -> Halt {
        Halt::Refused(Verdict::Other(Early::TooLong { text: Text::Plan }))
    }
}
