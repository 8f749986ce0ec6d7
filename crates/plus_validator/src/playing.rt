//! A plan that is played over a ground problem while what happens is told, as one who plays lines.
ghost use Rattle.plus_validator.specs.PlayRules.{play_rules};

use crate::halt::{Halt, fault_halt};
use crate::run::Run;
use crate::teller::Teller;
use plus_instances::Instances;
use plus_io::Sink;
use plus_number::frac::Frac64;
use plus_plan::{Line, PlanFault};
use plus_play::Plays;
use plus_report::{Early, Text, Verdict};
use plus_state::problem::Ground;
use std::alloc::Global;

/// A plan that is played over a ground problem.
#[derive(Drop)]
pub struct Playing<'n, 'g, T> {
    pub run: Run<T>,
    pub instances: Instances<'n>,
    pub ground: &'g Ground<Frac64>,
}

impl<O: Sink, T: Teller> Plays<O> for Playing<'_, '_, T> {
    type Stop = Halt;

    ghost rules = { play_rules T.told T.telling T.kept O.taken O.faults };

    fn line(&mut self, alloc: Global, read: &mut Line, out: &mut O) -> Result<(), Halt> {
        self.run
            .line(alloc, &mut self.instances, self.ground, read, out)
    }

    fn end(&mut self, _alloc: Global, out: &mut O) -> Result<(), Halt> {
        self.run.close(self.ground, out)
    }

    fn hand_on(&mut self, out: &mut O) -> Result<(), Halt> {
        match self.run.flush(out) {
            Ok(()) => Ok(()),
            Err(_) => Err(Halt::WriteFault),
        }
    }

    fn no_line(&self, fault: PlanFault, _out: &O) -> Halt {
        fault_halt(fault)
    }

    fn too_long(&self, _out: &O) -> Halt {
        Halt::Refused(Verdict::Other(Early::TooLong { text: Text::Plan }))
    }
}
