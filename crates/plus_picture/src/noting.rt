//! What happens while a plan is played, as it is noted for its picture. To a sink nothing is told.

ghost use Rattle.std.specs.Prelude.{ℕ, List};
ghost use Rattle.plus_validator.specs.Told.{silence, nothing_behind};
ghost use Rattle.plus_picture.specs.Noting.{noted_told};

use crate::collector::Collector;
use plus_indexed::Indexed;
use plus_io::{Failed, Sink};
use plus_number::frac::Frac64;
use plus_state::{Ground, Label};
use plus_timeline::Next;
use plus_validator::teller::Teller;
use std::alloc::AllocError;

impl Teller for Collector<'_, '_, '_> {
    ghost Told = { List ℕ };

    // what was handed on, which is nothing
    ghost told = { noted_told };

    ghost telling = { λ N P. silence P };

    ghost Kept = { Unit {0} };

    ghost kept = { λ rows. tt };

    ghost IsNew = { λ rows. Unit {0} };

    fn begin(
        &mut self,
        _ground: &Ground<Frac64>,
        timeline: &Indexed<Frac64>,
    ) -> Result<(), AllocError> {
        self.entered(timeline)
    }

    fn step(
        &mut self,
        _ground: &Ground<Frac64>,
        timeline: &Indexed<Frac64>,
        next: Next<Frac64>,
    ) -> Result<(), AllocError> {
        self.noted(timeline, next)
    }

    fn act(
        &mut self,
        _ground: &Ground<Frac64>,
        timeline: &Indexed<Frac64>,
        label: &Label,
    ) -> Result<(), AllocError> {
        self.acted(timeline, label.bytes())
    }

    fn has_much(&self) -> bool {
        false
    }

    fn hand_on<O: Sink>(&mut self, _out: &mut O) -> Result<(), Failed> {
        Ok(())
    }

    ghost behind = { λ N P sent rows. nothing_behind sent };
}
