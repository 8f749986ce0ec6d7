//! One who tells nothing, for whoever wants the verdict alone.
ghost use Rattle.std.specs.Prelude.{ℕ, List};
ghost use Rattle.plus_validator.specs.Told.{silence, silent_told, nothing_behind};

use crate::teller::Teller;
use plus_indexed::Indexed;
use plus_io::{Failed, Sink};
use plus_number::frac::Frac64;
use plus_state::Label;
use plus_state::problem::Ground;
use plus_timeline::Next;
use std::alloc::AllocError;

/// One who tells nothing.
#[derive(Drop)]
pub struct Silent;

impl Teller for Silent {
    ghost Told = { List ℕ };

    // what was handed on, which is nothing
    ghost told = { silent_told };

    ghost telling = { λ N P. silence P };

    ghost Kept = { Unit {0} };

    ghost kept = { λ s. tt };

    ghost IsNew = { λ s. Unit {0} };

    fn begin(
        &mut self,
        _ground: &Ground<Frac64>,
        _timeline: &Indexed<Frac64>,
    ) -> Result<(), AllocError> {
        Ok(())
    }

    fn step(
        &mut self,
        _ground: &Ground<Frac64>,
        _timeline: &Indexed<Frac64>,
        _next: Next<Frac64>,
    ) -> Result<(), AllocError> {
        Ok(())
    }

    fn act(
        &mut self,
        _ground: &Ground<Frac64>,
        _timeline: &Indexed<Frac64>,
        _label: &Label,
    ) -> Result<(), AllocError> {
        Ok(())
    }

    fn has_much(&self) -> bool {
        false
    }

    fn hand_on<O: Sink>(&mut self, _out: &mut O) -> Result<(), Failed> {
        Ok(())
    }

    ghost behind = { λ N P sent s. nothing_behind sent };
}
