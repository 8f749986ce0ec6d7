//! One who watches constraints, as one who tells what happens.
ghost use Rattle.plus_validator.specs.Told.{nothing_behind};
ghost use Rattle.plus_watching.specs.Watching.{Seen, watching, watched_told, watched_kept, HasNoLook};

use plus_indexed::Indexed;
use plus_io::{Failed, Sink};
use plus_number::frac::Frac64;
use plus_state::Label;
use plus_state::problem::Ground;
use plus_timeline::Next;
use plus_validator::teller::Teller;
use plus_watcher::watcher::Watcher;
use std::alloc::AllocError;

/// One who watches while a plan is played.
#[derive(Drop)]
pub struct Observer<'w> {
    pub watcher: Watcher<'w>,
}

impl Teller for Observer<'_> {
    ghost use Rattle.plus_watcher.specs.declared.rules.Rules.{Rules};

    ghost Told = { Seen };

    ghost told = { watched_told };

    ghost telling = { watching };

    ghost Kept = { Rules };

    ghost kept = { watched_kept };

    ghost IsNew = { HasNoLook };

    fn begin(
        &mut self,
        _ground: &Ground<Frac64>,
        timeline: &Indexed<Frac64>,
    ) -> Result<(), AllocError> {
        self.watcher.first(timeline)
    }

    fn step(
        &mut self,
        _ground: &Ground<Frac64>,
        timeline: &Indexed<Frac64>,
        next: Next<Frac64>,
    ) -> Result<(), AllocError> {
        match next {
            Next::Round => self.watcher.after(timeline.state()),
            Next::Entry { .. } => self.watcher.enter(timeline),
            Next::Run | Next::There => Ok(()),
        }
    }

    fn act(
        &mut self,
        _ground: &Ground<Frac64>,
        timeline: &Indexed<Frac64>,
        _label: &Label,
    ) -> Result<(), AllocError> {
        self.watcher.after(timeline.state())
    }

    fn has_much(&self) -> bool {
        false
    }

    fn hand_on<O: Sink>(&mut self, _out: &mut O) -> Result<(), Failed> {
        Ok(())
    }

    ghost behind = { λ N P sent w. nothing_behind sent };
}
