//! A report that goes out as it is told: no more of it waits than a step tells behind 64 KiB.
ghost use Rattle.std.specs.Prelude.{◌≡◌, ℕ, List, [], ◌++◌, OnOk, refl};
ghost use Rattle.plus_number.specs.Frac.{fraction_of};
ghost use Rattle.plus_state.specs.View.{problem_of, labels_of};
ghost use Rattle.plus_validator.specs.Standing.{CanShow, MovesThenChanges, IsShown, next_text};
ghost use Rattle.plus_validator.specs.Told.{reports, report_told, report_kept};

use crate::memory::Report;
use crate::teller::Teller;
use plus_indexed::Indexed;
use plus_io::{Failed, Sink, write_all};
use plus_number::frac::Frac64;
use plus_report::{
    write_act_changes, write_entry_changes, write_literals_changes, write_round_changes, write_run,
};
use plus_state::Label;
use plus_state::problem::Ground;
use plus_timeline::Next;
use std::alloc::AllocError;

// What waits of the report is much if it has more bytes.
const MUCH: usize = 65536;

// Writes a moment: the fluents that moved, and where it has literals what they change.
#[inline(always)]
fn write_moment(
    report: &mut Report,
    ground: &Ground<Frac64>,
    timeline: &Indexed<Frac64>,
    time: Frac64,
) -> Result<(), Failed>
    requires can { CanShow (problem_of fraction_of ground.now) timeline.now.line }
    requires shown { MovesThenChanges timeline.now.line }
    ensures { OnOk result (report.new.bytes.items ≡ report.old.bytes.items
        ++ next_text fraction_of (labels_of ground.now) (problem_of fraction_of ground.now) timeline.now.line (Next.Entry time)) }
{
    write_entry_changes(report, ground, time, timeline.before(), timeline.changes())?;
    if timeline.has_literals() {
        return write_literals_changes(report, ground, timeline.arrival(), timeline.changes());
    }
    Ok(())
}

// Writes what the timeline did.
#[inline(always)]
fn write_next(
    report: &mut Report,
    ground: &Ground<Frac64>,
    timeline: &Indexed<Frac64>,
    next: Next<Frac64>,
) -> Result<(), Failed>
    requires can { CanShow (problem_of fraction_of ground.now) timeline.now.line }
    requires shown { IsShown (problem_of fraction_of ground.now) timeline.now.line next }
    ensures { OnOk result (report.new.bytes.items ≡ report.old.bytes.items
        ++ next_text fraction_of (labels_of ground.now) (problem_of fraction_of ground.now) timeline.now.line next) }
{
    match next {
        Next::Round => write_round_changes(
            report,
            ground,
            timeline.events(),
            timeline.before(),
            timeline.changes(),
        ),
        Next::Run => write_run(report, ground, timeline.running()),
        Next::Entry { time } => write_moment(report, ground, timeline, time),
        Next::There => Ok(()),
    }
}

impl Teller for Report {
    ghost Told = { List ℕ };

    ghost told = { report_told };

    ghost telling = { reports };

    ghost Kept = { Unit {0} };

    ghost kept = { report_kept };

    ghost IsNew = { λ r. r.bytes.items ≡ [] };

    fn begin(
        &mut self,
        ground: &Ground<Frac64>,
        timeline: &Indexed<Frac64>,
    ) -> Result<(), AllocError> {
        let first = Next::Entry {
            time: timeline.time(),
        };
        match write_next(self, ground, timeline, first) {
            Ok(()) => Ok(()),
            Err(_) => Err(AllocError),
        }
    }

    fn step(
        &mut self,
        ground: &Ground<Frac64>,
        timeline: &Indexed<Frac64>,
        next: Next<Frac64>,
    ) -> Result<(), AllocError> {
        match write_next(self, ground, timeline, next) {
            Ok(()) => Ok(()),
            Err(_) => Err(AllocError),
        }
    }

    fn act(
        &mut self,
        ground: &Ground<Frac64>,
        timeline: &Indexed<Frac64>,
        label: &Label,
    ) -> Result<(), AllocError> {
        match write_act_changes(self, ground, label, timeline.before(), timeline.changes()) {
            Ok(()) => Ok(()),
            Err(_) => Err(AllocError),
        }
    }

    fn has_much(&self) -> bool {
        self.bytes.len() > MUCH
    }

    fn hand_on<O: Sink>(&mut self, out: &mut O) -> Result<(), Failed> {
        write_all(out, &self.bytes)?;
        self.bytes.clear();
        Ok(())
    }

    ghost behind = { λ N P sent r. (r.bytes.items, refl) };
}
