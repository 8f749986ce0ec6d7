//! The one line that tells how a run ends.

ghost use Rattle.std.specs.Prelude.{◌≡◌, ◌≤◌};
ghost use Rattle.plus_report.specs.Refusals.{early_text};
ghost use Rattle.plus_reply.specs.Statuses.{early_status, Writes};

use plus_io::{Sink, write_all};
use plus_report::{Early, Status, write_early};

/// The status of a refusal that is one line.
pub fn status_for(early: &Early) -> Status
    ensures { result ≡ early_status early.now }
{
    match early {
        Early::BadText { .. } | Early::BadLine { .. } => Status::BadText,
        _ => Status::Beyond,
    }
}

/// Refuses with one line.
pub fn refuse<O: Sink>(out: &mut O, early: &Early) -> Status
    ensures writes { Writes (early_text early.now) (early_status early.now) (O.taken out.old)
        (O.taken out.new) (O.faults out.old) (O.faults out.new) result }
    ensures no_fall { O.faults out.old ≤ O.faults out.new }
{
    match write_early(out, early) {
        Ok(()) => status_for(early),
        Err(_) => Status::WriteFault,
    }
}

/// Writes one line, and answers this status.
pub fn tell<O: Sink>(out: &mut O, line: &[u8], status: Status) -> Status
    ensures writes { Writes line.now status (O.taken out.old) (O.taken out.new)
        (O.faults out.old) (O.faults out.new) result }
    ensures no_fall { O.faults out.old ≤ O.faults out.new }
{
    match write_all(out, line) {
        Ok(()) => status,
        Err(_) => Status::WriteFault,
    }
}
