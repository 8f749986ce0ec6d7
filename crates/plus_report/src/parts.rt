//! Writers of the parts of a history.
ghost use Rattle.std.specs.Prelude.{◌≡◌, ◌++◌, codes, length, All, ◌<◌};
ghost use Rattle.plus_state.specs.View.{labels_of, problem_of};
ghost use Rattle.plus_state.specs.Changes.{patched, RisesIn};
ghost use Rattle.plus_report.specs.Labels.{event_label, process_label};
ghost use Rattle.plus_report.specs.Puts.{Puts};
ghost use Rattle.plus_report.specs.Wrote.{Wrote};
ghost use Rattle.plus_report.specs.Shown.{FitsIn, AreEvents, AreProcesses, event_numbers, process_numbers};
ghost use Rattle.plus_report.specs.Text.{newline, fraction_text, labels_text, entry_text, literals_text, round_text, act_text, run_text};

use crate::changes::{put_changes, put_fluents};
use crate::labels::{event_label_of, process_label_of};
use crate::listed::{put_listed, put_listed_fluents};
use crate::put::{Waiting, flush, put, put_fraction_end, put_three};
use plus_io::{Failed, Sink};
use plus_number::exact::Exact;
use plus_state::{Changes, EventId, Ground, Label, ProcessId, State};

#[inline(always)]
fn put_spaced<O: Sink>(out: &mut O, waiting: &mut Waiting, label: &[u8]) -> Result<(), Failed>
    ensures { Puts O.taken O.faults out.old out.new waiting.old.items waiting.new.items
        (codes " " ++ label.now) result }
{
    put(out, waiting, b" ")?;
    put(out, waiting, label)
}

fn put_events<Q: Exact, O: Sink>(
    out: &mut O,
    waiting: &mut Waiting,
    ground: &Ground<Q>,
    events: &[EventId],
) -> Result<(), Failed>
    requires { AreEvents (problem_of Q.value ground.now) events.now }
    ensures { Puts O.taken O.faults out.old out.new waiting.old.items waiting.new.items
        (labels_text (event_label (problem_of Q.value ground.now)) (event_numbers events.now))
        result }
{
    for &event in events {
        put_spaced(out, waiting, event_label_of(ground, event))?;
    }
    Ok(())
}

fn put_processes<Q: Exact, O: Sink>(
    out: &mut O,
    waiting: &mut Waiting,
    ground: &Ground<Q>,
    members: &[ProcessId],
) -> Result<(), Failed>
    requires { AreProcesses (problem_of Q.value ground.now) members.now }
    ensures { Puts O.taken O.faults out.old out.new waiting.old.items waiting.new.items
        (labels_text (process_label (problem_of Q.value ground.now)) (process_numbers members.now))
        result }
{
    for &process in members {
        put_spaced(out, waiting, process_label_of(ground, process))?;
    }
    Ok(())
}

// The line of a moment.
#[inline(always)]
fn put_moment<Q: Exact, O: Sink>(out: &mut O, waiting: &mut Waiting, time: Q) -> Result<(), Failed>
    ensures { Puts O.taken O.faults out.old out.new waiting.old.items waiting.new.items
        (codes "at " ++ (fraction_text (Q.value time) ++ newline)) result }
{
    put(out, waiting, b"at ")?;
    put_fraction_end(out, waiting, time)
}

// The line of events that fire together.
fn put_fired<Q: Exact, O: Sink>(
    out: &mut O,
    waiting: &mut Waiting,
    ground: &Ground<Q>,
    events: &[EventId],
) -> Result<(), Failed>
    requires { AreEvents (problem_of Q.value ground.now) events.now }
    ensures { Puts O.taken O.faults out.old out.new waiting.old.items waiting.new.items
        (codes "  events" ++ labels_text (event_label (problem_of Q.value ground.now)) (event_numbers events.now)
        ++ newline) result }
{
    put(out, waiting, b"  events")?;
    put_events(out, waiting, ground, events)?;
    put(out, waiting, b"\n")
}

// The line of an action.
fn put_called<O: Sink>(out: &mut O, waiting: &mut Waiting, label: &Label) -> Result<(), Failed>
    ensures { Puts O.taken O.faults out.old out.new waiting.old.items waiting.new.items
        (codes "  act " ++ label.now ++ newline) result }
{
    put_three(out, waiting, b"  act ", label.bytes(), b"\n")
}

fn put_run<Q: Exact, O: Sink>(
    out: &mut O,
    waiting: &mut Waiting,
    ground: &Ground<Q>,
    members: &[ProcessId],
) -> Result<(), Failed>
    requires { AreProcesses (problem_of Q.value ground.now) members.now }
    ensures { Puts O.taken O.faults out.old out.new waiting.old.items waiting.new.items
        (run_text (problem_of Q.value ground.now) (process_numbers members.now)) result }
{
    put(out, waiting, b"  run")?;
    put_processes(out, waiting, ground, members)?;
    put(out, waiting, b"\n")
}

/// Writes a moment: its time, and the fluents whose value on arrival is not the one before the
/// stretch. For the first entry both states are the initial one.
pub fn write_entry<Q: Exact, O: Sink>(
    out: &mut O,
    ground: &Ground<Q>,
    time: Q,
    before: &State<Q>,
    arrival: &State<Q>,
) -> Result<(), Failed>
    requires before_fits { FitsIn (problem_of Q.value ground.now) before.now }
    requires arrival_fits { FitsIn (problem_of Q.value ground.now) arrival.now }
    ensures { Wrote O.taken O.faults out.old out.new
        (entry_text (labels_of ground.now) (Q.value time) before.now arrival.now) result }
{
    let mut waiting = Waiting::new();
    put_moment(out, &mut waiting, time)?;
    put_fluents(out, &mut waiting, b"  ", ground, before, arrival)?;
    flush(out, &mut waiting)
}

/// Writes a moment, as `write_entry` does, by what changes until the arrival: it costs what is listed.
#[inline(always)]
pub fn write_entry_changes<Q: Exact, O: Sink>(
    out: &mut O,
    ground: &Ground<Q>,
    time: Q,
    before: &State<Q>,
    changes: &Changes<Q>,
) -> Result<(), Failed>
    requires fits { FitsIn (problem_of Q.value ground.now) before.now }
    requires changes { RisesIn before.now changes.now }
    ensures { Wrote O.taken O.faults out.old out.new
        (entry_text (labels_of ground.now) (Q.value time) before.now (patched before.now changes.now)) result }
{
    let mut waiting = Waiting::new();
    put_moment(out, &mut waiting, time)?;
    put_listed_fluents(out, &mut waiting, b"  ", ground, before, changes)?;
    flush(out, &mut waiting)
}

/// Writes what the timed initial literals of a moment change. It follows the moment's entry.
pub fn write_literals<Q: Exact, O: Sink>(
    out: &mut O,
    ground: &Ground<Q>,
    arrival: &State<Q>,
    after: &State<Q>,
) -> Result<(), Failed>
    requires arrival_fits { FitsIn (problem_of Q.value ground.now) arrival.now }
    requires after_fits { FitsIn (problem_of Q.value ground.now) after.now }
    ensures { Wrote O.taken O.faults out.old out.new
        (literals_text (labels_of ground.now) arrival.now after.now) result }
{
    let mut waiting = Waiting::new();
    put(out, &mut waiting, b"  literals\n")?;
    put_changes(out, &mut waiting, ground, arrival, after)?;
    flush(out, &mut waiting)
}

/// Writes what the timed initial literals of a moment change, as `write_literals` does, by the
/// changes: it costs what is listed.
pub fn write_literals_changes<Q: Exact, O: Sink>(
    out: &mut O,
    ground: &Ground<Q>,
    arrival: &State<Q>,
    changes: &Changes<Q>,
) -> Result<(), Failed>
    requires fits { FitsIn (problem_of Q.value ground.now) arrival.now }
    requires changes { RisesIn arrival.now changes.now }
    ensures { Wrote O.taken O.faults out.old out.new
        (literals_text (labels_of ground.now) arrival.now (patched arrival.now changes.now)) result }
{
    let mut waiting = Waiting::new();
    put(out, &mut waiting, b"  literals\n")?;
    put_listed(out, &mut waiting, ground, arrival, changes)?;
    flush(out, &mut waiting)
}

/// Writes events that fire together, and what they change.
pub fn write_round<Q: Exact, O: Sink>(
    out: &mut O,
    ground: &Ground<Q>,
    events: &[EventId],
    before: &State<Q>,
    after: &State<Q>,
) -> Result<(), Failed>
    requires events { AreEvents (problem_of Q.value ground.now) events.now }
    requires before_fits { FitsIn (problem_of Q.value ground.now) before.now }
    requires after_fits { FitsIn (problem_of Q.value ground.now) after.now }
    ensures { Wrote O.taken O.faults out.old out.new
        (round_text (labels_of ground.now) (problem_of Q.value ground.now)
        (event_numbers events.now) before.now after.now) result }
{
    let mut waiting = Waiting::new();
    put_fired(out, &mut waiting, ground, events)?;
    put_changes(out, &mut waiting, ground, before, after)?;
    flush(out, &mut waiting)
}

/// Writes events that fire together, as `write_round` does, by what they change: it costs what is
/// listed.
pub fn write_round_changes<Q: Exact, O: Sink>(
    out: &mut O,
    ground: &Ground<Q>,
    events: &[EventId],
    before: &State<Q>,
    changes: &Changes<Q>,
) -> Result<(), Failed>
    requires events { AreEvents (problem_of Q.value ground.now) events.now }
    requires fits { FitsIn (problem_of Q.value ground.now) before.now }
    requires changes { RisesIn before.now changes.now }
    ensures { Wrote O.taken O.faults out.old out.new
        (round_text (labels_of ground.now) (problem_of Q.value ground.now)
        (event_numbers events.now) before.now (patched before.now changes.now)) result }
{
    let mut waiting = Waiting::new();
    put_fired(out, &mut waiting, ground, events)?;
    put_listed(out, &mut waiting, ground, before, changes)?;
    flush(out, &mut waiting)
}

/// Writes an action, by its label, and what it changes.
pub fn write_act<Q: Exact, O: Sink>(
    out: &mut O,
    ground: &Ground<Q>,
    label: &Label,
    before: &State<Q>,
    after: &State<Q>,
) -> Result<(), Failed>
    requires before_fits { FitsIn (problem_of Q.value ground.now) before.now }
    requires after_fits { FitsIn (problem_of Q.value ground.now) after.now }
    ensures { Wrote O.taken O.faults out.old out.new
        (act_text (labels_of ground.now) label.now before.now after.now) result }
{
    let mut waiting = Waiting::new();
    put_called(out, &mut waiting, label)?;
    put_changes(out, &mut waiting, ground, before, after)?;
    flush(out, &mut waiting)
}

/// Writes an action, as `write_act` does, by what it changes: it costs what is listed.
pub fn write_act_changes<Q: Exact, O: Sink>(
    out: &mut O,
    ground: &Ground<Q>,
    label: &Label,
    before: &State<Q>,
    changes: &Changes<Q>,
) -> Result<(), Failed>
    requires fits { FitsIn (problem_of Q.value ground.now) before.now }
    requires changes { RisesIn before.now changes.now }
    ensures { Wrote O.taken O.faults out.old out.new
        (act_text (labels_of ground.now) label.now before.now (patched before.now changes.now)) result }
{
    let mut waiting = Waiting::new();
    put_called(out, &mut waiting, label)?;
    put_listed(out, &mut waiting, ground, before, changes)?;
    flush(out, &mut waiting)
}

/// Writes the processes that run from here on.
pub fn write_run<Q: Exact, O: Sink>(
    out: &mut O,
    ground: &Ground<Q>,
    members: &[ProcessId],
) -> Result<(), Failed>
    requires { AreProcesses (problem_of Q.value ground.now) members.now }
    ensures { Wrote O.taken O.faults out.old out.new
        (run_text (problem_of Q.value ground.now) (process_numbers members.now)) result }
{
    let mut waiting = Waiting::new();
    put_run(out, &mut waiting, ground, members)?;
    flush(out, &mut waiting)
}
