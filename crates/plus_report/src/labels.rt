//! The labels of a ground problem, by their numbers.
ghost use Rattle.std.specs.Prelude.{◌≡◌, ◌<◌, length};
ghost use Rattle.plus_state.specs.View.{labels_of, problem_of};
ghost use Rattle.plus_report.specs.Labels.{label_at, event_label, process_label};

use plus_number::exact::Exact;
use plus_state::{AtomId, EventId, FluentId, Ground, ProcessId};

pub fn atom_label<Q: Exact>(ground: &Ground<Q>, atom: AtomId) -> &[u8]
    requires { atom.0 < length (labels_of ground.now).atoms }
    ensures { result.now ≡ label_at (labels_of ground.now).atoms atom.0 }
{
    ground.atoms[atom.0 as usize].bytes()
}

pub fn fluent_label<Q: Exact>(ground: &Ground<Q>, fluent: FluentId) -> &[u8]
    requires { fluent.0 < length (labels_of ground.now).fluents }
    ensures { result.now ≡ label_at (labels_of ground.now).fluents fluent.0 }
{
    ground.fluents[fluent.0 as usize].bytes()
}

pub fn event_label_of<Q: Exact>(ground: &Ground<Q>, event: EventId) -> &[u8]
    requires { event.0 < length ground.now.events.items }
    ensures { result.now ≡ event_label (problem_of Q.value ground.now) event.0 }
{
    ground.events[event.0 as usize].label.bytes()
}

pub fn process_label_of<Q: Exact>(ground: &Ground<Q>, process: ProcessId) -> &[u8]
    requires { process.0 < length ground.now.processes.items }
    ensures { result.now ≡ process_label (problem_of Q.value ground.now) process.0 }
{
    ground.processes[process.0 as usize].label.bytes()
}
