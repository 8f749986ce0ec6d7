//! The lines of what a list of changes changes of a state. Only what is listed is looked at.
ghost use Rattle.std.specs.Prelude.{◌≡◌, ◌++◌, codes, length};
ghost use Rattle.plus_state.specs.Changes.{patched, RisesIn};
ghost use Rattle.plus_state.specs.Fits.{StateFits};
ghost use Rattle.plus_state.specs.View.{labels_of};
ghost use Rattle.plus_report.specs.Puts.{Puts};
ghost use Rattle.plus_report.specs.Text.{fluents_text, lost_text, changes_text};

use crate::changes::{put_mark, put_new_value};
use crate::labels::{atom_label, fluent_label};
use crate::put::Waiting;
use plus_io::{Failed, Sink};
use plus_number::exact::Exact;
use plus_state::{Changes, Ground, State};

/// Puts the fluents that get another value.
#[inline(always)]
pub fn put_listed_fluents<Q: Exact, O: Sink>(
    out: &mut O,
    waiting: &mut Waiting,
    indent: &[u8],
    ground: &Ground<Q>,
    before: &State<Q>,
    changes: &Changes<Q>,
) -> Result<(), Failed>
    requires fits { length before.now.fluents ≡ length (labels_of ground.now).fluents }
    requires changes { RisesIn before.now changes.now }
    ensures { Puts O.taken O.faults out.old out.new waiting.old.items waiting.new.items
        (fluents_text indent.now (labels_of ground.now) before.now (patched before.now changes.now)) result }
{
    'each: for change in &changes.fluents {
        let label = fluent_label(ground, change.fluent);
        let old = before.fluent(change.fluent);
        put_new_value(out, waiting, indent, label, old, change.value)?;
    }
    Ok(())
}

#[inline(always)]
fn put_listed_lost<Q: Exact, O: Sink>(
    out: &mut O,
    waiting: &mut Waiting,
    ground: &Ground<Q>,
    before: &State<Q>,
    changes: &Changes<Q>,
) -> Result<(), Failed>
    requires fits { length before.now.atoms ≡ length (labels_of ground.now).atoms }
    requires changes { RisesIn before.now changes.now }
    ensures { Puts O.taken O.faults out.old out.new waiting.old.items waiting.new.items
        (lost_text (codes "    - ") (labels_of ground.now) before.now (patched before.now changes.now)) result }
{
    'each: for change in &changes.atoms {
        let label = atom_label(ground, change.atom);
        let was = before.atom(change.atom);
        put_mark(out, waiting, b"    - ", label, was, change.truth)?;
    }
    Ok(())
}

#[inline(always)]
fn put_listed_gained<Q: Exact, O: Sink>(
    out: &mut O,
    waiting: &mut Waiting,
    ground: &Ground<Q>,
    before: &State<Q>,
    changes: &Changes<Q>,
) -> Result<(), Failed>
    requires fits { length before.now.atoms ≡ length (labels_of ground.now).atoms }
    requires changes { RisesIn before.now changes.now }
    ensures { Puts O.taken O.faults out.old out.new waiting.old.items waiting.new.items
        (lost_text (codes "    + ") (labels_of ground.now) (patched before.now changes.now) before.now) result }
{
    'each: for change in &changes.atoms {
        let label = atom_label(ground, change.atom);
        let was = before.atom(change.atom);
        put_mark(out, waiting, b"    + ", label, change.truth, was)?;
    }
    Ok(())
}

/// Puts the atoms lost, the atoms gained, and the fluents with another value.
#[inline(always)]
pub fn put_listed<Q: Exact, O: Sink>(
    out: &mut O,
    waiting: &mut Waiting,
    ground: &Ground<Q>,
    before: &State<Q>,
    changes: &Changes<Q>,
) -> Result<(), Failed>
    requires fits { StateFits (length (labels_of ground.now).atoms) (length (labels_of ground.now).fluents) before.now }
    requires changes { RisesIn before.now changes.now }
    ensures { Puts O.taken O.faults out.old out.new waiting.old.items waiting.new.items
        (changes_text (labels_of ground.now) before.now (patched before.now changes.now)) result }
{
    put_listed_lost(out, waiting, ground, before, changes)?;
    put_listed_gained(out, waiting, ground, before, changes)?;
    put_listed_fluents(out, waiting, b"    ", ground, before, changes)
}
