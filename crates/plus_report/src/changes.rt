//! The lines of what changes from one state to another.
ghost use Rattle.std.specs.Prelude.{◌≡◌, ◌++◌, codes, option_map};
ghost use Rattle.plus_fraction.specs.Fraction.{compared};
ghost use Rattle.plus_model.specs.Terms.{Same};
ghost use Rattle.plus_model.specs.Value.{passes};
ghost use Rattle.plus_state.specs.View.{labels_of};
ghost use Rattle.plus_report.specs.Puts.{Puts};
ghost use Rattle.plus_report.specs.Shown.{AreOver};
ghost use Rattle.plus_report.specs.Text.{mark_line, value_line, new_value_line, fluents_text, lost_text, changes_text};

use crate::labels::{atom_label, fluent_label};
use crate::put::{Waiting, put_end, put_fraction_end, put_three};
use plus_io::{Failed, Sink};
use plus_number::exact::Exact;
use plus_state::{AtomId, FluentId, Ground, State};
use std::cmp::Ordering;

fn is_same<Q: Exact>(x: Q, y: Q) -> bool
    ensures { result ≡ passes Same (compared (Q.value x) (Q.value y)) }
{
    match x.order(y) {
        Ordering::Less => false,
        Ordering::Equal => true,
        Ordering::Greater => false,
    }
}

#[inline(always)]
fn put_value<Q: Exact, O: Sink>(
    out: &mut O,
    waiting: &mut Waiting,
    indent: &[u8],
    label: &[u8],
    value: Q,
) -> Result<(), Failed>
    ensures { Puts O.taken O.faults out.old out.new waiting.old.items waiting.new.items
        (value_line indent.now label.now (Q.value value)) result }
{
    put_three(out, waiting, indent, label, b" = ")?;
    put_fraction_end(out, waiting, value)
}

/// Puts a new value, where there is one and it is not the old one.
#[inline(always)]
pub fn put_new_value<Q: Exact, O: Sink>(
    out: &mut O,
    waiting: &mut Waiting,
    indent: &[u8],
    label: &[u8],
    old: Option<Q>,
    new: Option<Q>,
) -> Result<(), Failed>
    ensures { Puts O.taken O.faults out.old out.new waiting.old.items waiting.new.items
        (new_value_line indent.now label.now (option_map Q.value old) (option_map Q.value new))
        result }
{
    let Some(value) = new else {
        return Ok(());
    };
    if let Some(before) = old {
        if is_same(before, value) {
            return Ok(());
        }
        return put_value(out, waiting, indent, label, value);
    }
    put_value(out, waiting, indent, label, value)
}

/// Puts a label behind a mark, where something was so and is no longer.
#[inline(always)]
pub fn put_mark<O: Sink>(
    out: &mut O,
    waiting: &mut Waiting,
    mark: &[u8],
    label: &[u8],
    was: bool,
    is: bool,
) -> Result<(), Failed>
    ensures { Puts O.taken O.faults out.old out.new waiting.old.items waiting.new.items
        (mark_line mark.now label.now was is) result }
{
    if is {
        return Ok(());
    }
    if was {
        return put_three(out, waiting, mark, label, b"\n");
    }
    Ok(())
}

/// Puts the fluents whose value is another one in the second state.
pub fn put_fluents<Q: Exact, O: Sink>(
    out: &mut O,
    waiting: &mut Waiting,
    indent: &[u8],
    ground: &Ground<Q>,
    before: &State<Q>,
    after: &State<Q>,
) -> Result<(), Failed>
    requires { AreOver (labels_of ground.now) before.now after.now }
    ensures { Puts O.taken O.faults out.old out.new waiting.old.items waiting.new.items
        (fluents_text indent.now (labels_of ground.now) before.now after.now) result }
{
    for index in 0..ground.fluents.len() {
        let fluent = FluentId(index as u32);
        let label = fluent_label(ground, fluent);
        put_new_value(
            out,
            waiting,
            indent,
            label,
            before.fluent(fluent),
            after.fluent(fluent),
        )?;
    }
    Ok(())
}

fn put_lost<Q: Exact, O: Sink>(
    out: &mut O,
    waiting: &mut Waiting,
    mark: &[u8],
    ground: &Ground<Q>,
    before: &State<Q>,
    after: &State<Q>,
) -> Result<(), Failed>
    requires { AreOver (labels_of ground.now) before.now after.now }
    ensures { Puts O.taken O.faults out.old out.new waiting.old.items waiting.new.items
        (lost_text mark.now (labels_of ground.now) before.now after.now) result }
{
    for index in 0..ground.atoms.len() {
        let atom = AtomId(index as u32);
        let label = atom_label(ground, atom);
        put_mark(
            out,
            waiting,
            mark,
            label,
            before.atom(atom),
            after.atom(atom),
        )?;
    }
    Ok(())
}

/// Puts the atoms lost, the atoms gained, and the fluents with another value.
pub fn put_changes<Q: Exact, O: Sink>(
    out: &mut O,
    waiting: &mut Waiting,
    ground: &Ground<Q>,
    before: &State<Q>,
    after: &State<Q>,
) -> Result<(), Failed>
    requires { AreOver (labels_of ground.now) before.now after.now }
    ensures { Puts O.taken O.faults out.old out.new waiting.old.items waiting.new.items
        (changes_text (labels_of ground.now) before.now after.now) result }
{
    put_lost(out, waiting, b"    - ", ground, before, after)?;
    put_lost(out, waiting, b"    + ", ground, after, before)?;
    put_fluents(out, waiting, b"    ", ground, before, after)
}
