//! The text of one half of a translation.

ghost use Rattle.std.specs.Prelude.{◌≡◌, map};
ghost use Rattle.std.specs.List.{flat_map};
ghost use Rattle.plus_report.specs.Puts.{Puts};
ghost use Rattle.plus_report.specs.Wrote.{Wrote};
ghost use Rattle.plus_translate_command.specs.Printer.Woven.{parts_of, woven_old, woven};

use crate::printer::own::OldText;
use crate::printer::put::{Waiting, flush, put, put_both};
use crate::printer::shared::Shared;
use plus_io::{Failed, Sink};
use std::alloc::Global;
use std::marker::Model;

fn put_old<O: Sink>(
    out: &mut O,
    waiting: &mut Waiting,
    shared: &Shared,
    old: &OldText,
) -> Result<(), Failed>
    ensures { Puts O.taken O.faults out.old out.new waiting.old.items waiting.new.items
        (woven_old shared.now.none.items shared.now.clears.items (parts_of old.now)) result }
{
    put_both(out, waiting, &old.condition, &shared.none)?;
    put_both(out, waiting, &old.effect, &shared.clears)?;
    put(out, waiting, b"))\n")
}

fn put_olds<O: Sink>(
    out: &mut O,
    waiting: &mut Waiting,
    shared: &Shared,
    olds: &[OldText],
) -> Result<(), Failed>
    ensures { Puts O.taken O.faults out.old out.new waiting.old.items waiting.new.items
        (flat_map (woven_old shared.now.none.items shared.now.clears.items) (map parts_of olds.now)) result }
{
    'each: for old in olds {
        put_old(out, waiting, shared, old)?;
    }
    Ok(())
}

/// The text of one half of a translation: what all old actions share is held once.
#[derive(Drop)]
pub struct HalfText {
    opening: Vec<u8>,
    shared: Shared,
    olds: Vec<OldText>,
    ending: Vec<u8>,
}

impl Model for HalfText {
    ghost use Rattle.std.specs.Prelude.{List, ℕ, map};
    ghost use Rattle.plus_translate_command.specs.Printer.Woven.{parts_of, woven};

    ghost Value = { List ℕ };

    ghost view = { λ t. woven t.opening.items t.shared.none.items t.shared.clears.items (map parts_of t.olds.items) t.ending.items };
}

impl HalfText {
    /// The text that opens so, then has the old actions with what they share, and ends so.
    pub fn new(opening: Vec<u8>, shared: Shared, olds: Vec<OldText>, ending: Vec<u8>) -> HalfText
        ensures { result ≡ woven opening.items shared.none.items shared.clears.items (map parts_of olds.items) ending.items }
    {
        HalfText {
            opening,
            shared,
            olds,
            ending,
        }
    }

    /// A text with no old actions.
    pub fn whole(alloc: Global, text: Vec<u8>) -> HalfText
        ensures { result ≡ text.items }
    {
        HalfText::new(text, Shared::none(alloc), Vec::new(alloc), Vec::new(alloc))
    }

    /// Writes the text. It asks for no memory.
    pub fn write<O: Sink>(&self, out: &mut O) -> Result<(), Failed>
        ensures { Wrote O.taken O.faults out.old out.new self.now result }
    {
        let mut waiting = Waiting::new();
        put(out, &mut waiting, &self.opening)?;
        put_olds(out, &mut waiting, &self.shared, &self.olds)?;
        put(out, &mut waiting, &self.ending)?;
        flush(out, &mut waiting)
    }
}
