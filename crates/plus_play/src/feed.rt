//! Plays the lines of a text as its pieces come.
ghost use Rattle.std.specs.Prelude.{◌≡◌, [], false, None, OnOk, IfErr};
ghost use Rattle.plus_plan.specs.Pieces.{IsIdle};
ghost use Rattle.plus_play.specs.Rules.{TellsMore};
ghost use Rattle.plus_play.specs.Feeding.{Feeds, HaltsFeeding, EndsFeeding, HaltsEnding};

use crate::plays::Plays;
use plus_plan::{Line, PlanReader};
use std::alloc::Global;

// Plays the line that is due, if one is.
fn line<O, P: Plays<O>>(
    player: &mut P,
    reader: &mut PlanReader,
    alloc: Global,
    out: &mut O,
) -> Result<(), P::Stop>
    requires can { P.rules.Can player.old out.old }
    ensures can { OnOk result (P.rules.Can player.new out.new) }
    ensures feeds { OnOk result (Feeds P.rules [] reader.old player.old out.old reader.new player.new out.new) }
    ensures idle { OnOk result (reader.old.fault ≡ None → IsIdle reader.new) }
    ensures closed { OnOk result (reader.new.closed ≡ reader.old.closed) }
    ensures halts { IfErr result (HaltsFeeding P.rules [] reader.old player.old out.old player.new out.new) }
    ensures told { TellsMore P.rules out.old out.new }
{
    let mut read = Line::Blank;
    match reader.next_line_in(&mut read) {
        Ok(true) => player.line(alloc, &mut read, out),
        Ok(false) => Ok(()),
        Err(fault) => Err(player.no_line(fault, out)),
    }
}

/// Plays a piece of the text.
pub fn take<O, P: Plays<O>>(
    player: &mut P,
    reader: &mut PlanReader,
    alloc: Global,
    piece: &[u8],
    out: &mut O,
) -> Result<(), P::Stop>
    requires can { P.rules.Can player.old out.old }
    requires idle { IsIdle reader.old }
    requires open { reader.old.closed ≡ false }
    ensures can { OnOk result (P.rules.Can player.new out.new) }
    ensures idle { OnOk result (IsIdle reader.new) }
    ensures open { OnOk result (reader.new.closed ≡ false) }
    ensures feeds { OnOk result (Feeds P.rules piece.now reader.old player.old out.old reader.new player.new out.new) }
    ensures halts { IfErr result (HaltsFeeding P.rules piece.now reader.old player.old out.old player.new out.new) }
    ensures told { TellsMore P.rules out.old out.new }
{
    let mut from = 0;
    'piece: while from < piece.len() {
        from += reader.feed(&piece[from..]);
        match line(player, reader, alloc, out) {
            Ok(()) => {}
            Err(stop) => return Err(stop),
        }
    }
    Ok(())
}

/// Plays on at the end of the text.
pub fn end<O, P: Plays<O>>(
    player: &mut P,
    reader: &mut PlanReader,
    alloc: Global,
    out: &mut O,
) -> Result<(), P::Stop>
    requires can { P.rules.Can player.old out.old }
    requires idle { IsIdle reader.old }
    requires open { reader.old.closed ≡ false }
    ensures ends { OnOk result (EndsFeeding P.rules reader.old player.old out.old player.new out.new) }
    ensures halts { IfErr result (HaltsEnding P.rules reader.old player.old out.old player.new out.new) }
    ensures told { TellsMore P.rules out.old out.new }
{
    reader.close();
    match line(player, reader, alloc, out) {
        Ok(()) => player.end(alloc, out),
        Err(stop) => Err(stop),
    }
}
