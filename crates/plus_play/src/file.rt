//! Plays the text under a name of a shelf, and a text in memory.
ghost use Rattle.std.specs.Prelude.{◌≡◌, ◌≤◌, ◌+◌, [], length, take, Some, OnOk, OnErr, IfOk, IfErr};
ghost use Rattle.std.specs.Io.KnownBytes.{IsAtEnd};
ghost use Rattle.plus_io.specs.Faults.{Rose};
ghost use Rattle.plus_io.specs.Files.{KeepsFiles, Takes};
ghost use Rattle.plus_io.specs.Limits.{text_limit, piece_size};
ghost use Rattle.plus_io.specs.Picks.{ReadsOnce, with_read};
ghost use Rattle.plus_plan.specs.Pieces.{fresh};
ghost use Rattle.plus_play.specs.Rules.{IsPlayed, IsHalted};
ghost use Rattle.plus_play.specs.Feeding.{Pauses, KeepsUp, UnlessFailed};

use crate::feed;
use crate::plays::Plays;
use plus_io::{Failed, PIECE, Shelf, TEXT_LIMIT};
use plus_plan::PlanReader;
use std::alloc::Global;

/// Why a text is played no further.
#[derive(Drop)]
pub enum Pause<T> {
    /// It is stopped.
    Halt(T),
    /// The shelf failed.
    Failed,
}

// Reads a piece of a plan of which so many bytes have come: at most one byte past the limit.
fn read_piece<S: Shelf>(shelf: &mut S, buffer: &mut [u8], total: usize) -> Result<usize, Failed>
    requires within { total ≤ text_limit }
    requires size { length buffer.old ≡ piece_size }
    ensures fits { IfOk result (λ count. count ≤ length buffer.new) }
    ensures most { IfOk result (λ count. total + count ≤ text_limit + 1) }
    ensures piece { IfOk result (λ count. Takes (S.rest shelf.old) (S.rest shelf.new) (take count buffer.new)) }
    ensures at_end { IfOk result (λ count. count ≡ 0 → IsAtEnd (S.rest shelf.old)) }
    ensures cause { OnErr result (Rose (S.faults shelf.old) (S.faults shelf.new)) }
    ensures stays { OnErr result (S.rest shelf.new ≡ S.rest shelf.old) }
    ensures told { IfOk result (λ count. S.picks shelf.new ≡ with_read count (S.picks shelf.old)) }
    ensures untold { OnErr result (S.picks shelf.new ≡ S.picks shelf.old) }
    ensures keeps { KeepsFiles S.names S.bytes S.faults shelf.old shelf.new }
{
    let most = (TEXT_LIMIT - total).min(PIECE - 1) + 1;
    shelf.read(&mut buffer[..most])
}

/// Reads the plan text under a name, and plays it as it comes. What a piece tells is handed on before the next is read, unless
/// there is a stop in it.
pub fn play_file<S: Shelf, O, P: Plays<O>>(
    player: &mut P,
    reader: &mut PlanReader,
    alloc: Global,
    shelf: &mut S,
    plan: &str,
    out: &mut O,
) -> Result<(), Pause<P::Stop>>
    requires can { P.rules.Can player.old out.old }
    requires begun { P.rules.Played player.old out.old [] player.old out.old }
    requires fresh { reader.old ≡ fresh reader.old.form }
    ensures plays { OnOk result (IsPlayed P.rules reader.old.form (S.bytes shelf.old plan.now) player.old out.old player.new out.new) }
    ensures pauses { IfErr result (Pauses P.rules reader.old.form (S.bytes shelf.old plan.now) (S.picked shelf.new) (S.rest shelf.new) (S.faults shelf.old) (S.faults shelf.new)
        player.old out.old reader.new player.new out.new) }
    // What a piece tells is out before the next is read.
    ensures keeps_up { UnlessFailed result (KeepsUp P.rules reader.old.form (S.bytes shelf.old plan.now) (S.rest shelf.new) player.old out.old out.new) }
    ensures reads { ReadsOnce S.bytes S.picked S.rest S.picks (text_limit + 1) plan.now shelf.old shelf.new }
    ensures keeps { KeepsFiles S.names S.bytes S.faults shelf.old shelf.new }
{
    let Ok(()) = shelf.pick(plan) else {
        return Err(Pause::Failed);
    };
    if let Err(stop) = player.hand_on(out) {
        return Err(Pause::Halt(stop));
    }
    let mut buffer = [0u8; PIECE];
    let mut total = 0;
    'pieces: loop {
        let Ok(count) = read_piece(shelf, &mut buffer, total) else {
            return Err(Pause::Failed);
        };
        if count == 0 {
            return match feed::end(player, reader, alloc, out) {
                Ok(()) => Ok(()),
                Err(stop) => Err(Pause::Halt(stop)),
            };
        }
        let within = count.min(TEXT_LIMIT - total);
        if let Err(stop) = feed::take(player, reader, alloc, &buffer[..within], out) {
            return Err(Pause::Halt(stop));
        }
        if within < count {
            return Err(Pause::Halt(player.too_long(out)));
        }
        if let Err(stop) = player.hand_on(out) {
            return Err(Pause::Halt(stop));
        }
        total += count;
    }
}

/// Plays the plan text that stands in these bytes.
pub fn play_bytes<O, P: Plays<O>>(
    player: &mut P,
    reader: &mut PlanReader,
    alloc: Global,
    bytes: &[u8],
    out: &mut O,
) -> Result<(), P::Stop>
    requires can { P.rules.Can player.old out.old }
    requires begun { P.rules.Played player.old out.old [] player.old out.old }
    requires fresh { reader.old ≡ fresh reader.old.form }
    ensures plays { OnOk result (IsPlayed P.rules reader.old.form (Some bytes.now) player.old out.old player.new out.new) }
    ensures halts { IfErr result (IsHalted P.rules reader.old.form (Some bytes.now) player.old out.old player.new out.new) }
{
    let within = bytes.len().min(TEXT_LIMIT);
    match feed::take(player, reader, alloc, &bytes[..within], out) {
        Ok(()) => {}
        Err(stop) => return Err(stop),
    }
    if within < bytes.len() {
        return Err(player.too_long(out));
    }
    feed::end(player, reader, alloc, out)
}
