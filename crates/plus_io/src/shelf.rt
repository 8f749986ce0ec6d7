//! Shelves: byte texts under names, which are read piece by piece.

ghost use Rattle.std.specs.Prelude.{◌≡◌, ◌⊎◌, ℕ, ◌+◌, ◌<◌, ◌≤◌, List, [], take, length, vec_len, Contains, Option, None, Some, IsOk, IfSome, OnOk, IfOk, OnErr, IsErrOf};
ghost use Rattle.plus_io.specs.Faults.{Rose};
ghost use Rattle.std.specs.Io.KnownBytes.{IsAtEnd};
ghost use Rattle.plus_io.specs.Files.{IsUnpicked, KeepsFiles, IsPrefix, Takes, TakesAtMost};
ghost use Rattle.plus_io.specs.Picks.{Pick, ReadsOnce, with_pick, with_read};

use crate::{Failed, PIECE, ReadStop};

/// Byte texts under names. One is picked, and then read piece by piece.
///
/// A shelf is made for a list of names. A name outside of it has no bytes and is never the cause
/// of a fault.
pub trait Shelf {
    /// The names that the shelf is made for.
    ghost names: { Self → List (List ℕ) };

    /// The bytes under a name, where the shelf tells them.
    ghost bytes: { Self → List ℕ → Option (List ℕ) };

    /// The name that is picked, if any.
    ghost picked: { Self → Option (List ℕ) };

    /// What is unread of the text that is picked, where the shelf tells it.
    ghost rest: { Self → Option (List ℕ) };

    /// The picks so far that did not fail, the latest first, each with how many bytes were read
    /// from then to the next, where the shelf tells them.
    ghost picks: { Self → Option (List Pick) };

    /// How many faults there were. It never falls, and stands still at the greatest `u64`.
    ghost faults: { Self → ℕ };

    /// Picks the text under a name, to be read from its first byte.
    fn pick(&mut self, name: &str) -> Result<(), Failed>
        ensures picked { OnOk result (
            Contains (names self.old) name.now → picked self.new ≡ Some name.now) }
        ensures rest { OnOk result (rest self.new ≡ bytes self.old name.now) }

        // After a fault nothing is picked.
        ensures cause { OnErr result (Rose (faults self.old) (faults self.new)) }
        ensures nothing { OnErr result (picked self.new ≡ None) }
        ensures no_rest { OnErr result (IsAtEnd (rest self.new)) }

        // Under a name outside the list there is nothing to pick.
        ensures outside { ¬ Contains (names self.old) name.now →
            IsOk result × (picked self.new ≡ None) × (faults self.new ≡ faults self.old) }

        // A pick that failed is not told.
        ensures told { OnOk result (picks self.new ≡ with_pick name.now 0 (picks self.old)) }
        ensures untold { OnErr result (picks self.new ≡ picks self.old) }
        ensures keeps { KeepsFiles names bytes faults self.old self.new };

    /// Reads the next piece to the front of `into`, and answers how many bytes it has: 0 only at
    /// the end of the text. What stands in `into` behind the piece is left open.
    fn read(&mut self, into: &mut [u8]) -> Result<usize, Failed>
        requires { 0 < length into.old }
        ensures fits { IfOk result (λ count. count ≤ length into.new) }
        ensures piece { IfOk result (λ count.
            Takes (rest self.old) (rest self.new) (take count into.new)) }
        ensures at_end { IfOk result (λ count. count ≡ 0 → IsAtEnd (rest self.old)) }

        ensures cause { OnErr result (Rose (faults self.old) (faults self.new)) }
        ensures stays { OnErr result (rest self.new ≡ rest self.old) }

        ensures picked { picked self.new ≡ picked self.old }
        ensures nothing { picked self.old ≡ None →
            (result ≡ Ok 0) × (faults self.new ≡ faults self.old) }

        ensures told { IfOk result (λ count. picks self.new ≡ with_read count (picks self.old)) }
        ensures untold { OnErr result (picks self.new ≡ picks self.old) }
        ensures keeps { KeepsFiles names bytes faults self.old self.new };
}

/// Reads the text under a name whole, if it has at most `limit` bytes.
///
/// At `TooLong` the vector has the first `limit` bytes. At `Failed` and `Memory` it has some first
/// bytes, as many as were read before.
pub fn read_all<S: Shelf>(
    shelf: &mut S,
    name: &str,
    limit: usize,
    into: &mut Vec<u8>,
) -> Result<(), ReadStop>
    requires { vec_len into.old ≡ 0 }

    ensures whole { OnOk result (
        IfSome (S.bytes shelf.old name.now) (λ bytes. into.new.items ≡ bytes)) }
    ensures within { vec_len into.new ≤ limit }
    ensures too_long { IsErrOf result ReadStop.TooLong →
        IfSome (S.bytes shelf.old name.now) (λ bytes.
        (limit < length bytes) × (into.new.items ≡ take limit bytes)) }
    ensures full { IsErrOf result ReadStop.TooLong → vec_len into.new ≡ limit }
    ensures cause { IsErrOf result ReadStop.Failed →
        Rose (S.faults shelf.old) (S.faults shelf.new) }
    ensures prefix { OnErr result (IfSome (S.bytes shelf.old name.now) (IsPrefix into.new.items)) }

    // The name is picked once, and at most one byte past the limit is taken of its text: the rest
    // stays picked, or nothing where the pick failed.
    ensures reads { ReadsOnce S.bytes S.picked S.rest S.picks (limit + 1) name.now
        shelf.old shelf.new }
    ensures taken { IsUnpicked result (S.picked shelf.new) into.new.items
        ⊎ TakesAtMost (limit + 1) (S.bytes shelf.old name.now) (S.rest shelf.new) }
    ensures picked { IsUnpicked result (S.picked shelf.new) into.new.items
        ⊎ (Contains (S.names shelf.old) name.now → S.picked shelf.new ≡ Some name.now) }
    ensures to_the_end { OnOk result (IsAtEnd (S.rest shelf.new)) }

    ensures outside { ¬ Contains (S.names shelf.old) name.now →
        IsOk result × (into.new.items ≡ []) × (S.faults shelf.new ≡ S.faults shelf.old) }
    ensures keeps { KeepsFiles S.names S.bytes S.faults shelf.old shelf.new }
{
    shelf.pick(name)?;
    let mut buffer = [0u8; PIECE];
    loop {
        let room = limit - into.len();
        let piece = &mut buffer[..room.min(PIECE - 1) + 1];
        let count = shelf.read(piece)?;
        if count == 0 {
            return Ok(());
        }
        if count > room {
            into.extend_from_slice(&piece[..room])?;
            return Err(ReadStop::TooLong);
        }
        into.extend_from_slice(&piece[..count])?;
    }
}
