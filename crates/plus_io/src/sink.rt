//! Sinks, which take bytes.

ghost use Rattle.std.specs.Prelude.{◌≡◌, ℕ, ◌<◌, ◌≤◌, List, take, length, Option, OnOk, IfOk, OnErr};
ghost use Rattle.plus_io.specs.Faults.{Rose};
ghost use Rattle.plus_io.specs.Taken.{Took, TookPart};

use crate::Failed;

/// Takes bytes, as a file or a terminal does.
pub trait Sink {
    /// The bytes taken so far, where the sink tells them.
    ghost taken: { Self → Option (List ℕ) };

    /// How many faults there were. It never falls, and stands still at the greatest `u64`.
    ghost faults: { Self → ℕ };

    /// Takes some first bytes, at least one, and answers how many. A fault takes none.
    fn write(&mut self, from: &[u8]) -> Result<usize, Failed>
        requires { 0 < length from.now }
        ensures some { IfOk result (λ count. 0 < count) }
        ensures within { IfOk result (λ count. count ≤ length from.now) }
        ensures took { IfOk result (λ count.
            Took (taken self.old) (taken self.new) (take count from.now)) }

        ensures cause { OnErr result (Rose (faults self.old) (faults self.new)) }
        ensures stays { OnErr result (taken self.new ≡ taken self.old) }
        ensures no_fall { faults self.old ≤ faults self.new };
}

/// Writes all the bytes, or, after a fault, some first bytes and not all of them.
#[tactic(auto, using(crate::proofs::Pieces::took_more))]
pub fn write_all<O: Sink>(sink: &mut O, bytes: &[u8]) -> Result<(), Failed>
    ensures took { OnOk result (Took (O.taken sink.old) (O.taken sink.new) bytes.now) }
    ensures cause { OnErr result (Rose (O.faults sink.old) (O.faults sink.new)) }
    ensures part { OnErr result (TookPart (O.taken sink.old) (O.taken sink.new) bytes.now) }
    ensures no_fall { O.faults sink.old ≤ O.faults sink.new }
{
    let mut done = 0;
    while done < bytes.len() {
        done += sink.write(&bytes[done..])?;
    }
    Ok(())
}
