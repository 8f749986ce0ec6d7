//! The standard output as a sink.

ghost use Rattle.std.specs.Prelude.{◌≡◌, ◌<◌, ◌≤◌, length, IfSome};
ghost use Rattle.plus_io.specs.Faults.{Rose};

use plus_io::{Failed, Sink};

// One fault more; the count stands still at its greatest value.
fn raised(faults: u64) -> u64
    ensures { Rose faults result }
{
    faults.saturating_add(1)
}

// Writes some of the bytes; a device that takes none fails.
fn write_some(rt: &impl Print, bytes: &[u8]) -> Option<usize>
    ensures some { IfSome result (λ count. 0 < count) }
    ensures within { IfSome result (λ count. count ≤ length bytes.now) }
{
    match rt.write_some(bytes) {
        Ok(count) if count > 0 => Some(count),
        _ => None,
    }
}

/// Writes to the standard output. It tells nothing of what it took: this is the edge where the
/// system is trusted.
#[derive(Drop)]
pub struct StdSink<'r, R: Print> {
    rt: &'r R,
    faults: u64,
}

impl<'r, R: Print> StdSink<'r, R> {
    /// The standard output of a runtime.
    pub fn new(rt: &'r R) -> Self
        ensures no_fault { result.faults ≡ 0 }
    {
        StdSink { rt, faults: 0 }
    }
}

impl<'r, R: Print> Sink for StdSink<'r, R> {
    ghost use Rattle.std.specs.Prelude.{None};

    ghost taken = { λ _. None };

    ghost faults = { λ s. s.faults };

    fn write(&mut self, from: &[u8]) -> Result<usize, Failed> {
        match write_some(self.rt, from) {
            Some(count) => Ok(count),
            None => {
                self.faults = raised(self.faults);
                Err(Failed)
            }
        }
    }
}
