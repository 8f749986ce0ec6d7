//! What of a report is kept in memory.
ghost use Rattle.std.specs.Prelude.{◌≡◌, [], Some};

use plus_io::{Failed, Sink};
use std::alloc::Global;

/// Bytes of a report that wait in memory. Their only faults are wants of memory.
#[derive(Drop)]
pub struct Report {
    pub bytes: Vec<u8>,
    pub faults: u64,
}

impl Report {
    pub fn new(alloc: Global) -> Report
        ensures { result.bytes.items ≡ [] }
    {
        Report {
            bytes: Vec::new(alloc),
            faults: 0,
        }
    }
}

impl Sink for Report {
    ghost taken = { λ r. Some (r.bytes.items) };

    ghost faults = { λ r. r.faults };

    fn write(&mut self, from: &[u8]) -> Result<usize, Failed> {
        if let Err(_) = self.bytes.extend_from_slice(from) {
            self.faults = self.faults.saturating_add(1);
            return Err(Failed);
        }
        Ok(from.len())
    }
}
