//! A sink in memory, with failures that are listed beforehand.

ghost use Rattle.plus_io.specs.Faults.{one_more};
ghost use Rattle.std.specs.Prelude.{◌≡◌, ◌⊎◌, ℕ, ◌<◌, ◌≤◌, [], ◌∷◌, ◌++◌, Some, Contains, min, take, length, OnOk, OnErr, IfOk, IsErr, IsTrue, ◌↔◌};

use crate::{Failed, Sink};
use std::alloc::{AllocError, Global};

/// A sink in memory that tells its bytes. It stands for a device: where memory is refused, that is
/// a fault of its own. Otherwise it fails where a failure is listed, and nowhere else.
#[derive(Drop)]
pub struct MemSink {
    bytes: Vec<u8>,
    most: usize,
    listed: Vec<u64>,
    writes: u64,
    faults: u64,
    ghost some: { 0 < most },
}

impl MemSink {
    ghost use Rattle.plus_io.specs.MemSink.{SinkState, sink_state};

    /// A sink that takes at most `most` bytes at once.
    pub fn new(alloc: Global, most: usize) -> MemSink
        requires { 0 < most }
        ensures { sink_state result ≡ record {
          bytes = [];
          most = most;
          listed = [];
          writes = 0;
          faults = 0;
        } }
    {
        MemSink {
            bytes: Vec::new(alloc),
            most,
            listed: Vec::new(alloc),
            writes: 0,
            faults: 0,
        }
    }

    /// Lists the number of a write that is to fail, from 1.
    pub fn fail(&mut self, call: u64) -> Result<(), AllocError>
        ensures ok { OnOk result (sink_state self.new ≡ record (sink_state self.old) {
          listed = (sink_state self.old).listed ++ call ∷ [];
        }) }
        ensures err { OnErr result (sink_state self.new ≡ sink_state self.old) }
    {
        self.listed.push(call)?;
        Ok(())
    }

    /// The bytes taken so far.
    pub fn bytes(&self) -> &[u8]
        ensures { result.now ≡ (sink_state self.now).bytes }
    {
        &self.bytes
    }

    // Counts a fault.
    fn fault(&mut self) -> Failed
        ensures counted { self.new ≡ record self.old { faults = one_more self.old.faults } }
        ensures no_fall { self.old.faults ≤ self.new.faults }
    {
        self.faults = self.faults.saturating_add(1);
        Failed
    }
}

fn is_listed(listed: &[u64], write: u64) -> bool
    ensures { IsTrue result ↔ Contains listed.now write }
{
    listed.contains(&write)
}

impl Sink for MemSink {
    ghost use Rattle.plus_io.specs.MemSink.{sink_state, after_write, after_failed_write, room};

    ghost taken = { λ s. Some s.bytes.items };

    ghost faults = { λ s. s.faults };

    // Takes some first bytes, unless a failure of this write is listed or memory is refused.
    fn write(&mut self, from: &[u8]) -> Result<usize, Failed>
        ensures ok { IfOk result (λ count.
            sink_state self.new ≡ after_write (sink_state self.old) (take count from.now)) }
        ensures count { IfOk result (λ count.
            count ≡ min (sink_state self.old).most (length from.now)) }
        ensures err { OnErr result (
            sink_state self.new ≡ after_failed_write (sink_state self.old)) }
        ensures no_fall { (sink_state self.old).faults ≤ (sink_state self.new).faults }
        ensures listed { Contains (sink_state self.old).listed (one_more (sink_state self.old).writes) →
            IsErr result }
        // It fails nowhere else, unless it had to ask for memory.
        ensures fails { IsErr result →
            Contains (sink_state self.old).listed (one_more (sink_state self.old).writes)
            ⊎ (room self.old < min (sink_state self.old).most (length from.now)) }
    {
        self.writes = self.writes.saturating_add(1);
        if is_listed(&self.listed, self.writes) {
            return Err(self.fault());
        }
        let count = self.most.min(from.len());
        match self.bytes.extend_from_slice(&from[..count]) {
            Ok(()) => Ok(count),
            Err(_) => Err(self.fault()),
        }
    }
}
