//! A shelf and a sink that never fail.

ghost use Rattle.std.specs.Prelude.{◌≡◌, ℕ, ◌+◌, ◌-◌, ◌^◌, ◌<◌, ◌≤◌, min, [], Some, None, take, length, OnOk, OnErr, IfOk, IsOk};
ghost use Rattle.plus_io.specs.Stored.{no_files, text_under, picked_name, with_file};

use crate::stored::Stored;
use crate::{Failed, Shelf, Sink};
use std::alloc::{AllocError, Global};
use std::marker::Model;

/// A shelf in memory that never fails. Its count of faults is the constant 0.
#[derive(Drop)]
pub struct QuietShelf {
    stored: Stored,
}

impl QuietShelf {
    ghost use Rattle.plus_io.specs.QuietShelf.{files_of};

    /// A shelf with no files, made for no name, that reads as much at once as it is asked for.
    pub fn new(alloc: Global) -> QuietShelf
        ensures { files_of result ≡ no_files }
    {
        QuietShelf {
            stored: Stored::new(alloc),
        }
    }

    /// Puts a file under a name, in the place of the one that is there. Nothing is picked then.
    pub fn put(&mut self, name: &str, bytes: &[u8]) -> Result<(), AllocError>
        ensures ok { OnOk result (
            files_of self.new ≡ with_file (files_of self.old) name.now bytes.now) }
        ensures err { OnErr result (files_of self.new ≡ files_of self.old) }
    {
        self.stored.put(name.as_bytes(), bytes)
    }

    /// Sets how many bytes one read gives at most.
    pub fn pieces(&mut self, most: usize)
        requires { 0 < most }
        ensures { files_of self.new ≡ record (files_of self.old) { most = most } }
    {
        self.stored.set_most(most);
    }
}

impl Shelf for QuietShelf {
    ghost names = { λ s. s.stored.names };

    ghost bytes = { λ s name. Some (text_under s.stored name) };

    ghost picked = { λ s. picked_name s.stored };

    ghost rest = { λ s. Some s.stored.rest };

    ghost picks = { λ _. None };

    ghost faults = { λ _. 0 };

    fn pick(&mut self, name: &str) -> Result<(), Failed> {
        let place = self.stored.place_of(name.as_bytes());
        self.stored.pick(place);
        Ok(())
    }

    fn read(&mut self, into: &mut [u8]) -> Result<usize, Failed> {
        Ok(self.stored.read(into))
    }
}

/// A sink that throws bytes away and only counts them. It tells nothing and never fails.
#[derive(Drop)]
pub struct QuietSink {
    count: u64,
}

impl Model for QuietSink {
    ghost use Rattle.std.specs.Prelude.{ℕ};

    ghost Value = { ℕ };

    ghost view = { λ s. s.count };
}

impl QuietSink {
    pub fn new() -> QuietSink
        ensures { result ≡ 0 }
    {
        QuietSink { count: 0 }
    }

    /// How many bytes it took, held at the greatest `u64`.
    pub fn count(&self) -> u64
        ensures { result ≡ self.now }
    {
        self.count
    }
}

impl Sink for QuietSink {
    ghost taken = { λ _. None };

    ghost faults = { λ _. 0 };

    fn write(&mut self, from: &[u8]) -> Result<usize, Failed>
        requires { 0 < length from.now }
        ensures some { IfOk result (λ count. 0 < count) }
        ensures within { IfOk result (λ count. count ≤ length from.now) }
        ensures never { IsOk result }
        ensures counts { IfOk result (λ count. self.new ≡ min (self.old + count) (2 ^ 64 - 1)) }
    {
        self.count = self.count.saturating_add(from.len() as u64);
        Ok(from.len())
    }
}
