//! A shelf in memory, with failures that are listed beforehand.

ghost use Rattle.std.specs.Prelude.{◌≡◌, ℕ, ◌+◌, ◌<◌, ◌≤◌, [], Some, None, Ok, Contains, true, take, min, length, IsOk, IsErr, OnOk, OnErr, IfOk, ◌↔◌};
ghost use Rattle.plus_io.specs.Faults.{one_more};
ghost use Rattle.plus_io.specs.MemShelf.{state_of, is_listed, has_failure, with_failure, after_pick, after_fault};
ghost use Rattle.plus_io.specs.Stored.{place_of, no_files, text_under, picked_name, with_file, reading};

use crate::stored::Stored;
use crate::{Failed, Shelf};
use std::alloc::{AllocError, Global};

/// A failure that is to come: at the pick of the file at a place, which is call 0, or at the read
/// of that number since.
#[derive(Clone, Copy)]
pub struct Listed {
    place: usize,
    call: u64,
}

/// A shelf in memory that tells all its bytes. It fails where a failure is listed, and nowhere
/// else. A missing file is played by a listed failure of its pick.
#[derive(Drop)]
pub struct MemShelf {
    stored: Stored,
    listed: Vec<Listed>,
    reads: u64,
    faults: u64,
}

impl MemShelf {
    /// A shelf with no files, made for no name, that reads as much at once as it is asked for.
    pub fn new(alloc: Global) -> MemShelf
        ensures { state_of result ≡ record { stored = no_files; listed = []; reads = 0; faults = 0 } }
    {
        MemShelf {
            stored: Stored::new(alloc),
            listed: Vec::new(alloc),
            reads: 0,
            faults: 0,
        }
    }

    /// Puts a file under a name, in the place of the one that is there. Nothing is picked then.
    pub fn put(&mut self, name: &str, bytes: &[u8]) -> Result<(), AllocError>
        ensures ok { OnOk result (state_of self.new ≡ record (state_of self.old) {
          stored = with_file (state_of self.old).stored name.now bytes.now;
        }) }
        ensures err { OnErr result (state_of self.new ≡ state_of self.old) }
    {
        self.stored.put(name.as_bytes(), bytes)
    }

    /// Sets how many bytes one read gives at most.
    pub fn pieces(&mut self, most: usize)
        requires { 0 < most }
        ensures { state_of self.new ≡ record (state_of self.old) {
          stored = record (state_of self.old).stored { most = most };
        } }
    {
        self.stored.set_most(most);
    }

    /// Lists a failure: of the pick of a name, which is call 0, or of the read of that number
    /// since. From then on the shelf is made for that name.
    pub fn fail(&mut self, name: &str, call: u64) -> Result<(), AllocError>
        ensures ok { OnOk result (
            state_of self.new ≡ with_failure (state_of self.old) name.now call) }
        ensures err { OnErr result (state_of self.new ≡ state_of self.old) }
    {
        self.listed.reserve(1)?;
        let place = self.stored.add(name.as_bytes())?;
        self.listed.push(Listed { place, call }).unwrap();
        Ok(())
    }
}

// Whether a failure of this call is listed for the file at a place.
fn is_listed(listed: &[Listed], place: Option<usize>, call: u64) -> bool
    ensures { result ≡ is_listed listed.now place call }
{
    match place {
        Some(place) => has_failure(listed, place, call),
        None => false,
    }
}

fn has_failure(listed: &[Listed], place: usize, call: u64) -> bool
    ensures { result ≡ has_failure listed.now place call }
{
    listed
        .iter()
        .any(|failure| failure.place == place && failure.call == call)
}

impl Shelf for MemShelf {
    ghost names = { λ s. s.stored.names };

    ghost bytes = { λ s name. Some (text_under s.stored name) };

    ghost picked = { λ s. picked_name s.stored };

    ghost rest = { λ s. Some s.stored.rest };

    ghost picks = { λ _. None };

    ghost faults = { λ s. s.faults };

    // Picks a file, which fails where that is listed as call 0.
    fn pick(&mut self, name: &str) -> Result<(), Failed>
        ensures fails { IsErr result ↔ (is_listed (state_of self.old).listed
            (place_of (state_of self.old).stored.names name.now) 0 ≡ true) }
        ensures ok { OnOk result (state_of self.new ≡ after_pick (state_of self.old)
            (place_of (state_of self.old).stored.names name.now)) }
        ensures err { OnErr result (
            state_of self.new ≡ after_fault (after_pick (state_of self.old) None)) }
        ensures no_fall { (state_of self.old).faults ≤ (state_of self.new).faults }
        ensures found { Contains (state_of self.old).stored.names name.now →
            OnOk result (picked_name (state_of self.new).stored ≡ Some name.now) }
        ensures absent { ¬ Contains (state_of self.old).stored.names name.now →
            IsOk result × ((state_of self.new).stored.picked ≡ None) }
    {
        let place = self.stored.place_of(name.as_bytes());
        self.reads = 0;
        if is_listed(&self.listed, place, 0) {
            self.stored.pick(None);
            self.faults = self.faults.saturating_add(1);
            return Err(Failed);
        }
        self.stored.pick(place);
        Ok(())
    }

    // Reads a piece, which fails where that is listed for this read.
    fn read(&mut self, into: &mut [u8]) -> Result<usize, Failed>
        ensures fails { IsErr result ↔ (is_listed (state_of self.old).listed
            (state_of self.old).stored.picked (one_more (state_of self.old).reads) ≡ true) }
        ensures ok { IfOk result (λ count. state_of self.new ≡ record (state_of self.old) {
          stored = reading (state_of self.old).stored count;
          reads = one_more (state_of self.old).reads;
        }) }
        ensures err { OnErr result (state_of self.new ≡ after_fault (record (state_of self.old) {
          reads = one_more (state_of self.old).reads;
        })) }
        ensures count { IfOk result (λ count. count ≡ min (length (state_of self.old).stored.rest)
            (min (state_of self.old).stored.most (length into.old))) }
        ensures piece { IfOk result (λ count.
            take count into.new ≡ take count (state_of self.old).stored.rest) }
        ensures no_fall { (state_of self.old).faults ≤ (state_of self.new).faults }
        ensures at_end { 0 < length into.old →
            IfOk result (λ count. count ≡ 0 → (state_of self.old).stored.rest ≡ []) }
        ensures unpicked { picked_name (state_of self.old).stored ≡ None → result ≡ Ok 0 }
    {
        self.reads = self.reads.saturating_add(1);
        if is_listed(&self.listed, self.stored.picked(), self.reads) {
            self.faults = self.faults.saturating_add(1);
            return Err(Failed);
        }
        Ok(self.stored.read(into))
    }
}
