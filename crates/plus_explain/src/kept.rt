//! A shelf that keeps what is read through it.

ghost use Rattle.std.specs.Prelude.{◌≡◌};

use plus_io::{Failed, Shelf};
use std::alloc::{AllocError, Global};

/// A text as far as it was read.
#[derive(Drop)]
struct Read {
    name: String,
    bytes: Vec<u8>,
}

/// A shelf that hands on another shelf's answers and keeps the texts, as far as they are read. Where
/// memory is wanting for that, it answers as ever and keeps nothing more.
#[derive(Drop)]
pub struct Kept<S: Shelf + Drop> {
    alloc: Global,
    shelf: S,
    texts: Vec<Read>,
    has_failed: bool,
    is_whole: bool,
}

impl<S: Shelf + Drop> Kept<S> {
    /// A shelf over another one, of which nothing is read yet.
    pub fn new(alloc: Global, shelf: S) -> Kept<S>
        ensures { result.shelf ≡ shelf }
    {
        Kept {
            alloc,
            shelf,
            texts: Vec::new(alloc),
            has_failed: false,
            is_whole: true,
        }
    }

    // Puts an empty text of this name behind the others.
    fn push(&mut self, name: &str) -> Result<(), AllocError>
        ensures { self.new.shelf ≡ self.old.shelf }
    {
        self.texts.push(Read {
            name: String::from_str(self.alloc, name)?,
            bytes: Vec::new(self.alloc),
        })?;
        Ok(())
    }

    // Begins the text of this name.
    fn begin(&mut self, name: &str)
        ensures { self.new.shelf ≡ self.old.shelf }
    {
        if self.is_whole && self.push(name).is_err() {
            self.is_whole = false;
        }
    }

    // Puts a piece behind what was read of the last text.
    fn keep(&mut self, piece: &[u8])
        ensures { self.new.shelf ≡ self.old.shelf }
    {
        if !self.is_whole {
            return;
        }
        if let Some(last) = self.texts.last_mut() {
            if last.bytes.extend_from_slice(piece).is_err() {
                self.is_whole = false;
            }
        }
    }

    /// What was read of the text of this name, if it was picked and all that was read is kept.
    pub fn text(&self, name: &str) -> Option<&[u8]> {
        if !self.is_whole {
            return None;
        }
        for read in &self.texts {
            if read.name.as_str() == name {
                return Some(&read.bytes);
            }
        }
        None
    }

    /// The name of the text that could not be picked or read, if there was a fault.
    pub fn failed(&self) -> Option<&str> {
        if !self.has_failed {
            return None;
        }
        match self.texts.last() {
            Some(read) => Some(read.name.as_str()),
            None => None,
        }
    }
}

impl<S: Shelf + Drop> Shelf for Kept<S> {
    ghost names = { λ k. S.names k.shelf };

    ghost bytes = { λ k. S.bytes k.shelf };

    ghost picked = { λ k. S.picked k.shelf };

    ghost rest = { λ k. S.rest k.shelf };

    ghost picks = { λ k. S.picks k.shelf };

    ghost faults = { λ k. S.faults k.shelf };

    fn pick(&mut self, name: &str) -> Result<(), Failed> {
        self.begin(name);
        let answer = self.shelf.pick(name);
        self.has_failed = answer.is_err();
        answer
    }

    fn read(&mut self, into: &mut [u8]) -> Result<usize, Failed> {
        match self.shelf.read(into) {
            Ok(count) => {
                self.keep(&into[..count]);
                Ok(count)
            }
            Err(failed) => {
                self.has_failed = true;
                Err(failed)
            }
        }
    }
}
