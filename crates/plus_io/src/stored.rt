//! Files in memory, of which one may be picked and read.

ghost use Rattle.std.specs.Prelude.{◌≡◌, ℕ, ◌<◌, ◌≤◌, [], None, Some, Contains, min, take, length, unwrap_or, OnOk, OnErr, IfOk};
ghost use Rattle.std.specs.Option.{ForSome};
ghost use Rattle.std.specs.List.{position};
ghost use Rattle.std.specs.Str.{bytes_eq};
ghost use Rattle.plus_io.specs.Named.{names_of, texts_of};
ghost use Rattle.plus_io.specs.Stored.{place_of, name_at, no_files, picked_name, with_name, with_text, with_file, with_named, picking, reading};

use std::alloc::{AllocError, Global};
use std::marker::Model;

#[derive(Drop)]
pub struct File {
    name: Vec<u8>,
    bytes: Vec<u8>,
}

/// A few files, found by their names one after the other. Each name stands once.
#[derive(Drop)]
pub struct Stored {
    alloc: Global,
    files: Vec<File>,
    most: usize,
    picked: Option<usize>,
    at: usize,
}

impl Model for Stored {
    ghost use Rattle.std.specs.Prelude.{◌<◌, ◌≤◌, drop, length};
    ghost use Rattle.std.specs.Option.{ForSome};
    ghost use Rattle.plus_io.specs.Stored.{Texts, text_at};
    ghost use Rattle.plus_io.specs.Named.{names_of, texts_of};

    ghost Value = { Texts };

    ghost view = { λ s. record {
      names = names_of s.files.items;
      texts = texts_of s.files.items;
      most = s.most;
      picked = s.picked;
      rest = drop s.at (text_at (texts_of s.files.items) s.picked);
    } };

    ghost invariant = { λ s. (0 < s.most)
        × ForSome s.picked (λ place. place < length s.files.items)
        × (s.at ≤ length (text_at (texts_of s.files.items) s.picked)) };
}

// The place of the first file with a name.
fn first_named(files: &[File], name: &[u8]) -> Option<usize>
    ensures first { result ≡ position (λ file. bytes_eq file.name.items name.now) files.now }
    ensures within { ForSome result (λ place. place < length files.now) }
{
    files.iter().position(|file| file.name.as_slice() == name)
}

// Puts a text at the place of its name, or as a new file where the name is not there.
fn put_at(
    alloc: Global,
    files: &mut Vec<File>,
    place: Option<usize>,
    name: &[u8],
    bytes: &[u8],
) -> Result<(), AllocError>
    requires { ForSome place (λ place. place < length files.old.items) }
    ensures names { OnOk result (
        names_of files.new.items ≡ with_name place (names_of files.old.items) name.now) }
    ensures texts { OnOk result (
        texts_of files.new.items ≡ with_text place (texts_of files.old.items) bytes.now) }
    ensures err { OnErr result (files.new.items ≡ files.old.items) }
{
    let bytes = Vec::from_slice(alloc, bytes)?;
    match place {
        Some(place) => files[place].bytes = bytes,
        None => {
            let name = Vec::from_slice(alloc, name)?;
            files.push(File { name, bytes })?;
        }
    }
    Ok(())
}

impl Stored {
    pub fn new(alloc: Global) -> Stored
        ensures { result ≡ no_files }
    {
        Stored {
            alloc,
            files: Vec::new(alloc),
            most: usize::MAX,
            picked: None,
            at: 0,
        }
    }

    pub fn set_most(&mut self, most: usize)
        requires { 0 < most }
        ensures { self.new ≡ record self.old { most = most } }
    {
        self.most = most;
    }

    pub fn place_of(&self, name: &[u8]) -> Option<usize>
        ensures place { result ≡ place_of self.now.names name.now }
        ensures within { ForSome result (λ place. place < length self.now.names) }
        ensures found { Contains self.now.names name.now →
            name_at self.now.names result ≡ Some name.now }
        ensures absent { ¬ Contains self.now.names name.now → result ≡ None }
    {
        first_named(&self.files, name)
    }

    pub fn picked(&self) -> Option<usize>
        ensures place { result ≡ self.now.picked }
        ensures within { ForSome result (λ place. place < length self.now.names) }
    {
        self.picked
    }

    pub fn put(&mut self, name: &[u8], bytes: &[u8]) -> Result<(), AllocError>
        ensures ok { OnOk result (self.new ≡ with_file self.old name.now bytes.now) }
        ensures err { OnErr result (self.new ≡ self.old) }
    {
        let place = self.place_of(name);
        put_at(self.alloc, &mut self.files, place, name, bytes)?;
        self.picked = None;
        self.at = 0;
        Ok(())
    }

    /// The place of a name, under which an empty file is put where none is there.
    pub fn add(&mut self, name: &[u8]) -> Result<usize, AllocError>
        ensures place { IfOk result (λ place.
            place ≡ unwrap_or (place_of self.old.names name.now) (length self.old.names)) }
        ensures ok { OnOk result (
            self.new ≡ with_named (place_of self.old.names name.now) self.old name.now) }
        ensures err { OnErr result (self.new ≡ self.old) }
    {
        if let Some(place) = self.place_of(name) {
            return Ok(place);
        }
        let place = self.files.len();
        put_at(self.alloc, &mut self.files, None, name, &[])?;
        Ok(place)
    }

    pub fn pick(&mut self, place: Option<usize>)
        requires { ForSome place (λ place. place < length self.old.names) }
        ensures { self.new ≡ picking self.old place }
    {
        self.picked = place;
        self.at = 0;
    }

    pub fn read(&mut self, into: &mut [u8]) -> usize
        ensures count { result ≡ min (length self.old.rest) (min self.old.most (length into.old)) }
        ensures at_end { 0 < length into.old → result ≡ 0 → self.old.rest ≡ [] }
        ensures unpicked { picked_name self.old ≡ None → result ≡ 0 }
        ensures piece { take result into.new ≡ take result self.old.rest }
        ensures rest { self.new ≡ reading self.old result }
    {
        let Some(place) = self.picked else {
            return 0;
        };
        let rest = &self.files[place].bytes[self.at..];
        let count = rest.len().min(self.most.min(into.len()));
        into[..count].copy_from_slice(&rest[..count]);
        self.at += count;
        count
    }
}
