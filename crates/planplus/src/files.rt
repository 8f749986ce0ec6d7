//! Real files as a shelf.

ghost use Rattle.std.specs.Io.KnownBytes.{Consumes, IsAtEnd};
ghost use Rattle.std.specs.Prelude.{◌≡◌, ◌<◌, ◌≤◌, take, length, map, position, string_bytes, None, IfSome, IfOk};
ghost use Rattle.std.specs.Str.{bytes_eq};
ghost use Rattle.plus_io.specs.Stored.{place_of};
ghost use Rattle.plus_io.specs.Faults.{Rose};
ghost use Rattle.plus_run.specs.Command.{command_of, files_of};

use plus_io::{Failed, Shelf};
use plus_run::command::files;
use std::alloc::{AllocError, Global};
use std::fs;
use std::fs::Files;
use std::io::Read;

// A file that is picked, and the place of its name.
#[derive(Drop)]
struct Picked<F: Drop> {
    place: usize,
    file: F,
}

/// Reads real files. It is made for a list of names: a name outside of it has no bytes, and a listed
/// name without a file is a fault at its pick. It tells nothing of what the files hold: this is the
/// edge where the system is trusted.
#[derive(Drop)]
pub struct FileShelf<'r, R: Files> {
    rt: &'r R,
    names: Vec<String>,
    picked: Option<Picked<R::File>>,
    faults: u64,
}

fn first_named(names: &[String], name: &str) -> Option<usize>
    ensures { result ≡ position (λ n. bytes_eq (string_bytes n) name.now) names.now }
{
    names.iter().position(|n| n.as_str() == name)
}

// The place of a name.
fn place(names: &[String], name: &str) -> Option<usize>
    ensures { result ≡ place_of (map string_bytes names.now) name.now }
{
    first_named(names, name)
}

// One fault more; the count stands still at its greatest value.
fn raised(faults: u64) -> u64
    ensures { Rose faults result }
{
    faults.saturating_add(1)
}

// Reads a piece off the front of what a file has left, which is empty only at the end; at a fault
// nothing is read.
fn read_piece<F: Read>(file: &mut F, into: &mut [u8]) -> Option<usize>
    ensures within { IfSome result (λ count. count ≤ length into.new) }
    ensures piece { IfSome result (λ count.
        Consumes (F.remaining file.old) (F.remaining file.new) (take count into.new)) }
    ensures at_end { 0 < length into.new →
        IfSome result (λ count. count ≡ 0 → IsAtEnd (F.remaining file.new)) }
{
    match file.read(into) {
        Ok(count) => Some(count),
        Err(_) => None,
    }
}

impl<'r, R: Files> FileShelf<'r, R> {
    /// A shelf of real files, made for these names.
    pub fn new(rt: &'r R, names: Vec<String>) -> Self
        ensures names { result.names ≡ names }
        ensures unpicked { result.picked ≡ None }
        ensures no_fault { result.faults ≡ 0 }
    {
        FileShelf {
            rt,
            names,
            picked: None,
            faults: 0,
        }
    }
}

/// The shelf of the files that the words name, and of no others.
pub fn shelf_for<'r, R: Files>(
    rt: &'r R,
    alloc: Global,
    words: &[String],
) -> Result<FileShelf<'r, R>, AllocError>
    ensures names { IfOk result (λ shelf.
        map string_bytes shelf.names.items ≡ files_of (command_of (map string_bytes words.now))) }
    ensures no_fault { IfOk result (λ shelf. shelf.faults ≡ 0) }
{
    let names = files(alloc, words)?;
    Ok(FileShelf::new(rt, names))
}

impl<'r, R: Files> Shelf for FileShelf<'r, R> {
    ghost use Rattle.std.specs.Prelude.{[], map, string_bytes, slice_index_or, option_map};

    ghost names = { λ s. map string_bytes s.names.items };

    ghost bytes = { λ _ _. None };

    ghost picked = { λ s. option_map (λ p. slice_index_or (map string_bytes s.names.items) p.place []) s.picked };

    ghost rest = { λ _. None };

    ghost picks = { λ _. None };

    ghost faults = { λ s. s.faults };

    #[tactic(auto, using(crate::proofs::FilesLemmas::picking))]
    fn pick(&mut self, name: &str) -> Result<(), Failed> {
        self.picked = None;
        if let Some(place) = place(&self.names, name) {
            match fs::open(self.rt, name) {
                Ok(file) => self.picked = Some(Picked { place, file }),
                Err(_) => {
                    self.faults = raised(self.faults);
                    return Err(Failed);
                }
            }
        }
        Ok(())
    }

    fn read(&mut self, into: &mut [u8]) -> Result<usize, Failed> {
        match &mut self.picked {
            None => Ok(0),
            Some(picked) => match read_piece(&mut picked.file, into) {
                Some(count) => Ok(count),
                None => {
                    self.faults = raised(self.faults);
                    Err(Failed)
                }
            },
        }
    }
}
