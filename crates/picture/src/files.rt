//! The files that are asked for.

ghost use Rattle.std.specs.Prelude.{◌≤◌, length, IfSome};

use plus_io::{MemShelf, PIECE, TEXT_LIMIT};
use std::alloc::{AllocError, Global};
use std::fs;
use std::fs::Files;
use std::io::Read;

// Reads a piece of a file.
fn read_piece<F: Read>(file: &mut F, into: &mut [u8]) -> Option<usize>
    ensures { IfSome result (λ count. count ≤ length into.new) }
{
    match file.read(into) {
        Ok(count) => Some(count),
        Err(_) => None,
    }
}

// The bytes of a file, as far as they decide: of a text that is too long a piece more than a text may have. There are none
// where it cannot be read.
fn bytes<R: Files>(rt: &R, alloc: Global, name: &str) -> Option<Vec<u8>> {
    let Ok(mut file) = fs::open(rt, name) else {
        return None;
    };
    let mut bytes = Vec::new(alloc);
    let mut buffer = [0u8; PIECE];
    'pieces: for _piece in 0..=TEXT_LIMIT {
        let count = read_piece(&mut file, &mut buffer)?;
        if bytes.extend_from_slice(&buffer[..count]).is_err() {
            return None;
        }
        if count == 0 || bytes.len() > TEXT_LIMIT {
            break;
        }
    }
    Some(bytes)
}

/// A shelf with these files as they are, of which those fail that cannot be read.
pub fn shelf<R: Files>(rt: &R, alloc: Global, names: &[&str]) -> Result<MemShelf, AllocError> {
    let mut shelf = MemShelf::new(alloc);
    for name in names {
        match bytes(rt, alloc, name) {
            Some(bytes) => shelf.put(name, &bytes)?,
            None => shelf.fail(name, 0)?,
        }
    }
    Ok(shelf)
}
