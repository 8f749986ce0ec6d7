//! A sink that keeps the end of what it takes.

ghost use Rattle.std.specs.Prelude.{◌≡◌, ◌+◌, ◌-◌, ◌≤◌, ◌++◌, drop, length, IfSome};
ghost use Rattle.plus_explain.specs.Place.{line_before};

use crate::place::line_start;
use plus_io::{Failed, Sink};
use std::alloc::{AllocError, Global};
use std::str;

/// How many of the last bytes are kept at least.
const KEPT: usize = 8192;

/// A sink that hands on to another one and keeps the end of what that takes.
#[derive(Drop)]
pub struct Ending<O: Sink + Drop> {
    alloc: Global,
    sink: O,
    last: Vec<u8>,
    has_failed: bool,
    is_kept: bool,
}

/// The last line of a text, where the text ends with its line feed.
pub fn last_line(text: &[u8]) -> Option<&[u8]>
    ensures { IfSome result (λ line. line.now ≡ line_before text.now (length text.now - 1)) }
{
    match text {
        [.., b'\n'] => {
            let end = text.len() - 1;
            Some(&text[line_start(text, end)..end])
        }
        _ => None,
    }
}

impl<O: Sink + Drop> Ending<O> {
    /// A sink over another one, of which nothing is kept yet.
    pub fn new(alloc: Global, sink: O) -> Ending<O>
        ensures { result.sink ≡ sink }
    {
        Ending {
            alloc,
            sink,
            last: Vec::new(alloc),
            has_failed: false,
            is_kept: true,
        }
    }

    // Puts a piece behind what is kept, of which the front is let go where there is too much.
    fn append(&mut self, piece: &[u8]) -> Result<(), AllocError>
        ensures { self.new.sink ≡ self.old.sink }
    {
        let piece = &piece[piece.len().saturating_sub(KEPT)..];
        if piece.len() == KEPT {
            self.last.clear();
        }
        if self.last.len() > 2 * KEPT {
            let front = self.last.len() - KEPT;
            self.last = Vec::from_slice(self.alloc, &self.last[front..])?;
        }
        self.last.extend_from_slice(piece)
    }

    // Keeps a piece that was taken.
    fn keep(&mut self, piece: &[u8])
        ensures { self.new.sink ≡ self.old.sink }
    {
        if self.is_kept && self.append(piece).is_err() {
            self.is_kept = false;
        }
    }

    /// The last line that was taken, if it is whole and its end was taken.
    pub fn last_line(&self) -> Option<&[u8]> {
        if self.is_kept {
            last_line(&self.last)
        } else {
            None
        }
    }

    /// The last line that was taken, as a text.
    pub fn verdict(&self) -> Option<&str> {
        str::from_utf8(self.last_line()?).ok()
    }

    /// Whether there was a fault.
    pub fn has_failed(&self) -> bool {
        self.has_failed
    }
}

impl<O: Sink + Drop> Sink for Ending<O> {
    ghost taken = { λ e. O.taken e.sink };

    ghost faults = { λ e. O.faults e.sink };

    fn write(&mut self, from: &[u8]) -> Result<usize, Failed> {
        match self.sink.write(from) {
            Ok(count) => {
                self.keep(&from[..count]);
                Ok(count)
            }
            Err(failed) => {
                self.has_failed = true;
                Err(failed)
            }
        }
    }
}
