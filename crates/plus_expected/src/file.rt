//! The files of a command, as they were read.

use plus_explain::{Kept, append_place, word_for};
use plus_io::Shelf;
use std::alloc::AllocError;

/// A file, and its text as far as it was read.
#[derive(Clone, Copy)]
pub struct File<'a> {
    pub name: &'a str,
    pub text: &'a [u8],
}

impl<'a> File<'a> {
    /// The file that a name of the words' command stands for, as `domain`.
    pub fn of<S: Shelf + Drop>(
        words: &'a [String],
        shelf: &'a Kept<S>,
        name: &str,
    ) -> Option<File<'a>> {
        let name = word_for(words, name)?;
        let text = shelf.text(name)?;
        Some(File { name, text })
    }

    /// Appends the place of some bytes of the text and a reason, their line, and a mark. Where the text has no such
    /// place it appends nothing.
    pub fn append_place(
        &self,
        into: &mut Vec<u8>,
        start: usize,
        end: usize,
        why: &str,
    ) -> Result<(), AllocError> {
        if start > self.text.len() {
            return Ok(());
        }
        append_place(into, self.name, self.text, start, end, why)
    }
}
