//! The line that sums a trial up.
ghost use Rattle.std.specs.Prelude.{◌≡◌, IfOk};
ghost use Rattle.plus_trial.specs.Summary.{word_text, summary_text};

use crate::text::{put, put_numbered};
use std::alloc::{AllocError, Global};

/// The first word of a verdict.
#[derive(Clone, Copy, Debug, PartialEq, Eq)]
pub enum Word {
    Valid,
    Invalid,
    Beyond,
    /// Of `bad text`.
    Bad,
}

/// What is said of a trial.
#[derive(Clone, Copy, Debug, PartialEq, Eq)]
pub struct Summary {
    /// How many tanks it has.
    pub tanks: u32,
    /// The first word of its verdict.
    pub word: Word,
    /// How many moments are entered.
    pub entries: u64,
    /// How many events fire.
    pub firings: u64,
}

fn word_of(word: Word) -> &'static [u8]
    ensures { result.now ≡ word_text word }
{
    match word {
        Word::Valid => b"valid",
        Word::Invalid => b"invalid",
        Word::Beyond => b"beyond",
        Word::Bad => b"bad",
    }
}

/// The line.
pub fn summary_text(alloc: Global, summary: Summary) -> Result<Vec<u8>, AllocError>
    ensures { IfOk result (λ text. text.items ≡ summary_text summary) }
{
    let mut text = Vec::new(alloc);
    put_numbered(&mut text, b"trial ", summary.tanks as u64, b": ")?;
    put(&mut text, word_of(summary.word))?;
    put_numbered(&mut text, b", ", summary.entries, b" happenings")?;
    put_numbered(&mut text, b", ", summary.firings, b" events\n")?;
    Ok(text)
}
