//! How many decisions a plan of a search may have.

ghost use Rattle.std.specs.Prelude.{◌≡◌, ◌≤◌, option_map};
ghost use Rattle.plus_words.specs.Numbers.{decisions_of};

use crate::numbers::number_of;

// How many digits a word has at most that names such a number.
const DIGITS: usize = 2;

// The greatest such number.
const MOST: u64 = 64;

/// A number of decisions that a plan of a search may have.
#[derive(Clone, Copy)]
pub struct Decisions {
    pub number: u32,
    ghost few: { number ≤ 64 },
}

impl Decisions {
    /// The number that a word names, if it names one.
    pub fn parse(word: &str) -> Option<Decisions>
        ensures { option_map (λ d. d.number) result ≡ decisions_of word.now }
    {
        match number_of(word, DIGITS, 0, MOST) {
            Some(number) => Some(Decisions {
                number: number as u32,
            }),
            None => None,
        }
    }
}
