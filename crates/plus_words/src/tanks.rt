//! How many tanks a trial has.

ghost use Rattle.std.specs.Prelude.{◌≡◌, ◌≤◌, option_map};
ghost use Rattle.plus_words.specs.Numbers.{tanks_of};

use crate::numbers::number_of;

// How many digits a word has at most that names such a number.
const DIGITS: usize = 4;

// The greatest such number.
const MOST: u64 = 1000;

/// A number of tanks.
#[derive(Clone, Copy)]
pub struct Tanks {
    pub number: u32,
    ghost some: { 1 ≤ number },
    ghost few: { number ≤ 1000 },
}

impl Tanks {
    /// The number that a word names, if it names one.
    pub fn parse(word: &str) -> Option<Tanks>
        ensures { option_map (λ t. t.number) result ≡ tanks_of word.now }
    {
        match number_of(word, DIGITS, 1, MOST) {
            Some(number) => Some(Tanks {
                number: number as u32,
            }),
            None => None,
        }
    }
}
