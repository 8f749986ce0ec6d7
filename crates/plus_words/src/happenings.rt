//! How many moments a plan may enter.

ghost use Rattle.std.specs.Prelude.{◌≡◌, ◌≤◌, option_map};
ghost use Rattle.plus_io.specs.Limits.{most_happenings};
ghost use Rattle.plus_words.specs.Numbers.{happenings_of};

use crate::numbers::number_of;
use plus_io::MOST_HAPPENINGS;

// How many digits a word has at most that names such a number.
const DIGITS: usize = 7;

/// A number of moments that a plan may enter.
#[derive(Clone, Copy)]
pub struct Happenings {
    pub number: u64,
    ghost some: { 1 ≤ number },
    ghost few: { number ≤ most_happenings },
}

impl Happenings {
    /// Where the words name no number.
    pub const DEFAULT: Happenings = Happenings { number: 10000 };

    /// The number that a word names, if it names one.
    pub fn parse(word: &str) -> Option<Happenings>
        ensures { option_map (λ h. h.number) result ≡ happenings_of word.now }
    {
        match number_of(word, DIGITS, 1, MOST_HAPPENINGS) {
            Some(number) => Some(Happenings { number }),
            None => None,
        }
    }
}
