//! Reads the number that a word spells.

ghost use Rattle.std.specs.Prelude.{◌≡◌, ℕ, ◌+◌, ◌*◌, ◌^◌, ◌<◌, ◌≤◌, true, length, slice_index, drop, IfSome};
ghost use Rattle.plus_tokens.specs.Bytes.{is_digit, decimal};
ghost use Rattle.plus_tokens.specs.Lowered.{lowered};
ghost use Rattle.plus_tokens.specs.Numeral.{numeral_of, unsigned};

use crate::lexer::{MOST_PLACES, WHOLE_DIGITS, byte_at, digits_end};

/// The number `digits / 10^places`, with a minus sign where it is negative.
#[derive(Clone, Copy, PartialEq, Eq)]
pub struct Numeral {
    pub negative: bool,
    pub digits: u128,
    pub places: u8,
}

/// The number that a word spells: digits, perhaps with a minus sign before them, and perhaps with a
/// point and digits behind them. It is none where there are more than 19 digits before the point or 9
/// behind it.
#[tactic(auto, using(crate::proofs::Words::with_sign, crate::proofs::Words::without_sign))]
pub fn numeral_of(word: &[u8]) -> Option<Numeral>
    ensures is { result ≡ numeral_of (lowered word.now) }
    ensures few { IfSome result (λ n. n.places ≤ 9) }
{
    if byte_at(word, 0) == b'-' {
        unsigned(true, word, 1)
    } else {
        unsigned(false, word, 0)
    }
}

// The number whose digits begin at an offset.
#[inline(always)]
fn unsigned(negative: bool, word: &[u8], first: usize) -> Option<Numeral>
    requires { first ≤ length word.now }
    ensures is { result ≡ unsigned negative (drop first word.now) }
    ensures few { IfSome result (λ n. n.places ≤ 9) }
{
    let whole_end = digits_end(word, first);
    if whole_end == first || whole_end - first > WHOLE_DIGITS {
        return None;
    }
    let whole = decimal(0, &word[first..whole_end]);
    if whole_end == word.len() {
        return Some(Numeral {
            negative,
            digits: whole,
            places: 0,
        });
    }
    if word[whole_end] != b'.' {
        return None;
    }
    let end = digits_end(word, whole_end + 1);
    if end < word.len() {
        return None;
    }
    let places = end - (whole_end + 1);
    if places == 0 || places > MOST_PLACES as usize {
        return None;
    }
    Some(Numeral {
        negative,
        digits: decimal(whole, &word[whole_end + 1..]),
        places: places as u8,
    })
}

// The number that digits spell after those of a number so far.
fn decimal(so_far: u128, digits: &[u8]) -> u128
    requires small { so_far < 10 ^ 19 }
    requires few { length digits.now ≤ 19 }
    requires digits { (k : ℕ) → k < length digits.now → is_digit (slice_index digits.now k) ≡ true }
    ensures value { result ≡ decimal so_far digits.now }
    ensures below { result < (so_far + 1) * 10 ^ length digits.now }
{
    let mut n = so_far;
    for b in digits {
        n = 10 * n + u128::from(*b - b'0');
    }
    n
}
