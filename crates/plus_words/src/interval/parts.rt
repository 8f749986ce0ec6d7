//! The two parts of the fraction that a word spells.

ghost use Rattle.std.specs.Prelude.{◌≡◌, ◌≤◌};
ghost use Rattle.std.specs.Char.{is_ascii_digit};
ghost use Rattle.std.specs.List.{list_all};
ghost use Rattle.plus_words.specs.Interval.{digits_in, decimal, quotient, number, parts_in};

use plus_tokens::MOST_PLACES;

// How many digits a whole number has at most.
const DIGITS: usize = 19;

// The word has digits alone.
fn is_digits(word: &str) -> bool
    ensures { result ≡ list_all is_ascii_digit word.now }
{
    word.bytes().all(|byte| byte.is_ascii_digit())
}

// The number of these digits, of which there are at most so many.
#[tactic(auto, using(crate::proofs::DigitsLemmas::no_number))]
fn digits(word: &str, most: usize) -> Option<u64>
    requires { most ≤ 19 }
    ensures { result ≡ digits_in most word.now }
{
    // std's `parse` takes a plus sign too.
    if word.len() > most || !is_digits(word) {
        return None;
    }
    match word.parse::<u64>() {
        Ok(number) => Some(number),
        Err(_) => None,
    }
}

// A number with a point.
fn decimal(front: &str, back: &str) -> Option<(u128, u128)>
    ensures { result ≡ decimal front.now back.now }
{
    let units = digits(front, DIGITS)?;
    let rest = digits(back, MOST_PLACES as usize)?;
    let scale = 10u128.pow(back.len() as u32);
    Some((u128::from(units) * scale + u128::from(rest), scale))
}

fn quotient(top: &str, bottom: &str) -> Option<(u128, u128)>
    ensures { result ≡ quotient top.now bottom.now }
{
    let over = digits(top, DIGITS)?;
    let under = digits(bottom, DIGITS)?;
    Some((u128::from(over), u128::from(under)))
}

fn number(word: &str) -> Option<(u128, u128)>
    ensures { result ≡ number word.now }
{
    match word.split_once('.') {
        Some((front, back)) => decimal(front, back),
        None => {
            let whole = digits(word, DIGITS)?;
            Some((u128::from(whole), 1))
        }
    }
}

/// The top and the bottom of the fraction that a word spells, if it spells one.
pub fn parts(word: &str) -> Option<(u128, u128)>
    ensures { result ≡ parts_in word.now }
{
    match word.split_once('/') {
        Some((top, bottom)) => quotient(top, bottom),
        None => number(word),
    }
}
