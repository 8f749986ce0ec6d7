//! The interval that a word names.

ghost use Rattle.std.specs.Prelude.{◌≡◌, pos, option_map};
ghost use Rattle.plus_fraction.specs.Fraction.{whole, ◌<ℚ◌};
ghost use Rattle.plus_number.specs.Frac.{fraction_of};

use crate::interval::parts::parts;
use plus_literal::FromParts;
use plus_number::consts::zero;
use plus_number::exact::Exact;
use plus_number::frac::Frac64;
use std::cmp::Ordering;

/// An interval of time: a number above 0.
#[derive(Clone, Copy)]
pub struct Interval {
    pub value: Frac64,
    ghost above: { whole (pos 0) <ℚ fraction_of value },
}

impl Interval {
    ghost use Rattle.plus_words.specs.Interval.{interval_of};

    /// The interval that a word names, if it names one: `2`, `0.5`, `1/3`.
    pub fn parse(word: &str) -> Option<Interval>
        ensures { option_map (λ i. fraction_of i.value) result ≡ interval_of word.now }
    {
        let (top, bottom) = parts(word)?;
        if bottom == 0 {
            return None;
        }
        match Frac64::from_parts(false, top, bottom) {
            Err(_) => None,
            Ok(value) => match zero::<Frac64>().order(value) {
                Ordering::Less => Some(Interval { value }),
                Ordering::Equal => None,
                Ordering::Greater => None,
            },
        }
    }
}
