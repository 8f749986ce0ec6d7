//! The exact numbers that literals mean.

ghost use Rattle.std.specs.Prelude.{◌≡◌, ◌<◌, ◌≤◌, ◌^◌};
ghost use Rattle.plus_fraction.specs.Fraction.{over};
ghost use Rattle.plus_number.specs.Exact.{Answers};
ghost use Rattle.plus_number.specs.Frac.{IsFrac64, fraction_of};
ghost use Rattle.plus_literal.specs.Value.{signed_whole, AnswersLiteral};

use plus_number::divisor::common_divisor;
use plus_number::exact::{Exact, Outside};
use plus_number::frac::Frac64;
use plus_tokens::MOST_PLACES;
use plus_tree::Literal;

/// A type of exact fractions whose values can be had from parts of any size.
pub trait FromParts: Exact {
    /// The fraction top/bottom, or its opposite. It is `Outside` exactly where that is no value of the
    /// type, as when its parts are too great even with their common factors taken out.
    fn from_parts(negative: bool, top: u128, bottom: u128) -> Result<Self, Outside>
        requires { 0 < bottom }
        ensures { Answers Self.value Self.fits (over (signed_whole negative top) bottom) result };
}

// The greatest part of a `Frac64`.
const GREATEST: u128 = 9223372036854775807;

// A size, or its opposite.
fn signed(negative: bool, size: u64) -> i64
    requires { size ≤ 9223372036854775807 }
    ensures { result ≡ signed_whole negative size }
{
    if negative {
        -(size as i64)
    } else {
        size as i64
    }
}

// The fraction top/bottom, or its opposite, of parts that a `Frac64` may have.
fn from_small(negative: bool, top: u64, bottom: u64) -> Result<Frac64, Outside>
    requires top { top ≤ 9223372036854775807 }
    requires bottom { bottom ≤ 9223372036854775807 }
    requires above { 0 < bottom }
    ensures { Answers fraction_of IsFrac64 (over (signed_whole negative top) bottom) result }
{
    let small_top = signed(negative, top);
    Frac64::ratio(small_top, bottom as i64)
}

impl FromParts for Frac64 {
    fn from_parts(negative: bool, top: u128, bottom: u128) -> Result<Frac64, Outside> {
        if top <= GREATEST && bottom <= GREATEST {
            return from_small(negative, top as u64, bottom as u64);
        }
        let divisor = common_divisor(top, bottom);
        let reduced_top = top / divisor;
        let reduced_bottom = bottom / divisor;
        if reduced_top > GREATEST {
            return Err(Outside);
        }
        if reduced_bottom > GREATEST {
            return Err(Outside);
        }
        let signed_top = signed(negative, reduced_top as u64);
        Frac64::ratio(signed_top, reduced_bottom as i64)
    }
}

fn power_of_ten(places: u8) -> u128
    requires { places ≤ 9 }
    ensures is { result ≡ 10 ^ places }
    ensures above { 0 < result }
{
    10u128.pow(u32::from(places))
}

/// The number that a literal means. It is `Outside` exactly where that is no value of the type.
#[inline(always)]
pub fn literal<Q: FromParts>(literal: &Literal) -> Result<Q, Outside>
    ensures { AnswersLiteral Q.value Q.fits literal.now result }
{
    if literal.places > MOST_PLACES {
        return Err(Outside);
    }
    Q::from_parts(
        literal.negative,
        literal.digits,
        power_of_ten(literal.places),
    )
}
