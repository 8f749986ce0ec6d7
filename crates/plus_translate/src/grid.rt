//! How many steps it is to a time.

ghost use Rattle.std.specs.Prelude.{◌≡◌, ℕ, ◌*◌, ◌<◌, ◌≤◌, ◌^◌, pos, MatchOption};
ghost use Rattle.plus_fraction.specs.Fraction.{whole, ◌<ℚ◌};
ghost use Rattle.plus_fraction.specs.Gcd.{gcd};
ghost use Rattle.plus_number.specs.Frac.{fraction_of};
ghost use Rattle.plus_translation.specs.Translated.{steps_to};
ghost use Rattle.plus_translate.specs.Grid.{StandsOnGrid};

use plus_number::divisor::common_divisor;
use plus_number::exact::Exact;
use plus_number::frac::Frac64;
use plus_stepped::grid::MOST_STEPS;
use plus_tokens::MOST_PLACES;
use plus_tree::Literal;

// How many times the one quotient is the other, where it is that so many times.
fn whole_quotient(top: u128, bottom: u128, step_top: u64, step_bottom: u64) -> Option<u64>
    requires bottom { 0 < bottom }
    requires step_top { 0 < step_top }
    requires step_bottom { 0 < step_bottom }
    requires reduced { gcd top bottom ≡ 1 }
    requires step_reduced { gcd step_top step_bottom ≡ 1 }
    ensures { MatchOption result
        ((k : ℕ) → k < 2 ^ 63 → top * step_bottom ≡ k * (bottom * step_top) → ⊥)
        (λ k. (k < 2 ^ 63) × (top * step_bottom ≡ k * (bottom * step_top))) }
{
    let step_top = u128::from(step_top);
    let step_bottom = u128::from(step_bottom);
    if top % step_top != 0 {
        return None;
    }
    if step_bottom % bottom != 0 {
        return None;
    }
    let times = top / step_top;
    if times > MOST_STEPS {
        return None;
    }
    let steps = times * (step_bottom / bottom);
    if steps > MOST_STEPS {
        return None;
    }
    Some(steps as u64)
}

fn power_of_ten(places: u8) -> u128
    requires { places ≤ 9 }
    ensures is { result ≡ 10 ^ places }
    ensures above { 0 < result }
{
    10u128.pow(u32::from(places))
}

/// How many steps it is to a time, where it is a whole number of them, of 63 bits.
pub fn steps(time: &Literal, interval: Frac64) -> Option<u64>
    requires { whole (pos 0) <ℚ fraction_of interval }
    ensures { MatchOption result (StandsOnGrid (fraction_of interval) time.now → ⊥)
        (λ steps. StandsOnGrid (fraction_of interval) time.now
        × (steps ≡ steps_to (fraction_of interval) time.now)) }
{
    if time.negative {
        return None;
    }
    if time.places > MOST_PLACES {
        return None;
    }
    let power = power_of_ten(time.places);
    let divisor = common_divisor(time.digits, power);
    let (step_top, step_bottom) = interval.parts();
    whole_quotient(
        time.digits / divisor,
        power / divisor,
        step_top.unsigned_abs(),
        step_bottom.unsigned_abs(),
    )
}
