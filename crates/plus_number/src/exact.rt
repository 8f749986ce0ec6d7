//! The types of exact fractions.
ghost use Rattle.std.specs.Prelude.{◌≡◌, ◌≤◌, ◌*◌, ℕ, pos, ◌<ℤ◌, unsigned_abs};
ghost use Rattle.plus_fraction.specs.Fraction.{Fraction, over, whole, ◌+ℚ◌, ◌-ℚ◌, ◌*ℚ◌, ◌/ℚ◌, compared};
ghost use Rattle.plus_number.specs.Exact.{Answers};
ghost use Rattle.plus_number.specs.Size.{size};

use std::cmp::Ordering;
use thiserror::Error;

/// The exact result is no value of the type.
#[derive(Clone, Copy, PartialEq, Eq, Debug, Error)]
#[error("the result is no value of this type of numbers")]
pub struct Outside;

/// A type of exact fractions. Each call answers the exact result, and `Outside` exactly where that
/// is no value of the type: nothing is rounded. 0 and 1 are values of every such type.
pub trait Exact: Copy {
    // the fraction that a value means
    ghost value: { Self → Fraction };
    // the fraction is a value of the type
    ghost fits: { Fraction → Type 0 };
    // how far the product of three sizes may go where `moves_fit` is to hold
    ghost room: { ℕ };

    /// n/d, reduced.
    fn ratio(n: i64, d: i64) -> Result<Self, Outside>
        requires { pos 0 <ℤ d }
        ensures { Answers value fits (over n (unsigned_abs d)) result };

    /// The sum.
    fn add(self, other: Self) -> Result<Self, Outside>
        ensures { Answers value fits (value self +ℚ value other) result };

    /// The difference.
    fn sub(self, other: Self) -> Result<Self, Outside>
        ensures { Answers value fits (value self -ℚ value other) result };

    /// The product.
    fn mul(self, other: Self) -> Result<Self, Outside>
        ensures { Answers value fits (value self *ℚ value other) result };

    /// The quotient. The divisor is not 0: `is_zero` is the test.
    fn div(self, other: Self) -> Result<Self, Outside>
        requires { value other ≡ whole (pos 0) → ⊥ }
        ensures { Answers value fits (value self /ℚ value other) result };

    /// The order of fractions.
    fn order(self, other: Self) -> Ordering
        ensures { result ≡ compared (value self) (value other) };

    /// Top and bottom of the reduced pair; the bottom is at least 1.
    fn parts(self) -> (i64, i64)
        ensures top { result.0 ≡ (value self).top }
        ensures bottom { result.1 ≡ pos ((value self).bottom) };

    /// How far the product of the sizes of a value, a rate and a delay may go, so that the value after that
    /// delay is sure to be a value of the type; 0 where no such bound is known.
    fn room() -> u64
        ensures { result ≡ room };

    // each value fits
    ghost value_fits: { (x : Self) → fits (value x) };
    // each fraction that fits is a value
    ghost value_with: { (q : Fraction) → fits q → (x : Self) × (value x ≡ q) };
    // values that mean the same are the same
    ghost injective: { (x y : Self) → value x ≡ value y → x ≡ y };

    // 0 and 1 are values
    ghost zero_fits: { fits (whole (pos 0)) };

    ghost one_fits: { fits (whole (pos 1)) };

    // small values that move at small rates for a short delay stay values
    ghost moves_fit: { (v r d : Fraction) → size v * size r * size d ≤ room → fits (r *ℚ d) × fits (v +ℚ r *ℚ d) };
}
