//! Fractions of millionths.
ghost use Rattle.std.specs.Prelude.{◌≡◌, ℕ, ◌+◌, ◌*◌, ◌/◌, ◌^◌, ◌<◌, ◌≤◌, ◌<ℤ◌, ◌≤ℤ◌, ◌*ℤ◌, ◌+ℤ◌, pos, unsigned_abs, MatchResult};

use crate::divisor::{narrow_divisor, signed};
use crate::exact::{Exact, Outside};
use std::cmp::Ordering;

/// `k` millionths, with `|k|` at most 9223372036854775807.
#[derive(Clone, Copy)]
pub struct Ticks {
    k: i64,
    ghost in_range: { unsigned_abs k ≤ 9223372036854775807 },
}

// the bottom of a reduced number of millionths
fn million_over(divisor: u64) -> i64
    requires { 0 < divisor }
    ensures { result ≡ pos (1000000 / divisor) }
{
    (1000000 / divisor) as i64
}

impl Ticks {
    ghost use Rattle.plus_number.specs.Ticks.{fraction_of, IsTicks, InRange, IsQuotient};
    ghost use Rattle.plus_fraction.specs.Fraction.{over};
    ghost use Rattle.plus_number.specs.Exact.{Answers};

    /// How many millionths.
    pub fn count(self) -> i64
        ensures { result ≡ self.k }
    {
        self.k
    }

    fn millions(self) -> i128
        ensures value { result ≡ self.k *ℤ pos 1000000 }
        ensures small { unsigned_abs result < 2 ^ 100 }
    {
        self.k as i128 * 1000000
    }

    fn widened(self) -> i128
        ensures value { result ≡ self.k }
        ensures small { unsigned_abs result < 2 ^ 100 }
    {
        self.k as i128
    }

    fn product(self, other: Ticks) -> i128
        ensures { result ≡ self.k *ℤ other.k }
    {
        self.k as i128 * other.k as i128
    }

    // k millionths, if k is in range
    fn checked(k: i128) -> Result<Ticks, Outside>
        ensures { MatchResult result (λ t. t.k ≡ k) (λ _. InRange k → ⊥) }
    {
        if k > 9223372036854775807 || k < -9223372036854775807 {
            return Err(Outside);
        }
        let k = k as i64;
        Ok(Ticks { k })
    }

    // n/d millionths on 64 bits, if that is a whole number of them
    fn narrow_quotient(n: i64, d: i64) -> Result<Ticks, Outside>
        requires above { pos 0 <ℤ d }
        ensures { IsQuotient n d result }
    {
        if n % d != 0 {
            return Err(Outside);
        }
        Ticks::checked((n / d) as i128)
    }

    // the same on 128 bits
    fn wide_quotient(n: i128, d: i128) -> Result<Ticks, Outside>
        requires above { pos 0 <ℤ d }
        ensures { IsQuotient n d result }
    {
        if n % d != 0 {
            return Err(Outside);
        }
        Ticks::checked(n / d)
    }

    // the same on as many bits as serve
    fn quotient(n: i128, d: i64) -> Result<Ticks, Outside>
        requires above { pos 0 <ℤ d }
        ensures { IsQuotient n d result }
    {
        if n <= 9223372036854775807 && n >= -9223372036854775807 {
            Ticks::narrow_quotient(n as i64, d)
        } else {
            Ticks::wide_quotient(n, d as i128)
        }
    }
}

impl Exact for Ticks {
    ghost use Rattle.plus_number.specs.Ticks.{fraction_of, IsTicks};
    ghost use Rattle.plus_number.specs.TicksLaws.{fits_of, value_of_fit, injective_of, zero_fits, one_fits, moves_fit};

    ghost value = { fraction_of };

    ghost fits = { IsTicks };

    ghost room = { 0 };

    fn ratio(n: i64, d: i64) -> Result<Ticks, Outside> {
        Ticks::quotient(n as i128 * 1000000, d)
    }

    fn add(self, other: Ticks) -> Result<Ticks, Outside> {
        Ticks::checked(self.k as i128 + other.k as i128)
    }

    fn sub(self, other: Ticks) -> Result<Ticks, Outside> {
        Ticks::checked(self.k as i128 - other.k as i128)
    }

    fn mul(self, other: Ticks) -> Result<Ticks, Outside> {
        Ticks::quotient(self.product(other), 1000000)
    }

    fn div(self, other: Ticks) -> Result<Ticks, Outside> {
        if other.k < 0 {
            Ticks::quotient(-self.millions(), -other.k)
        } else {
            Ticks::quotient(self.millions(), other.k)
        }
    }

    fn order(self, other: Ticks) -> Ordering {
        self.k.cmp(&other.k)
    }

    fn parts(self) -> (i64, i64) {
        let size = self.k.unsigned_abs();
        let divisor = narrow_divisor(size, 1000000);
        (
            signed(self.widened(), size / divisor),
            million_over(divisor),
        )
    }

    // products of millionths are finer
    fn room() -> u64 {
        0
    }

    ghost value_fits = { fits_of };

    ghost value_with = { value_of_fit };

    ghost injective = { injective_of };

    ghost zero_fits = { zero_fits };

    ghost one_fits = { one_fits };

    ghost moves_fit = { moves_fit };
}
