//! Fractions of two parts of 63 bits.
ghost use Rattle.std.specs.Prelude.{◌≡◌, ◌≢◌, ℕ, ◌+◌, ◌*◌, ◌/◌, ◌^◌, ◌<◌, ◌≤◌, ◌<ℤ◌, ◌*ℤ◌, pos, unsigned_abs, IfSome, IsNone, MatchOption};
ghost use Rattle.plus_fraction.specs.Gcd.{gcd};

use crate::divisor::{common_divisor, narrow_divisor, signed};
use crate::exact::{Exact, Outside};
use std::cmp::Ordering;

// The greatest part of a `Frac64`.
const LIMIT: u64 = 9223372036854775807;

// The greatest number of 64 bits.
const NARROW: u128 = 18446744073709551615;

/// A reduced pair `n/d` with `|n|` and `d` at most 9223372036854775807, and `d` at least 1.
#[derive(Clone, Copy)]
pub struct Frac64 {
    n: i64,
    d: u64,
    ghost top_fits: { unsigned_abs n ≤ 9223372036854775807 },
    ghost bottom_fits: { d ≤ 9223372036854775807 },
    ghost positive: { 0 < d },
    ghost reduced: { gcd (unsigned_abs n) d ≡ 1 },
}

impl Frac64 {
    ghost use Rattle.plus_number.specs.Frac.{fraction_of, IsFrac64};
    ghost use Rattle.plus_fraction.specs.Fraction.{over, whole, ◌+ℚ◌, ◌-ℚ◌, compared, sign_of};
    ghost use Rattle.plus_number.specs.Exact.{Answers};

    // the whole number n
    fn whole(n: i128) -> Result<Frac64, Outside>
        ensures { Answers fraction_of IsFrac64 (whole n) result }
    {
        if n > 9223372036854775807 || n < -9223372036854775807 {
            return Err(Outside);
        }
        let n = n as i64;
        Ok(Frac64 { n, d: 1 })
    }

    // n/d reduced, on 64 bits
    fn narrow(n: i128, size: u64, d: u64) -> Result<Frac64, Outside>
        requires size { size ≡ unsigned_abs n }
        requires above { 0 < d }
        ensures { Answers fraction_of IsFrac64 (over n d) result }
    {
        let divisor = narrow_divisor(size, d);
        let top = size / divisor;
        let bottom = d / divisor;
        if top > LIMIT {
            return Err(Outside);
        }
        if bottom > LIMIT {
            return Err(Outside);
        }
        let signed_top = signed(n, top);
        Ok(Frac64 {
            n: signed_top,
            d: bottom,
        })
    }

    // n/d reduced, on 128 bits
    fn wide(n: i128, size: u128, d: u128) -> Result<Frac64, Outside>
        requires size { size ≡ unsigned_abs n }
        requires above { 0 < d }
        ensures { Answers fraction_of IsFrac64 (over n d) result }
    {
        let divisor = common_divisor(size, d);
        let top = size / divisor;
        let bottom = d / divisor;
        if top > LIMIT as u128 {
            return Err(Outside);
        }
        if bottom > LIMIT as u128 {
            return Err(Outside);
        }
        let signed_top = signed(n, top as u64);
        Ok(Frac64 {
            n: signed_top,
            d: bottom as u64,
        })
    }

    // n/d reduced
    fn reduced(n: i128, d: u128) -> Result<Frac64, Outside>
        requires { 0 < d }
        ensures { Answers fraction_of IsFrac64 (over n d) result }
    {
        if d == 1 {
            return Frac64::whole(n);
        }
        let size = n.unsigned_abs();
        if size <= NARROW && d <= NARROW {
            Frac64::narrow(n, size as u64, d as u64)
        } else {
            Frac64::wide(n, size, d)
        }
    }

    // this top over the bottom of self
    fn over_bottom(self, top: i128) -> Result<Frac64, Outside>
        requires { unsigned_abs top < 2 ^ 64 }
        ensures { Answers fraction_of IsFrac64 (over top self.d) result }
    {
        if self.d == 1 {
            Frac64::whole(top)
        } else {
            Frac64::narrow(top, top.unsigned_abs() as u64, self.d)
        }
    }

    // the top over the product of the two bottoms
    fn cross(self, other: Frac64) -> i128
        ensures value { result ≡ self.n *ℤ pos other.d }
        ensures small { unsigned_abs result < 2 ^ 126 }
    {
        self.n as i128 * (other.d as i64) as i128
    }

    // the sum
    #[inline(always)]
    fn added(self, other: Frac64) -> Result<Frac64, Outside>
        ensures { Answers fraction_of IsFrac64 (fraction_of self +ℚ fraction_of other) result }
    {
        if self.d == other.d {
            self.over_bottom(self.n as i128 + other.n as i128)
        } else {
            Frac64::reduced(self.cross(other) + other.cross(self), self.bottoms(other))
        }
    }

    // the difference
    #[inline(always)]
    fn lessened(self, other: Frac64) -> Result<Frac64, Outside>
        ensures { Answers fraction_of IsFrac64 (fraction_of self -ℚ fraction_of other) result }
    {
        if self.d == other.d {
            self.over_bottom(self.n as i128 - other.n as i128)
        } else {
            Frac64::reduced(self.cross(other) - other.cross(self), self.bottoms(other))
        }
    }

    // the order where the bottoms differ, so that the fractions do
    fn order_apart(self, other: Frac64) -> Ordering
        requires { self.d ≢ other.d }
        ensures { result ≡ compared (fraction_of self) (fraction_of other) }
    {
        if self.cross(other) < other.cross(self) {
            Ordering::Less
        } else {
            Ordering::Greater
        }
    }

    // the top of a product
    fn tops(self, other: Frac64) -> i128
        ensures { result ≡ self.n *ℤ other.n }
    {
        self.n as i128 * other.n as i128
    }

    // the top of a quotient
    fn signed_cross(self, other: Frac64) -> i128
        ensures { result ≡ self.n *ℤ pos other.d *ℤ sign_of other.n }
    {
        let top = self.cross(other);
        if other.n < 0 { -top } else { top }
    }

    // the bottom of a quotient
    fn quotient_bottom(self, other: Frac64) -> u128
        requires { 0 < unsigned_abs other.n }
        ensures value { result ≡ self.d * unsigned_abs other.n }
        ensures above { 0 < result }
    {
        self.d as u128 * other.n.unsigned_abs() as u128
    }

    // the bottom of a sum, a difference or a product
    fn bottoms(self, other: Frac64) -> u128
        ensures value { result ≡ self.d * other.d }
        ensures above { 0 < result }
    {
        self.d as u128 * other.d as u128
    }
}

impl Exact for Frac64 {
    ghost use Rattle.plus_number.specs.Frac.{fraction_of, IsFrac64};
    ghost use Rattle.plus_number.specs.FracLaws.{fits_of, value_of_fit, injective_of, zero_fits, one_fits, moves_fit};

    ghost value = { fraction_of };

    ghost fits = { IsFrac64 };

    ghost room = { 9223372036854775807 };

    fn ratio(n: i64, d: i64) -> Result<Frac64, Outside> {
        let top = n as i128;
        Frac64::narrow(top, n.unsigned_abs(), d as u64)
    }

    #[inline(always)]
    fn add(self, other: Frac64) -> Result<Frac64, Outside> {
        if self.n == 0 {
            Ok(other)
        } else {
            self.added(other)
        }
    }

    #[inline(always)]
    fn sub(self, other: Frac64) -> Result<Frac64, Outside> {
        if other.n == 0 {
            Ok(self)
        } else {
            self.lessened(other)
        }
    }

    fn mul(self, other: Frac64) -> Result<Frac64, Outside> {
        Frac64::reduced(self.tops(other), self.bottoms(other))
    }

    fn div(self, other: Frac64) -> Result<Frac64, Outside> {
        Frac64::reduced(self.signed_cross(other), self.quotient_bottom(other))
    }

    fn order(self, other: Frac64) -> Ordering {
        if self.d == other.d {
            self.n.cmp(&other.n)
        } else {
            self.order_apart(other)
        }
    }

    fn parts(self) -> (i64, i64) {
        (self.n, self.d as i64)
    }

    #[inline(always)]
    fn room() -> u64 {
        LIMIT
    }

    ghost value_fits = { fits_of };

    ghost value_with = { value_of_fit };

    ghost injective = { injective_of };

    ghost zero_fits = { zero_fits };

    ghost one_fits = { one_fits };

    ghost moves_fit = { moves_fit };
}
