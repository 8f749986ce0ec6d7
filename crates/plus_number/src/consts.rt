//! The values 0 and 1 of every exact type, and the sizes of values.
ghost use Rattle.std.specs.Prelude.{◌≡◌, ◌↔◌, IsTrue, pos};
ghost use Rattle.plus_fraction.specs.Fraction.{Fraction, whole};
ghost use Rattle.plus_number.specs.Size.{size};

use crate::exact::Exact;

/// 0, which every type has.
pub fn zero<Q: Exact>() -> Q
    ensures { Q.value result ≡ whole (pos 0) }
{
    match Q::ratio(0, 1) {
        Ok(x) => x,
        Err(_) => unreachable!(),
    }
}

/// 1, which every type has.
pub fn one<Q: Exact>() -> Q
    ensures { Q.value result ≡ whole (pos 1) }
{
    match Q::ratio(1, 1) {
        Ok(x) => x,
        Err(_) => unreachable!(),
    }
}

/// The test of 0, as `Exact::div` wants it.
pub fn is_zero<Q: Exact>(x: Q) -> bool
    ensures { IsTrue result ↔ (Q.value x ≡ whole (pos 0)) }
{
    let parts = x.parts();
    parts.0 == 0
}

/// The size of a value: the sum of its parts, without a sign.
#[inline(always)]
pub fn size<Q: Exact>(x: Q) -> u64
    ensures { result ≡ size (Q.value x) }
{
    let (top, bottom) = x.parts();
    top.unsigned_abs() + bottom.unsigned_abs()
}
