//! Greatest common divisors, and a size under a sign.

ghost use Rattle.std.specs.Prelude.{◌≡◌, ◌≢◌, ◌<◌, ◌≤◌, ◌%◌, min, max};
ghost use Rattle.plus_fraction.specs.Gcd.{gcd, with_sign};

/// What two odd numbers differ by, without its factors of two.
fn odd_distance(x: u64, y: u64) -> u64
    requires first { x % 2 ≡ 1 }
    requires second { y % 2 ≡ 1 }
    requires apart { x ≢ y }
    ensures is_odd { result % 2 ≡ 1 }
    ensures shorter { result < max x y }
    ensures same_divisor { gcd result (min x y) ≡ gcd x y }
{
    // This difference ends in the same zeros also where it wraps, and it is there before the greater
    // of the two is known.
    let zeros = x.wrapping_sub(y).trailing_zeros();
    (x.max(y) - x.min(y)) >> zeros
}

/// The greatest common divisor of two odd numbers.
///
/// Stein's binary algorithm, which divides nowhere: the greater of two odd numbers gives way to
/// their difference, and as no factor of two divides an odd number, these are shifted away.
fn odd_divisor(a: u64, b: u64) -> u64
    requires first { a % 2 ≡ 1 }
    requires second { b % 2 ≡ 1 }
    ensures { result ≡ gcd a b }
{
    let mut x = a;
    let mut y = b;
    while x != y {
        let less = x.min(y);
        x = odd_distance(x, y);
        y = less;
    }
    y
}

/// The greatest common divisor of 64 bits: one division brings both numbers to one size, and the
/// rest is Stein's binary algorithm. The factors of two that both have are set aside for it.
pub fn narrow_divisor(a: u64, b: u64) -> u64
    ensures is_gcd { result ≡ gcd a b }
    ensures above { 0 < b → 0 < result }
{
    if b == 0 {
        return a;
    }
    let rest = a % b;
    if rest == 0 {
        return b;
    }
    let twos = b.trailing_zeros();
    let rest_twos = rest.trailing_zeros();
    odd_divisor(rest >> rest_twos, b >> twos) << twos.min(rest_twos)
}

/// The greatest common divisor, by Euclid's algorithm: on 128 bits down to where 64 bits serve.
pub fn common_divisor(a: u128, b: u128) -> u128
    ensures is_gcd { result ≡ gcd a b }
    ensures above { 0 < b → 0 < result }
{
    let mut x = a;
    let mut y = b;
    while y > u64::MAX as u128 {
        let rest = x % y;
        x = y;
        y = rest;
    }
    if y == 0 {
        x
    } else {
        narrow_divisor(y as u64, (x % y) as u64) as u128
    }
}

/// A size under the sign of `n`.
pub fn signed(n: i128, size: u64) -> i64
    requires { size ≤ 9223372036854775807 }
    ensures { result ≡ with_sign n size }
{
    if n < 0 { -(size as i64) } else { size as i64 }
}
