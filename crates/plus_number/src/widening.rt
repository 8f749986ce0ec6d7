//! From millionths to pairs.
ghost use Rattle.plus_number.specs.Widen.{same_fraction};

use crate::exact::Exact;
use crate::frac::Frac64;
use crate::ticks::Ticks;

// The equal fraction.
pub fn widen(t: Ticks) -> Frac64
    ensures { same_fraction t result }
{
    match Frac64::ratio(t.count(), 1000000) {
        Ok(f) => f,
        Err(_) => unreachable!(),
    }
}
