//! The fraction that a time means.

ghost use Rattle.std.specs.Prelude.{◌<◌};
ghost use Rattle.plus_number.specs.Exact.{Answers};
ghost use Rattle.plus_number.specs.Frac.{IsFrac64, fraction_of};
ghost use Rattle.plus_plan.specs.TimeValue.{value_of};

use crate::forms::Time;
use plus_literal::FromParts;
use plus_number::exact::Outside;
use plus_number::frac::Frac64;

/// The fraction that a time means. It is `Outside` exactly where that is no value of `Frac64`, as
/// when its parts are too great even with their common factors taken out.
pub fn time_value(time: &Time) -> Result<Frac64, Outside>
    requires { 0 < time.now.bottom }
    ensures { Answers fraction_of IsFrac64 (value_of time.now) result }
{
    Frac64::from_parts(false, time.top, time.bottom)
}
