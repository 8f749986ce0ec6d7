//! Why there is no timed plan.

use plus_number::frac::Frac64;
use plus_state::term::Overflow;
use std::alloc::AllocError;

/// Why there is no timed plan.
#[derive(Drop)]
pub enum LiftFault {
    /// A time is no value of the number type: that many steps times the length of one.
    Number(Overflow<Frac64>),
    /// Memory is wanting.
    Memory,
}

impl From<AllocError> for LiftFault {
    ghost use Rattle.plus_lift.specs.declared.fault.LiftFault.TheVariants.{Memory};
    ghost use Rattle.std.specs.Prelude.{◌≡◌};

    ghost from_gives = { λ _ fault. fault ≡ Memory };

    fn from(_: AllocError) -> LiftFault {
        LiftFault::Memory
    }
}
