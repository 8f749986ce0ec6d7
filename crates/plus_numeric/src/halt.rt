//! Why a plan is played no further.
ghost use Rattle.std.specs.Prelude.{◌≡◌};
ghost use Rattle.plus_numeric.specs.declared.halt.Halt.TheVariants as halts;

use plus_number::frac::Frac64;
use plus_report::Verdict;
use std::alloc::{AllocError, AllocFailed};

/// Why a plan is played no further.
#[derive(Drop)]
pub enum Halt {
    /// The plan is refused with this verdict.
    Refused(Verdict<Frac64>),
    /// Memory is wanting.
    Memory,
}

impl From<AllocError> for Halt {
    ghost from_gives = { λ _ halt. halt ≡ halts.Memory };

    fn from(_error: AllocError) -> Halt {
        Halt::Memory
    }
}

impl<T: Drop> From<AllocFailed<T>> for Halt {
    ghost from_gives = { λ _ halt. halt ≡ halts.Memory };

    fn from(_error: AllocFailed<T>) -> Halt {
        Halt::Memory
    }
}
