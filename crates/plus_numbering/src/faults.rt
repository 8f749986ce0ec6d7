//! Why a pair is not grounded.

ghost use Rattle.std.specs.Prelude.{◌≡◌};
ghost use Rattle.plus_numbering.specs.declared.faults.GroundFault.TheVariants as ground_faults;

use plus_expansion::Count;
use plus_tree::Span;
use plus_types::File;
use std::alloc::{AllocError, AllocFailed};
use thiserror::Error;

/// Why a pair is not grounded.
#[derive(Debug, Drop, Error)]
pub enum GroundFault {
    /// There are more than `most` of a kind.
    #[error("more than {most} {kind:?}")]
    TooMany { kind: Count, most: u32 },
    /// A literal of the text is no value of the type of numbers.
    #[error("literal in {file:?} at {}-{}", .span.start, .span.end)]
    Literal { file: File, span: Span },
    #[error("out of memory")]
    Memory,
}

impl From<AllocError> for GroundFault {
    ghost from_gives = { λ _ e. e ≡ ground_faults.Memory };

    fn from(_e: AllocError) -> GroundFault {
        GroundFault::Memory
    }
}

impl<T: Drop> From<AllocFailed<T>> for GroundFault {
    ghost from_gives = { λ _ e. e ≡ ground_faults.Memory };

    fn from(_e: AllocFailed<T>) -> GroundFault {
        GroundFault::Memory
    }
}
