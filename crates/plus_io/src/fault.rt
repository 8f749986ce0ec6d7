//! Why a call on a shelf or a sink did not do its work.

ghost use Rattle.std.specs.Prelude.{◌≡◌};
ghost use Rattle.plus_io.specs.declared.fault.ReadStop.TheVariants as stops;

use std::alloc::AllocError;
use thiserror::Error;

/// A fault of the shelf or the sink itself, which its count of faults shows.
#[derive(Clone, Copy, Debug, PartialEq, Eq, Error)]
#[error("reading or writing failed")]
pub struct Failed;

/// Why a text was not read whole.
#[derive(Clone, Copy, Debug, PartialEq, Eq, Error)]
pub enum ReadStop {
    /// A fault of the shelf.
    #[error("reading failed")]
    Failed,
    /// The text has more bytes than may be read.
    #[error("the text is too long")]
    TooLong,
    /// No memory was left for the text.
    #[error("out of memory")]
    Memory,
}

impl From<Failed> for ReadStop {
    ghost from_gives = { λ _ stop. stop ≡ stops.Failed };

    fn from(_: Failed) -> Self {
        ReadStop::Failed
    }
}

impl From<AllocError> for ReadStop {
    ghost from_gives = { λ _ stop. stop ≡ stops.Memory };

    fn from(_: AllocError) -> Self {
        ReadStop::Memory
    }
}
