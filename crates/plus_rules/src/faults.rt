//! Why constraints are refused.

ghost use Rattle.std.specs.Prelude.{◌≡◌};
ghost use Rattle.plus_rules.specs.declared.faults.WatchFault.TheVariants as watch_faults;

use plus_tree::Span;
use plus_types::Wrong;
use std::alloc::AllocError;
use thiserror::Error;

/// Why constraints are refused beside a pair that is not.
#[derive(Debug, Drop, Error)]
pub enum WatchFault {
    /// A form of a condition breaks this rule of typing.
    #[error("{wrong:?} at {}-{}", .span.start, .span.end)]
    At { wrong: Wrong, span: Span },
    /// The ground processes, events and conditions have more than 1,000,000 nodes together.
    #[error("too many nodes")]
    TooManyNodes,
    /// A literal of a condition, or the time of a rule, is no value of the type of numbers.
    #[error("literal at {}-{}", .span.start, .span.end)]
    Literal { span: Span },
    #[error("out of memory")]
    Memory,
}

impl From<AllocError> for WatchFault {
    ghost from_gives = { λ _ e. e ≡ watch_faults.Memory };

    fn from(_e: AllocError) -> WatchFault {
        WatchFault::Memory
    }
}
