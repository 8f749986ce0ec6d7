//! Why a call names no ground action.

ghost use Rattle.std.specs.Prelude.{◌≡◌};
ghost use Rattle.plus_ground.specs.declared.faults.InstanceFault.TheVariants as instance_faults;

use plus_tree::Span;
use std::alloc::AllocError;
use thiserror::Error;

/// Why a call names no ground action.
#[derive(Debug, Drop, Error)]
pub enum InstanceFault {
    /// No action has the name.
    #[error("unknown action")]
    UnknownAction,
    /// The arguments do not fit the parameters.
    #[error("wrong arguments")]
    WrongArguments,
    /// The instance has more than 1,000,000 nodes.
    #[error("too many nodes")]
    TooManyNodes,
    /// A literal of the action is no value of the type of numbers.
    #[error("literal at {}-{}", .span.start, .span.end)]
    Literal { span: Span },
    #[error("out of memory")]
    Memory,
}

impl From<AllocError> for InstanceFault {
    ghost from_gives = { λ _ e. e ≡ instance_faults.Memory };

    fn from(_e: AllocError) -> InstanceFault {
        InstanceFault::Memory
    }
}
