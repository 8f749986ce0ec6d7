//! Why a domain and a problem are not well typed.

ghost use Rattle.std.specs.Prelude.{◌≡◌};
ghost use Rattle.plus_types.specs.declared.faults.TypeFault.TheVariants.{Memory};

use plus_tree::Span;
use std::alloc::{AllocError, AllocFailed};
use thiserror::Error;

/// Which of the two texts.
#[derive(Clone, Copy, Debug, PartialEq, Eq)]
pub enum File {
    Domain,
    Problem,
}

/// The rule that a form breaks.
#[derive(Clone, Copy, Debug, PartialEq, Eq)]
pub enum Wrong {
    UnknownType,
    UnknownName,
    Arity,
    WrongType,
    Twice,
    Unbound,
    Shadowed,
    TypeLoop,
    RateForm,
    DomainName,
}

/// Why a pair is not well typed: the rule, and the form that breaks it; or memory was wanting.
#[derive(Debug, Drop, Error)]
pub enum TypeFault {
    #[error("{wrong:?} in {file:?} at {}-{}", .span.start, .span.end)]
    At {
        wrong: Wrong,
        file: File,
        span: Span,
    },
    #[error("out of memory")]
    Memory,
}

impl From<AllocError> for TypeFault {
    ghost from_gives = { λ _ e. e ≡ Memory };

    fn from(_e: AllocError) -> TypeFault {
        TypeFault::Memory
    }
}

impl<T: Drop> From<AllocFailed<T>> for TypeFault {
    ghost from_gives = { λ _ e. e ≡ Memory };

    fn from(_e: AllocFailed<T>) -> TypeFault {
        TypeFault::Memory
    }
}
