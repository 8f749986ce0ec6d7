//! Why a pair is not translated.

use plus_tree::Span;
use plus_types::File;
use std::alloc::AllocError;
use thiserror::Error;

/// Why a pair is not translated.
#[derive(Debug, Drop, Error)]
pub enum TransFault {
    /// A predicate, a function, an action or a variable has a name that begins with `pp-`.
    #[error("the name is taken")]
    NameTaken { file: File, span: Span },
    /// The time of a timed literal is no whole number of steps, of 63 bits.
    #[error("the time is no whole number of steps")]
    OffGrid { span: Span },
    /// One of the two texts would have more than 64 parentheses open at once.
    #[error("the text is too deep")]
    TooDeep,
    /// Memory is wanting.
    #[error("out of memory")]
    Memory,
}

impl From<AllocError> for TransFault {
    ghost use Rattle.plus_translate.specs.declared.fault.TransFault.TheVariants.{Memory};
    ghost use Rattle.std.specs.Prelude.{◌≡◌};

    ghost from_gives = { λ _ fault. fault ≡ Memory };

    fn from(_: AllocError) -> TransFault {
        TransFault::Memory
    }
}
