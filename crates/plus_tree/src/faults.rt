//! Why a text is no tree.

ghost use Rattle.std.specs.Prelude.{◌≡◌};
ghost use Rattle.plus_tree.specs.declared.faults.TextFault.TheVariants.{Memory};

use plus_tokens::{LexFault, Span};
use std::alloc::{AllocError, AllocFailed};
use std::error::Error;
use std::fmt;
use thiserror::Error;

/// Why a text is no domain or problem, and the first place that shows it. Offsets count bytes from
/// 0.
#[derive(Clone, Copy, Debug, PartialEq, Eq, Error)]
pub enum TextFault {
    /// No token can be read at this byte.
    #[error("no token can be read")]
    Lex(LexFault),
    /// The text ends too early.
    #[error("the text ends too early")]
    Unclosed,
    /// An opening parenthesis that would be one too many open at once.
    #[error("too many open parentheses at byte {at}")]
    Depth { at: usize },
    /// A token with which no text of the grammar goes on.
    #[error("bytes {}-{} do not fit the grammar", .span.start, .span.end)]
    Form { span: Span },
    /// There was no memory for the tree.
    #[error("out of memory")]
    Memory,
}

impl From<AllocError> for TextFault {
    ghost from_gives = { λ _ e. e ≡ Memory };

    fn from(_e: AllocError) -> TextFault {
        TextFault::Memory
    }
}

impl<T: Drop> From<AllocFailed<T>> for TextFault {
    ghost from_gives = { λ _ e. e ≡ Memory };

    fn from(_e: AllocFailed<T>) -> TextFault {
        TextFault::Memory
    }
}
