//! Why a stretch has no end.
use plus_state::outcome::Limit;
use plus_state::term::EventId;
use std::fmt;
use thiserror::Error;

/// Why it cannot be told how far a running set goes on.
#[derive(Drop, Error)]
#[error_bound(Q: Drop)]
pub enum Halt<Q> {
    /// The event holds just after this time and not at it.
    #[error("event {} has no first moment", .event.0)]
    NoFirstMoment { event: EventId, time: Q },
    /// This limit of the program comes before.
    #[error("the stretch goes beyond a limit")]
    Limit(Limit<Q>),
    /// Memory is wanting.
    #[error("out of memory")]
    Memory,
}

impl<Q: Drop> fmt::Debug for Halt<Q> {
    fn fmt<W: fmt::Write>(&self, f: &mut fmt::Formatter<W>) -> fmt::Result {
        fmt::Display::fmt(self, f)
    }
}
