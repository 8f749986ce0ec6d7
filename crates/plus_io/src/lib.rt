//! The outside world: shelves of named byte texts, from which texts are read, and sinks, which take
//! bytes. Each counts its faults, so that no answer can blame a fault that did not happen.
#![tactic(auto)]

mod fault;
mod freeing;
mod limits;
mod mem_shelf;
mod mem_sink;
mod quiet;
mod shelf;
mod sink;
mod stored;

pub use fault::{Failed, ReadStop};
pub use freeing::Freeing;
pub use limits::{MOST_HAPPENINGS, PIECE, TEXT_LIMIT};
pub use mem_shelf::MemShelf;
pub use mem_sink::MemSink;
pub use quiet::{QuietShelf, QuietSink};
pub use shelf::{Shelf, read_all};
pub use sink::{Sink, write_all};
