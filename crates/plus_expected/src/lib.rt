//! What is expected in a text that is none: by its tokens alone, so that it can tell of any text.
#![tactic(auto)]

pub mod bytes;
pub mod file;
pub mod grammar;
pub mod near;
pub mod outline;
pub mod say;
pub mod texts;
pub mod unread;
pub mod wanted;

pub use file::File;
pub use grammar::Whole;
pub use near::Nearest;
pub use outline::Outline;
pub use texts::append_text;
