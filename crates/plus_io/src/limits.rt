//! Limits on what comes from outside (this project's profile).

/// The most bytes of a text.
pub const TEXT_LIMIT: usize = 1_048_576;

/// How many bytes of a text are asked of a shelf at once.
pub const PIECE: usize = 4096;

/// The most moments that a caller may allow a plan to enter.
pub const MOST_HAPPENINGS: u64 = 1_000_000;
