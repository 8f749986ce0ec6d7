//! What `advance` answers.

/// What one call of `advance` did.
#[derive(Clone, Copy, PartialEq, Eq, Debug)]
pub enum Next<Q> {
    /// One round of events fired.
    Round,
    /// The entry is closed, and time runs on with a running set.
    Run,
    /// The next entry is begun, at this time.
    Entry { time: Q },
    /// Nothing is due, and the time asked for is reached.
    There,
}
