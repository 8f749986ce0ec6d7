//! Actions with their times, and what bounds a plan of them.
use plus_state::problem::Action;

/// A ground action, at a time.
#[derive(Drop)]
pub struct TimedAction<Q> {
    pub time: Q,
    pub action: Action<Q>,
}

/// What bounds a plan: the time of its end, and how many moments it may enter.
#[derive(Drop)]
pub struct Bounds<Q> {
    pub end: Q,
    pub happenings: u64,
}
