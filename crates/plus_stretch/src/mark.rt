//! Roots with their owners.
use crate::looked::{Lists, Looking};
use plus_number::exact::Exact;
use plus_state::outcome::Owner;
use std::alloc::Global;

/// A moment at which the sides of a live comparison meet, and the event or the process in whose
/// condition it stands.
#[derive(Clone, Copy)]
pub struct Mark<Q> {
    pub at: Q,
    pub owner: Owner,
}

/// Memory for the lists of a stretch, which many stretches use. It is memory only: no answer follows from what
/// stands in it before.
#[derive(Drop)]
pub struct Room<Q: Exact> {
    pub roots: Vec<Q>,
    pub marks: Vec<Mark<Q>>,
    pub here: Vec<Mark<Q>>,
    pub different: Vec<Q>,
    pub everywhere: Lists,
    pub looking: Looking,
}

impl<Q: Exact> Room<Q> {
    /// No memory yet.
    pub fn new(alloc: Global) -> Room<Q> {
        Room {
            roots: Vec::new(alloc),
            marks: Vec::new(alloc),
            here: Vec::new(alloc),
            different: Vec::new(alloc),
            everywhere: Lists::new(alloc),
            looking: Looking::new(alloc),
        }
    }
}
