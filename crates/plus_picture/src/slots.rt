//! Where the row of each ground thing stands, once there is one.

use std::alloc::{AllocError, Global};

/// Where a row stands.
#[derive(Clone, Copy)]
pub enum Slot {
    /// There is none yet.
    New,
    /// None is wanted.
    Unwanted,
    /// At this place of the list of rows.
    At(usize),
}

/// The rows of all things of a kind, by their numbers.
#[derive(Drop)]
pub struct Slots {
    slots: Vec<Slot>,
}

impl Slots {
    /// No rows yet, of so many things.
    pub fn new(alloc: Global, count: usize) -> Result<Slots, AllocError> {
        let mut slots = Vec::with_capacity(alloc, count)?;
        for _number in 0..count {
            slots.push(Slot::New)?;
        }
        Ok(Slots { slots })
    }

    /// Where the row of a thing stands.
    pub fn get(&self, number: usize) -> Slot {
        match self.slots.get(number) {
            Some(slot) => *slot,
            None => Slot::Unwanted,
        }
    }

    /// Where it stands from now on.
    pub fn set(&mut self, number: usize, slot: Slot) {
        if let Some(place) = self.slots.get_mut(number) {
            *place = slot;
        }
    }
}
