//! What becomes of memory that is needed no more.

use std::mem;

/// When memory that is needed no more is given back.
#[derive(Clone, Copy, PartialEq, Eq)]
pub enum Freeing {
    /// Now, value by value: for a caller that goes on.
    Now,
    /// When the program ends, by the system, which takes all of it in one go: for a program that ends
    /// right after. A caller that goes on loses it.
    AtExit,
}

impl Freeing {
    /// Lets a value go that is needed no more.
    pub fn let_go<T: Drop>(self, value: T) {
        match self {
            Freeing::Now => drop(value),
            Freeing::AtExit => mem::forget(value),
        }
    }
}
