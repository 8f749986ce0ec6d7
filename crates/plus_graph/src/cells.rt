//! Lists with a number for each node or edge.

use std::alloc::{AllocError, Global};

/// No node, and no edge.
pub const NONE: usize = usize::MAX;

/// A list without a number yet.
pub fn unset(alloc: Global, len: usize) -> Result<Vec<usize>, AllocError> {
    vec![in alloc; NONE; len]
}

/// The number at a place; past the end there is none.
pub fn at(list: &[usize], place: usize) -> usize {
    match list.get(place) {
        None => NONE,
        Some(number) => *number,
    }
}

/// Sets the number at a place; past the end nothing.
pub fn put(list: &mut Vec<usize>, place: usize, number: usize) {
    if place < list.len() {
        list[place] = number;
    }
}
