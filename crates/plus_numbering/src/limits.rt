//! How many objects, ground atoms and ground fluents there may be (this project's profile).

/// Objects, the domain's constants among them.
pub const MOST_OBJECTS: usize = 10_000;

/// Ground atoms.
pub const MOST_ATOMS: u32 = 200_000;

/// Ground fluents.
pub const MOST_FLUENTS: u32 = 50_000;
