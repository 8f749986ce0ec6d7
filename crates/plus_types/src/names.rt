//! A table of names, numbered in the order in which they were declared.

ghost use Rattle.std.specs.Prelude.{◌≡◌, ◌==◌, ◌<◌, [], ◌∷◌, ◌++◌, not, length, position, get_or, IfOk, IfSome, if◌then◌else◌};
ghost use Rattle.std.specs.List.{list_any};
ghost use Rattle.std.specs.Str.{bytes_eq};

use indexmap::IndexSet;
use std::alloc::{AllocError, Global};
use std::marker::Model;

// A name is sought one by one among so many, and by its hash among more.
const FEW: usize = 8;

// The comparison of slices is made for longer names than these.
const SHORT: usize = 16;

// Whether the names are the same, byte for byte, up to the first that differs.
fn same_bytes(name: &[u8], other: &[u8]) -> bool
    ensures { result ≡ bytes_eq name.now other.now }
{
    match name {
        [] => other.is_empty(),
        [a, b, c, d, name @ ..] => match other {
            [e, f, g, h, other @ ..] => {
                *a == *e && *b == *f && *c == *g && *d == *h && same_bytes(name, other)
            }
            _ => false,
        },
        [a, name @ ..] => match other {
            [] => false,
            [b, other @ ..] => *a == *b && same_bytes(name, other),
        },
    }
}

// Whether two names are the same. Short ones are seen through sooner by this than by `==`.
fn same(name: &[u8], other: &[u8]) -> bool
    ensures { result ≡ bytes_eq name.now other.now }
{
    if name.len() > SHORT {
        return name == other;
    }
    same_bytes(name, other)
}

/// Whether two names are the same. Most differ in their lengths already.
#[inline(always)]
pub(crate) fn is_name(name: &[u8], other: &[u8]) -> bool
    ensures { result ≡ bytes_eq name.now other.now }
{
    name.len() == other.len() && same(name, other)
}

/// Names without repeats, in the order in which they were added.
#[derive(Drop)]
pub struct Names {
    table: IndexSet<Vec<u8>>,
}

impl Model for Names {
    ghost use Rattle.std.specs.Prelude.{List, ℕ, map};

    ghost Value = { List (List ℕ) };

    ghost view = { λ n. map (λ key. key.items) n.table.keys };
}

impl Names {
    /// The table without any name.
    pub fn new(alloc: Global) -> Names
        ensures { result ≡ [] }
    {
        Names {
            table: IndexSet::new(alloc),
        }
    }

    /// Adds a name at the end, and answers whether it was new.
    pub fn add(&mut self, alloc: Global, name: &[u8]) -> Result<bool, AllocError>
        ensures fresh { IfOk result (λ fresh. fresh ≡ not (list_any (bytes_eq name.now) self.old)) }
        ensures added { IfOk result (λ fresh. self.new ≡ (if fresh then self.old ++ name.now ∷ [] else self.old)) }
    {
        let key = Vec::from_slice(alloc, name)?;
        let (_, fresh) = self.table.insert_full(key)?;
        Ok(fresh)
    }

    /// The number of a name: its place, from 0.
    pub fn number(&self, name: &[u8]) -> Option<usize>
        ensures place { result ≡ position (bytes_eq name.now) self.now }
        ensures within { IfSome result (λ i. i < length self.now) }
    {
        let keys = self.table.as_slice();
        if keys.len() > FEW {
            return self.table.get_index_of(name);
        }
        'keys: for place in 0..keys.len() {
            if is_name(name, keys[place].as_slice()) {
                return Some(place);
            }
        }
        None
    }

    /// The name at a place.
    pub fn name(&self, place: usize) -> &[u8]
        requires { place < length self.now }
        ensures { result.now ≡ get_or self.now place [] }
    {
        self.table.as_slice()[place].as_slice()
    }

    /// Whether a name is in the table.
    pub fn contains(&self, name: &[u8]) -> bool
        ensures { result ≡ list_any (bytes_eq name.now) self.now }
    {
        self.table.contains(name)
    }

    /// Whether there is a name other than this one.
    pub fn has_another(&self, name: &[u8]) -> bool
        ensures { result ≡ list_any (λ x. not (bytes_eq x name.now)) self.now }
    {
        'keys: for key in self.table.as_slice() {
            if key.as_slice() != name {
                return true;
            }
        }
        false
    }

    /// How many names there are.
    pub fn len(&self) -> usize
        ensures { result ≡ length self.now }
    {
        self.table.len()
    }

    /// Whether there is no name.
    pub fn is_empty(&self) -> bool
        ensures { result ≡ (length self.now == 0) }
    {
        self.table.len() == 0
    }
}
