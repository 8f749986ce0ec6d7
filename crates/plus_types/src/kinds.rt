//! A table of names with a type each, numbered in the order in which they were bound.

ghost use Rattle.std.specs.Prelude.{◌≡◌, ◌<◌, ◌^◌, [], ◌∷◌, ◌++◌, length, take, position, OnOk, IfSome, MatchOption, false};
ghost use Rattle.std.specs.Str.{bytes_eq};
ghost use Rattle.plus_types.specs.Types.{is_among, bound_names, kind_of};
ghost use Rattle.plus_types.specs.Listed.{name_at};

use indexmap::IndexMap;
use smallvec::SmallVec;
use std::alloc::{AllocError, Global};
use std::marker::Model;

/// Names with their types, without repeats, in the order in which they were bound. Of types, each
/// with the one above it. Contracts see it as the list of these pairs. The name of a type takes no memory
/// of its own up to 16 bytes.
#[derive(Drop)]
pub struct Kinds {
    table: IndexMap<Vec<u8>, SmallVec<u8, 16>>,
}

impl Model for Kinds {
    ghost use Rattle.std.specs.Prelude.{List, ℕ, map};
    ghost use Rattle.std.specs.Coded.{coded_list, coded×, coded_ℕ};

    ghost Value = { List (List ℕ × List ℕ) };

    ghost coded = { coded_list (coded× (coded_list coded_ℕ) (coded_list coded_ℕ)) };

    ghost view = { λ k. map (λ e. (e.0.items, e.1.items)) k.table.entries };
}

impl Kinds {
    /// The table without any name.
    pub fn new(alloc: Global) -> Kinds
        ensures { result ≡ [] }
    {
        Kinds {
            table: IndexMap::new(alloc),
        }
    }

    /// Binds a name at the end, which is not bound yet.
    pub fn bind(&mut self, alloc: Global, name: &[u8], kind: &[u8]) -> Result<(), AllocError>
        requires { is_among (bound_names self.old) name.now ≡ false }
        ensures { OnOk result (self.new ≡ self.old ++ (name.now, kind.now) ∷ []) }
    {
        let name = Vec::from_slice(alloc, name)?;
        let kind: SmallVec<u8, 16> = SmallVec::from_slice(alloc, kind)?;
        self.table.insert(name, kind)?;
        Ok(())
    }

    /// The type of a name.
    pub fn kind(&self, name: &[u8]) -> Option<&[u8]>
        ensures { MatchOption result (kind_of self.now name.now ≡ None) (λ k. kind_of self.now name.now ≡ Some k.now) }
    {
        match self.table.get(name) {
            None => None,
            Some(kind) => Some(kind.as_slice()),
        }
    }

    /// The number of a name: its place, from 0.
    pub fn number(&self, name: &[u8]) -> Option<usize>
        ensures place { result ≡ position (bytes_eq name.now) (bound_names self.now) }
        ensures within { IfSome result (λ i. i < length self.now) }
    {
        self.table.get_index_of(name)
    }

    /// The type of the name that has a number.
    pub fn kind_at(&self, number: usize) -> Option<&[u8]>
        ensures within { IfSome result (λ _. number < length self.now) }
        ensures kind { IfSome result (λ k. kind_of self.now (name_at self.now number) ≡ Some k.now) }
    {
        match self.table.get_index(number) {
            None => None,
            Some((_, kind)) => Some(kind.as_slice()),
        }
    }

    /// Whether a name is in the table.
    pub fn contains(&self, name: &[u8]) -> bool
        ensures { result ≡ is_among (bound_names self.now) name.now }
    {
        self.table.contains_key(name)
    }

    /// How many names there are.
    pub fn len(&self) -> usize
        ensures len { result ≡ length self.now }
        ensures small { result < 2 ^ 63 }
    {
        self.table.len()
    }

    /// Forgets all but the first names.
    pub fn truncate(&mut self, len: usize)
        ensures { self.new ≡ take len self.old }
    {
        self.table.truncate(len);
    }
}
