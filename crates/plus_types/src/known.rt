//! What is declared where a form stands.

use crate::faults::File;
use crate::kinds::Kinds;
use crate::names::Names;
use crate::types::Types;
use plus_tree::{Head, TypedName};

/// The predicates or the functions of a domain, and the table of their names.
#[derive(Drop)]
pub struct Declared<'a> {
    pub names: &'a Names,
    pub heads: &'a [Head],
    ghost names_are: { names.now ≡ map (λ h. h.name.name) heads.now },
}

ghost use Rattle.std.specs.Prelude.{◌≡◌, map};

impl<'a> Declared<'a> {
    ghost use Rattle.std.specs.Prelude.{Some, None, MatchOption};
    ghost use Rattle.plus_types.specs.Faults.{params_of};

    /// The parameters of what has this name.
    pub fn params(&self, name: &[u8]) -> Option<&'a [TypedName]>
        ensures { MatchOption result (params_of self.now.heads.now name.now ≡ None)
            (λ params. params_of self.now.heads.now name.now ≡ Some params.now) }
    {
        match self.names.number(name) {
            None => None,
            Some(place) => Some(self.heads[place].params.as_slice()),
        }
    }
}

/// What a form may name: the types, the objects, the predicates and the functions; and the text in
/// which it stands.
#[derive(Drop)]
pub struct Known<'a> {
    pub types: &'a Types,
    pub objects: &'a Kinds,
    pub predicates: Declared<'a>,
    pub functions: Declared<'a>,
    pub file: File,
}
