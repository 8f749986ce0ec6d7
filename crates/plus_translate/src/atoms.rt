//! Ground atoms in order, looked up by their names.

ghost use Rattle.std.specs.Prelude.{◌≡◌, [], ◌∷◌, ◌++◌, map, IfOk, OnOk, if◌then◌else◌};
ghost use Rattle.std.specs.List.{list_any};
ghost use Rattle.plus_types.specs.Faults.{term_name, ground_name};
ghost use Rattle.plus_translation.specs.Translated.{same_atom};
ghost use Rattle.plus_translate.specs.Atoms.{atoms_of};

use indexmap::IndexSet;
use plus_tree::{Term, Use};
use std::alloc::{AllocError, Global};
use std::marker::Model;

/// Atoms that are lent. Contracts see the list of them.
pub struct Atoms<'a> {
    list: Vec<&'a Use>,
    table: IndexSet<Vec<&'a [u8]>>,
}

impl<'a> Model for Atoms<'a> {
    ghost use Rattle.std.specs.Prelude.{List};
    ghost use Rattle.plus_tree.specs.declared.terms.Use.{Use};
    ghost use Rattle.plus_translate.specs.Atoms.{atoms_of, IsTableOf};

    ghost Value = { List Use };

    ghost view = { λ a. atoms_of a.list.items };

    ghost invariant = { λ a. IsTableOf a.table.keys (atoms_of a.list.items) };
}

impl Drop for Atoms<'_> {
    fn drop(self) {
        let Atoms { list, table } = self;
        drop(list);
        drop(table);
    }
}

// The bytes of the name of a term.
fn term_name(term: &Term) -> &[u8]
    ensures { result.now ≡ term_name term.now }
{
    match term {
        Term::Object(name) | Term::Variable(name) => name.name.bytes(),
    }
}

// The names of a ground atom.
fn key<'a>(alloc: Global, atom: &'a Use) -> Result<Vec<&'a [u8]>, AllocError>
    ensures { IfOk result (λ key. map (λ name. name.now) key.items ≡ ground_name atom.now) }
{
    let mut names = Vec::new(alloc);
    names.push(atom.head.name.bytes())?;
    'terms: for arg in atom.args.as_slice() {
        names.push(term_name(arg))?;
    }
    Ok(names)
}

impl<'a> Atoms<'a> {
    pub fn new(alloc: Global) -> Atoms<'a>
        ensures { result ≡ [] }
    {
        Atoms {
            list: Vec::new(alloc),
            table: IndexSet::new(alloc),
        }
    }

    /// The atoms in order.
    pub fn list(&self) -> &[&'a Use]
        ensures { atoms_of result.now ≡ self.now }
    {
        &self.list
    }

    /// Whether the atom is among them.
    pub fn has(&self, alloc: Global, atom: &'a Use) -> Result<bool, AllocError>
        ensures { IfOk result (λ found. found ≡ list_any (same_atom atom.now) self.now) }
    {
        if self.list.is_empty() {
            return Ok(false);
        }
        let key = key(alloc, atom)?;
        Ok(self.table.contains(&key))
    }

    /// Appends an atom.
    pub fn push(&mut self, alloc: Global, atom: &'a Use) -> Result<(), AllocError>
        ensures { OnOk result (self.new ≡ self.old ++ atom.now ∷ []) }
    {
        self.list.reserve(1)?;
        let key = key(alloc, atom)?;
        self.table.insert_full(key)?;
        self.list.push(atom).unwrap();
        Ok(())
    }

    /// Appends an atom that is not among them.
    pub fn add(&mut self, alloc: Global, atom: &'a Use) -> Result<(), AllocError>
        ensures { OnOk result (self.new
            ≡ (if list_any (same_atom atom.now) self.old then self.old else self.old ++ atom.now ∷ [])) }
    {
        if self.has(alloc, atom)? {
            return Ok(());
        }
        self.push(alloc, atom)
    }
}
