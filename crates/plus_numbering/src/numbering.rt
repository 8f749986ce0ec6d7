//! The numbers of the ground atoms and ground fluents of a pair.

ghost use Rattle.std.specs.Prelude.{◌≡◌, ℕ, List, map, ◌≤◌, ◌<◌, ◌^◌, length, None, MatchResult, MatchOption, IfOk, IfSome, position};
ghost use Rattle.std.specs.Str.{bytes_eq};
ghost use Rattle.plus_tree.specs.declared.trees.Domain.{Domain as DomainTree};
ghost use Rattle.plus_tree.specs.declared.trees.Problem.{Problem as ProblemTree};
ghost use Rattle.plus_types.specs.Types.{bound_names};
ghost use Rattle.plus_expansion.specs.Objects.{members_of, object_place, object_names};
ghost use Rattle.plus_expansion.specs.Numbers.{ground_names, ground_labels, number_of, label_of};
ghost use Rattle.plus_numbering.specs.Tables.{context, starts_from, list_numbers};
ghost use Rattle.plus_expansion.specs.Counts.{first_over, name_counts};
ghost use Rattle.plus_numbering.specs.Refusals.{IsOver, RefusesCount};

use crate::extents::Extents;
use crate::faults::GroundFault;
use crate::labels::{label, labels};
use crate::limits::{MOST_ATOMS, MOST_FLUENTS, MOST_OBJECTS};
use crate::numbers::{kinds, number};
use crate::starts::starts;
use plus_expansion::Count;
use plus_state::{AtomId, FluentId, Label};
use plus_tree::Head;
use plus_types::Typed;
use plus_types::known::Declared;
use std::alloc::{AllocError, Global};

/// A well-typed pair inside the limits, and the tables by which its objects, ground atoms and ground
/// fluents are found: an object by its place among the constants and then the objects, a ground atom
/// or fluent by its place among all.
#[derive(Drop)]
pub struct Numbering<'a> {
    pub typed: &'a Typed,
    extents: Extents<'a>,
    atoms: Vec<u32>,
    fluents: Vec<u32>,
    atom_kinds: Vec<Vec<usize>>,
    fluent_kinds: Vec<Vec<usize>>,
    ghost within: { first_over (name_counts (context typed.now)) ≡ None },
    ghost extents_are: { extents.typed.now ≡ typed.now },
    ghost atoms_are: { atoms.items ≡ starts_from (context typed.now) 0 typed.now.domain.predicates },
    ghost fluents_are: { fluents.items ≡ starts_from (context typed.now) 0 typed.now.domain.functions },
    ghost atom_kinds_are: { map (λ ks. ks.items) atom_kinds.items ≡ map (λ h. list_numbers extents.names h.params) typed.now.domain.predicates },
    ghost fluent_kinds_are: { map (λ ks. ks.items) fluent_kinds.items ≡ map (λ h. list_numbers extents.names h.params) typed.now.domain.functions },
}

// Where the ground atoms or fluents of each of these predicates or functions begin, and the numbers of the lists
// of the types of its parameters.
fn starts_and_kinds(
    alloc: Global,
    extents: &Extents<'_>,
    heads: &[Head],
    kind: Count,
    most: u32,
) -> Result<(Vec<u32>, Vec<Vec<usize>>), GroundFault>
    requires { most < 2 ^ 31 }
    ensures counts { MatchResult result
        (λ t. (t.0.items ≡ starts_from (context extents.now.typed.now) 0 heads.now)
        × (length (ground_names (context extents.now.typed.now) heads.now) ≤ most))
        (IsOver kind most (length (ground_names (context extents.now.typed.now) heads.now))) }
    ensures kinds { IfOk result (λ t. map (λ ks. ks.items) t.1.items ≡ map (λ h. list_numbers extents.now.names h.params) heads.now) }
{
    let starts = starts(alloc, extents, heads, kind, most)?;
    let kinds = kinds(alloc, extents, heads)?;
    Ok((starts, kinds))
}

impl<'a> Numbering<'a> {
    /// Numbers the ground atoms and fluents of a pair. `TooMany` comes where there are more than
    /// 10,000 objects, else where there are more than 200,000 ground atoms, else where there are more
    /// than 50,000 ground fluents.
    pub fn new(alloc: Global, typed: &'a Typed) -> Result<Numbering<'a>, GroundFault>
        ensures of { IfOk result (λ n. n.typed.now ≡ typed.now) }
        ensures counts { MatchResult result
            (λ _. first_over (name_counts (context typed.now)) ≡ None)
            (RefusesCount (name_counts (context typed.now))) }
    {
        if typed.objects.len() > MOST_OBJECTS {
            return Err(GroundFault::TooMany {
                kind: Count::Objects,
                most: MOST_OBJECTS as u32,
            });
        }
        let extents = Extents::new(alloc, typed)?;
        let predicates = typed.domain.predicates.as_slice();
        let (atoms, atom_kinds) = starts_and_kinds(
            alloc,
            &extents,
            predicates,
            Count::Atoms,
            MOST_ATOMS,
        )?;
        let functions = typed.domain.functions.as_slice();
        let (fluents, fluent_kinds) = starts_and_kinds(
            alloc,
            &extents,
            functions,
            Count::Fluents,
            MOST_FLUENTS,
        )?;
        Ok(Numbering {
            typed,
            extents,
            atoms,
            fluents,
            atom_kinds,
            fluent_kinds,
        })
    }

    // The predicates, by their names.
    fn predicates(&self) -> Declared<'_>
        ensures { result.heads.now ≡ self.now.typed.now.domain.predicates }
    {
        Declared {
            names: &self.typed.predicates,
            heads: self.typed.domain.predicates.as_slice(),
        }
    }

    // The functions, by their names.
    fn functions(&self) -> Declared<'_>
        ensures { result.heads.now ≡ self.now.typed.now.domain.functions }
    {
        Declared {
            names: &self.typed.functions,
            heads: self.typed.domain.functions.as_slice(),
        }
    }

    /// The objects of a type, in order.
    pub fn members(&self, kind: &[u8]) -> &[u32]
        ensures { result.now ≡ members_of (context self.now.typed.now) kind.now }
    {
        self.extents.of_type(kind)
    }

    /// The place of the object with a name; where none has it, the number of objects.
    pub fn object(&self, name: &[u8]) -> u32
        ensures { result ≡ object_place (context self.now.typed.now) name.now }
    {
        match self.typed.objects.number(name) {
            None => self.typed.objects.len() as u32,
            Some(place) => place as u32,
        }
    }

    /// The ground atom of the predicate with a name and these objects. Where there is none, as with an
    /// object of a wrong type, the number of ground atoms.
    #[inline(always)]
    pub fn atom(&self, predicate: &[u8], objects: &[u32]) -> AtomId
        ensures { result.0 ≡ number_of (context self.now.typed.now)
            self.now.typed.now.domain.predicates predicate.now objects.now }
    {
        AtomId(number(
            &self.extents,
            &self.predicates(),
            &self.atoms,
            &self.atom_kinds,
            predicate,
            objects,
        ))
    }

    /// The ground fluent of the function with a name and these objects. Where there is none, as with an
    /// object of a wrong type, the number of ground fluents.
    #[inline(always)]
    pub fn fluent(&self, function: &[u8], objects: &[u32]) -> FluentId
        ensures { result.0 ≡ number_of (context self.now.typed.now)
            self.now.typed.now.domain.functions function.now objects.now }
    {
        FluentId(number(
            &self.extents,
            &self.functions(),
            &self.fluents,
            &self.fluent_kinds,
            function,
            objects,
        ))
    }

    /// How many ground atoms there are.
    pub fn atoms(&self) -> u32
        ensures count { result ≡ length (ground_names (context self.now.typed.now)
            self.now.typed.now.domain.predicates) }
        ensures few { result ≤ MOST_ATOMS }
    {
        self.atoms[self.typed.domain.predicates.as_slice().len()]
    }

    /// How many ground fluents there are.
    pub fn fluents(&self) -> u32
        ensures count { result ≡ length (ground_names (context self.now.typed.now)
            self.now.typed.now.domain.functions) }
        ensures few { result ≤ MOST_FLUENTS }
    {
        self.fluents[self.typed.domain.functions.as_slice().len()]
    }

    /// The labels of the ground atoms, by their numbers.
    pub fn atom_labels(&self, alloc: Global) -> Result<Vec<Label>, AllocError>
        ensures { IfOk result (λ ls. ls.items ≡ ground_labels (context self.now.typed.now)
            self.now.typed.now.domain.predicates) }
    {
        labels(
            alloc,
            &self.extents,
            self.typed.domain.predicates.as_slice(),
            &self.atoms,
            &self.atom_kinds,
        )
    }

    /// The labels of the ground fluents, by their numbers.
    pub fn fluent_labels(&self, alloc: Global) -> Result<Vec<Label>, AllocError>
        ensures { IfOk result (λ ls. ls.items ≡ ground_labels (context self.now.typed.now)
            self.now.typed.now.domain.functions) }
    {
        labels(
            alloc,
            &self.extents,
            self.typed.domain.functions.as_slice(),
            &self.fluents,
            &self.fluent_kinds,
        )
    }

    /// The label of a ground form: the name, and the names of these objects.
    #[inline(always)]
    pub fn label(&self, alloc: Global, name: &[u8], objects: &[u32]) -> Result<Label, AllocError>
        ensures { IfOk result (λ l. l ≡ label_of name.now
            (object_names (context self.now.typed.now) objects.now)) }
    {
        label(alloc, &self.extents, name, objects)
    }
}
