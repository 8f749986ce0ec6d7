//! Walks the initial state.

ghost use Rattle.std.specs.Prelude.{◌≡◌, [], ◌∷◌, ◌++◌, not, map, IfOk, OnOk, if◌then◌else◌};
ghost use Rattle.std.specs.List.{list_any, fold};
ghost use Rattle.std.specs.Str.{bytes_eq};
ghost use Rattle.std.specs.Cmp.{partial_equiv_from_equiv};
ghost use Rattle.std.specs.Cmp.Lexicographic.{pointwise, lists_per, lists_equiv, nat_list_eq_equiv, pointwise_decides, bytes_decides};
ghost use Rattle.plus_types.specs.Faults.{Walks, ground_name, same_names, term_name, initial_faults, valued_after, init_faults};
ghost use Rattle.plus_types.specs.Known.{context};

use crate::faults::{TypeFault, Wrong};
use crate::kinds::Kinds;
use crate::known::Known;
use crate::uses::used;
use indexmap::IndexSet;
use plus_tree::{Init, Term, Use};
use std::alloc::{AllocError, Global};
use std::hash::{Hash, Hasher};
use std::marker::Model;

// The bytes of the name of a term.
fn term_name(term: &Term) -> &[u8]
    ensures { result.now ≡ term_name term.now }
{
    match term {
        Term::Object(name) | Term::Variable(name) => name.name.bytes(),
    }
}

// Whether two terms have the same name.
fn named_alike(term: &Term, other: &Term) -> bool
    ensures { result ≡ bytes_eq (term_name term.now) (term_name other.now) }
{
    term_name(term) == term_name(other)
}

// Whether the names of these terms are those of the others.
fn same_terms(terms: &[Term], others: &[Term]) -> bool
    ensures { result ≡ pointwise bytes_eq (map term_name terms.now) (map term_name others.now) }
{
    match terms {
        [] => others.is_empty(),
        [term, terms @ ..] => match others {
            [] => false,
            [other, others @ ..] => named_alike(term, other) && same_terms(terms, others),
        },
    }
}

// Writes the names of these terms.
fn write_names<H: Hasher>(terms: &[Term], state: &mut H)
    ensures { state.new ≡ fold H.write state.old (map term_name terms.now) }
{
    'terms: for term in terms {
        state.write(term_name(term));
    }
}

// A ground fluent. Two are the same where their names are.
#[derive(Drop)]
struct Fluent<'a>(&'a Use);

impl<'a> Model for Fluent<'a> {
    ghost use Rattle.std.specs.Prelude.{List, ℕ};
    ghost use Rattle.plus_types.specs.Faults.{ground_name};

    ghost Value = { List (List ℕ) };

    ghost view = { λ f. ground_name f.0.now };
}

impl<'a> PartialEq for Fluent<'a> {
    ghost eq = { pointwise bytes_eq };

    ghost laws = { lists_per (partial_equiv_from_equiv nat_list_eq_equiv) };

    fn eq(&self, other: &Fluent<'a>) -> bool {
        self.0.head.name.bytes() == other.0.head.name.bytes()
            && same_terms(self.0.args.as_slice(), other.0.args.as_slice())
    }
}

impl<'a> Eq for Fluent<'a> {
    ghost laws = { lists_equiv nat_list_eq_equiv };
}

impl<'a> Hash for Fluent<'a> {
    ghost hash_input = { λ f. f };

    ghost respects_eq = { λ x y. (pointwise_decides bytes_decides x y).0 };

    fn hash<H: Hasher>(&self, state: &mut H) {
        state.write(self.0.head.name.bytes());
        write_names(self.0.args.as_slice(), state);
    }
}

/// The ground fluents that have a first value. Contracts see each as the list of its names.
#[derive(Drop)]
struct Valued<'a> {
    table: IndexSet<Fluent<'a>>,
}

impl<'a> Model for Valued<'a> {
    ghost use Rattle.std.specs.Prelude.{List, ℕ, map};
    ghost use Rattle.std.specs.Coded.{coded_list, coded_ℕ};

    ghost Value = { List (List (List ℕ)) };

    ghost coded = { coded_list (coded_list (coded_list coded_ℕ)) };

    ghost view = { λ v. v.table.keys };
}

impl<'a> Valued<'a> {
    fn new(alloc: Global) -> Valued<'a>
        ensures { result ≡ [] }
    {
        Valued {
            table: IndexSet::new(alloc),
        }
    }

    // Adds a ground fluent at the end, and answers whether it was new.
    fn add(&mut self, fluent: &'a Use) -> Result<bool, AllocError>
        ensures fresh { IfOk result (λ fresh. fresh ≡ not (list_any (same_names (ground_name fluent.now)) self.old)) }
        ensures added { IfOk result (λ fresh. self.new ≡ (if fresh then self.old ++ ground_name fluent.now ∷ [] else self.old)) }
    {
        let (_, fresh) = self.table.insert_full(Fluent(fluent))?;
        Ok(fresh)
    }
}

#[tactic(auto, using(crate::proofs::WalkLemmas::walking))]
fn initial<'a>(
    known: &Known<'_>,
    none: &Kinds,
    valued: &mut Valued<'a>,
    member: &'a Init,
) -> Result<(), TypeFault>
    requires { none.now ≡ [] }
    ensures walks { Walks (initial_faults (context known.now) valued.old member.now) result }
    ensures valued { IfOk result (λ _. valued.new ≡ valued_after valued.old member.now) }
{
    match member {
        Init::Holds(atom)
        | Init::Absent(atom, _)
        | Init::At(_, atom, _)
        | Init::AtNot(_, atom, _) => used(known, none, &known.predicates, atom),
        Init::Value(fluent, _, span) => {
            used(known, none, &known.functions, fluent)?;
            if valued.add(fluent)? {
                Ok(())
            } else {
                Err(TypeFault::At {
                    wrong: Wrong::Twice,
                    file: known.file,
                    span: *span,
                })
            }
        }
    }
}

/// Walks the initial state.
#[tactic(auto, using(crate::proofs::WalkLemmas::walking))]
pub fn init(alloc: Global, known: &Known<'_>, members: &[Init]) -> Result<(), TypeFault>
    ensures { Walks (init_faults (context known.now) [] members.now) result }
{
    let none = Kinds::new(alloc);
    let mut valued = Valued::new(alloc);
    'members: for member in members {
        initial(known, &none, &mut valued, member)?;
    }
    Ok(())
}
