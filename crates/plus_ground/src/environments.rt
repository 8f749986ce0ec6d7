//! What variables stand for, and the ground atoms and fluents that uses name there.

ghost use Rattle.std.specs.Prelude.{◌≡◌, ℕ, [], ◌∷◌, ◌++◌, ◌-◌, ◌≤◌, ◌<◌, ◌^◌, length, map, take, IfOk, OnOk};
ghost use Rattle.plus_numbering.specs.Numbered.{context};
ghost use Rattle.plus_expansion.specs.Objects.{object_names};
ghost use Rattle.plus_expansion.specs.Numbers.{label_of};
ghost use Rattle.plus_expansion.specs.Environments.{environments, bound_object, term_object, use_objects, atom_number, fluent_number};
ghost use Rattle.plus_ground.specs.Nothing.{have_objects};

use plus_numbering::Numbering;
use plus_state::{AtomId, FluentId, Label};
use plus_tree::{Term, TypedName, Use};
use smallvec::SmallVec;
use std::alloc::{AllocError, Global};
use std::default::MadeWith;
use std::marker::Model;

/// A variable, by its name, and the object that it stands for, by its place.
#[derive(Clone, Copy)]
struct Bound<'a> {
    name: &'a [u8],
    object: u32,
}

// What an empty place of an environment holds.
impl MadeWith<Global> for Bound<'_> {
    fn made_with(_alloc: Global) -> Self {
        Bound {
            name: &[],
            object: 0,
        }
    }
}

/// What the variables in force stand for, outer ones before inner ones. Contracts see it as the list
/// of their names and objects.
#[derive(Drop)]
pub struct Environment<'a> {
    bound: SmallVec<Bound<'a>, 4>,
}

impl<'a> Model for Environment<'a> {
    ghost use Rattle.std.specs.Prelude.{List, ℕ, map};

    ghost Value = { List (List ℕ × ℕ) };

    ghost view = { λ e. map (λ b. (b.name.now, b.object)) e.bound.items };
}

impl<'a> Environment<'a> {
    /// The environment without a variable.
    pub fn new(alloc: Global) -> Environment<'a>
        ensures { result ≡ [] }
    {
        Environment {
            bound: SmallVec::new(alloc),
        }
    }

    /// One more variable, inside the others.
    #[inline(always)]
    pub fn bind(&mut self, name: &'a [u8], object: u32) -> Result<(), AllocError>
        ensures { OnOk result (self.new ≡ self.old ++ (name.now, object) ∷ []) }
    {
        self.bound.push(Bound { name, object })?;
        Ok(())
    }

    /// The environment without its innermost variable.
    #[inline(always)]
    pub fn unbind(&mut self)
        ensures { self.new ≡ take (length self.old - 1) self.old }
    {
        self.bound.pop();
    }

    /// An equal environment with one more variable, inside the others.
    pub fn with(
        &self,
        alloc: Global,
        name: &'a [u8],
        object: u32,
    ) -> Result<Environment<'a>, AllocError>
        ensures { IfOk result (λ e. e ≡ self.now ++ (name.now, object) ∷ []) }
    {
        let mut inner = self.copy(alloc)?;
        inner.bind(name, object)?;
        Ok(inner)
    }

    /// An equal environment.
    #[inline(always)]
    pub fn copy(&self, alloc: Global) -> Result<Environment<'a>, AllocError>
        ensures { IfOk result (λ e. e ≡ self.now) }
    {
        let bound = SmallVec::from_slice(alloc, self.bound.as_slice())?;
        Ok(Environment { bound })
    }

    // The objects that the variables stand for.
    fn objects(&self, alloc: Global) -> Result<SmallVec<u32, 4>, AllocError>
        ensures { IfOk result (λ os. os.items ≡ map (λ b. b.1) self.now) }
    {
        let mut objects = SmallVec::new(alloc);
        'bound: for bound in self.bound.as_slice() {
            objects.push(bound.object)?;
        }
        Ok(objects)
    }

    /// The label of a form with this name in the environment of its parameters.
    #[inline(always)]
    pub fn label(
        &self,
        alloc: Global,
        numbering: &Numbering,
        name: &[u8],
    ) -> Result<Label, AllocError>
        ensures { IfOk result (λ l. l ≡ label_of name.now
            (object_names (context numbering.now) (map (λ b. b.1) self.now))) }
    {
        if let [only] = self.bound.as_slice() {
            return numbering.label(alloc, name, &[only.object]);
        }
        let objects = self.objects(alloc)?;
        numbering.label(alloc, name, objects.as_slice())
    }

    /// The object that a variable stands for, the innermost where several lists bind it, or this one where
    /// it stands for none.
    pub fn object(&self, name: &[u8], none: u32) -> u32
        ensures { result ≡ bound_object none self.now name.now }
    {
        let bounds = self.bound.as_slice();
        let mut left = bounds.len();
        'outward: while left > 0 {
            left -= 1;
            if name == bounds[left].name {
                return bounds[left].object;
            }
        }
        none
    }
}

// Adds the environments in which each of these variables, inside those of `env`, stands for an object
// of its type: one for each choice, the first variable changing slowest.
#[tactic(auto, using(crate::proofs::EnvironmentsLemmas::giving))]
fn extend<'a>(
    alloc: Global,
    numbering: &Numbering,
    vars: &'a [TypedName],
    env: Environment<'a>,
    into: &mut Vec<Environment<'a>>,
) -> Result<(), AllocError>
    ensures { OnOk result (into.new.items ≡ into.old.items
        ++ environments (context numbering.now) vars.now env.entry) }
{
    match vars {
        [] => {
            into.push(env)?;
            Ok(())
        }
        [first, rest @ ..] => {
            let name = first.name.name.bytes();
            'members: for member in numbering.members(first.kind.name.bytes()) {
                let inner = env.with(alloc, name, *member)?;
                extend(alloc, numbering, rest, inner, into)?;
            }
            Ok(())
        }
    }
}

/// Whether there is an object of the type of each variable. Asked first, since else the choices of the
/// variables before an empty type would be walked for nothing.
pub fn have_objects(numbering: &Numbering, vars: &[TypedName]) -> bool
    ensures { result ≡ have_objects (context numbering.now) vars.now }
{
    'vars: for var in vars {
        if numbering.members(var.kind.name.bytes()).is_empty() {
            return false;
        }
    }
    true
}

/// How many environments there are for the first variable alone.
pub fn fewest(numbering: &Numbering, vars: &[TypedName]) -> usize {
    match vars {
        [] => 1,
        [first, ..] => numbering.members(first.kind.name.bytes()).len(),
    }
}

/// The environments in which each variable of a list, inside those of `env`, stands for an object of
/// its type: one for each choice, the first variable changing slowest.
pub fn environments<'a>(
    alloc: Global,
    numbering: &Numbering,
    vars: &'a [TypedName],
    env: &Environment<'a>,
) -> Result<Vec<Environment<'a>>, AllocError>
    ensures { IfOk result (λ es. es.items
        ≡ environments (context numbering.now) vars.now env.now) }
{
    if !have_objects(numbering, vars) {
        return Ok(Vec::new(alloc));
    }
    let mut inner = Vec::with_capacity(alloc, fewest(numbering, vars))?;
    extend(alloc, numbering, vars, env.copy(alloc)?, &mut inner)?;
    Ok(inner)
}

/// The object of a term. Where a variable stands for none, the number of objects.
#[tactic(auto, using(crate::proofs::EnvironmentsLemmas::few_objects))]
pub fn term_object(numbering: &Numbering, env: &Environment, term: &Term) -> u32
    ensures { result
        ≡ term_object (context numbering.now) env.now term.now }
{
    match term {
        Term::Object(object) => numbering.object(object.name.bytes()),
        Term::Variable(variable) => {
            let none = numbering.typed.objects.len() as u32;
            env.object(variable.name.bytes(), none)
        }
    }
}

// The objects of the arguments of a use.
#[inline(always)]
fn use_objects(
    alloc: Global,
    numbering: &Numbering,
    env: &Environment,
    used: &Use,
) -> Result<SmallVec<u32, 4>, AllocError>
    ensures { IfOk result (λ os. os.items
        ≡ use_objects (context numbering.now) env.now used.now) }
{
    let mut objects = SmallVec::new(alloc);
    'terms: for term in used.args.as_slice() {
        objects.push(term_object(numbering, env, term))?;
    }
    Ok(objects)
}

/// The ground atom that a use names.
#[inline(always)]
pub fn atom(
    alloc: Global,
    numbering: &Numbering,
    env: &Environment,
    used: &Use,
) -> Result<AtomId, AllocError>
    ensures { IfOk result (λ a. a.0
        ≡ atom_number (context numbering.now) env.now used.now) }
{
    let name = used.head.name.bytes();
    if let [only] = used.args.as_slice() {
        return Ok(numbering.atom(name, &[term_object(numbering, env, only)]));
    }
    let objects = use_objects(alloc, numbering, env, used)?;
    Ok(numbering.atom(name, objects.as_slice()))
}

/// The ground fluent that a use names.
#[inline(always)]
pub fn fluent(
    alloc: Global,
    numbering: &Numbering,
    env: &Environment,
    used: &Use,
) -> Result<FluentId, AllocError>
    ensures { IfOk result (λ f. f.0
        ≡ fluent_number (context numbering.now) env.now used.now) }
{
    let name = used.head.name.bytes();
    if let [only] = used.args.as_slice() {
        return Ok(numbering.fluent(name, &[term_object(numbering, env, only)]));
    }
    let objects = use_objects(alloc, numbering, env, used)?;
    Ok(numbering.fluent(name, objects.as_slice()))
}
