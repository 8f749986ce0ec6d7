//! What was read so far of a form whose parts come in any order, each at most once.

ghost use Rattle.std.specs.Prelude.{◌≡◌, IfOk};

use plus_tree::{CondTree, EffectTree, Head, Init, Members, Schema, Spelled, TypedName};
use std::alloc::{AllocError, Global};
use std::marker::Model;

/// A tree in a place of its own, so that the parts around it stay small. Contracts see it as the
/// tree.
#[derive(Drop)]
pub struct Kept<T> {
    tree: Box<T>,
}

impl<T> Model for Kept<T> {
    ghost Value = { T };

    ghost coded = { T.code };

    ghost view = { λ a. a.tree.value };
}

impl<T: Drop> Kept<T> {
    /// Keeps a tree.
    pub fn new(alloc: Global, tree: T) -> Result<Kept<T>, AllocError>
        ensures { IfOk result (λ kept. kept ≡ tree) }
    {
        Ok(Kept {
            tree: Box::new(alloc, tree)?,
        })
    }

    /// The tree.
    pub fn into_tree(self) -> T
        ensures { result ≡ self }
    {
        let Kept { tree } = self;
        Box::into_inner(tree)
    }
}

/// What was read of an action, a process or an event.
#[derive(Drop)]
pub struct Keys {
    pub parameters: Option<Members<TypedName>>,
    pub condition: Option<Kept<CondTree>>,
    pub effect: Option<Kept<EffectTree>>,
}

/// What was read of a domain.
#[derive(Drop)]
pub struct DomainParts {
    pub requirements: Option<Members<Spelled>>,
    pub types: Option<Members<TypedName>>,
    pub constants: Option<Members<TypedName>>,
    pub predicates: Option<Members<Head>>,
    pub functions: Option<Members<Head>>,
    pub actions: Members<Schema>,
    pub processes: Members<Schema>,
    pub events: Members<Schema>,
}

/// What was read of `:functions`, and whether their type may follow.
#[derive(Drop)]
pub struct Functions {
    pub heads: Members<Head>,
    pub untyped: bool,
}

/// What was read of a problem.
#[derive(Drop)]
pub struct ProblemParts {
    pub domain: Option<Spelled>,
    pub requirements: Option<Members<Spelled>>,
    pub objects: Option<Members<TypedName>>,
    pub init: Option<Members<Init>>,
    pub goal: Option<Kept<CondTree>>,
    pub metric: bool,
}
