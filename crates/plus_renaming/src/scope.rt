//! The variables in force inside an event.

ghost use Rattle.std.specs.Prelude.{◌≡◌, ◌<◌, ◌++◌, ◌∷◌, [], drop, OnOk};
ghost use Rattle.plus_translation.specs.Renamed.{new_name};

use plus_tree::Name;
use std::alloc::{AllocError, Global};
use std::marker::Model;

// A variable, and its new name.
#[derive(Drop)]
struct Bound<'a> {
    old: &'a [u8],
    new: Name,
}

/// The variables in force, each with its new name. Contracts see the list of both, inner ones first.
#[derive(Drop)]
pub struct Scope<'a> {
    bound: Vec<Bound<'a>>,
}

impl<'a> Model for Scope<'a> {
    ghost use Rattle.std.specs.Prelude.{List, ℕ, map, reverse};

    ghost Value = { List (List ℕ × List ℕ) };

    ghost view = { λ s. map (λ b. (b.old.now, b.new)) (reverse s.bound.items) };
}

impl<'a> Scope<'a> {
    /// No variable.
    pub fn new(alloc: Global) -> Scope<'a>
        ensures { result ≡ [] }
    {
        Scope {
            bound: Vec::new(alloc),
        }
    }

    /// One more variable, inside the others.
    pub fn bind(&mut self, old: &'a [u8], new: Name) -> Result<(), AllocError>
        ensures { OnOk result (self.new ≡ (old.now, new) ∷ self.old) }
    {
        self.bound.push(Bound { old, new })?;
        Ok(())
    }

    /// The innermost variables go, so many of them.
    #[tactic(auto, using(crate::proofs::ScopeLemmas::unbound))]
    pub fn unbind(&mut self, count: usize)
        ensures { self.new ≡ drop count self.old }
    {
        let left = self.bound.len().saturating_sub(count);
        self.bound.truncate(left);
    }

    /// The new name of a variable; itself where it is not in force.
    #[tactic(auto, using(crate::proofs::ScopeLemmas::looked))]
    pub fn new_name<'s>(&'s self, name: &'s [u8]) -> &'s [u8]
        ensures { result.now ≡ new_name self.now name.now }
    {
        let mut left = self.bound.len();
        'each: while left > 0 {
            left -= 1;
            let bound = &self.bound[left];
            if name == bound.old {
                return bound.new.bytes();
            }
        }
        name
    }
}
