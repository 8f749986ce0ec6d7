//! What a step changes of a state.
ghost use Rattle.std.specs.Prelude.{◌≡◌, [], ◌++◌, IfOk, OnOk, OnErr};

use crate::term::{AtomId, FluentId};
use plus_number::exact::Exact;
use std::alloc::{AllocError, Global};
use std::marker::Model;

/// The truth of an atom afterwards.
#[derive(Clone, Copy)]
pub struct AtomChange {
    pub atom: AtomId,
    pub truth: bool,
}

/// The value of a fluent afterwards, if it has one.
#[derive(Clone, Copy)]
pub struct FluentChange<Q> {
    pub fluent: FluentId,
    pub value: Option<Q>,
}

/// Changes of a state. What a step gives lists each atom and each fluent at most once, by their
/// numbers from the lowest, and may list one that stays as it is.
#[derive(Drop)]
pub struct Changes<Q: Exact> {
    pub atoms: Vec<AtomChange>,
    pub fluents: Vec<FluentChange<Q>>,
}

impl<Q: Exact> Model for Changes<Q> {
    ghost use Rattle.plus_state.specs.Changes.{Changes as Meant};
    ghost use Rattle.plus_state.specs.ChangesCode.{coded_changes};
    ghost use Rattle.plus_state.specs.ChangesView.{atom_changes, fluent_changes};

    ghost Value = { Meant };

    ghost coded = { coded_changes };

    ghost view = { λ c. record {
      atoms = atom_changes c.atoms.items;
      fluents = fluent_changes Q.value c.fluents.items;
    } };
}

impl<Q: Exact> Changes<Q> {
    /// No changes. It takes no memory.
    pub fn none(alloc: Global) -> Changes<Q>
        ensures { result ≡ record { atoms = []; fluents = [] } }
    {
        Changes {
            atoms: Vec::new(alloc),
            fluents: Vec::new(alloc),
        }
    }

    /// Adds changes that are made after these.
    #[inline(always)]
    pub fn append(&mut self, later: &Changes<Q>) -> Result<(), AllocError>
        ensures ok { OnOk result (self.new ≡ record {
          atoms = self.old.atoms ++ later.now.atoms;
          fluents = self.old.fluents ++ later.now.fluents;
        }) }
        ensures err { OnErr result (self.new ≡ self.old) }
    {
        self.fluents.reserve(later.fluents.len())?;
        self.atoms.extend_from_slice(&later.atoms)?;
        self.fluents.extend_from_slice(&later.fluents)?;
        Ok(())
    }

    /// Forgets the changes, and keeps their memory for others.
    pub fn clear(&mut self)
        ensures { self.new ≡ record { atoms = []; fluents = [] } }
    {
        self.atoms.clear();
        self.fluents.clear();
    }

    /// Equal changes.
    #[inline(always)]
    pub fn copy(&self, alloc: Global) -> Result<Changes<Q>, AllocError>
        ensures { IfOk result (λ c. c ≡ self.now) }
    {
        Ok(Changes {
            atoms: Vec::from_slice(alloc, &self.atoms)?,
            fluents: Vec::from_slice(alloc, &self.fluents)?,
        })
    }
}
