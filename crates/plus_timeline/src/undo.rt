//! What leads back to a root state.
ghost use Rattle.std.specs.Prelude.{◌≡◌, ◌++◌, [], length, IfOk, OnOk, OnErr};
ghost use Rattle.plus_model.specs.Value.{atom_of, fluent_of};
ghost use Rattle.plus_state.specs.Changes.{AreIn, Within};
ghost use Rattle.plus_state.specs.ChangesView.{atom_changes, fluent_changes};
ghost use Rattle.plus_timeline.specs.Undo.{recalled_list, recalled};

use plus_number::exact::Exact;
use plus_state::changes::{AtomChange, Changes, FluentChange};
use plus_state::states::State;
use std::alloc::{AllocError, Global};

/// What each atom and fluent was before each change since a root state, the oldest first. So the root is
/// the state with these made from the last to the first; and off what they name the two are the same.
#[derive(Drop)]
pub struct Undo<Q: Exact> {
    pub noted: Changes<Q>,
    // others that are needed no more, for their memory
    spare: Changes<Q>,
}

// Adds what the atoms of these changes are in a state.
fn recall_atoms<Q: Exact>(
    into: &mut Vec<AtomChange>,
    state: &State<Q>,
    changes: &[AtomChange],
) -> Result<(), AllocError>
    requires { AreIn (length state.now.atoms) (atom_changes changes.now) }
    ensures { OnOk result (atom_changes into.new.items ≡ atom_changes into.old.items ++ recalled_list (atom_of state.now) (atom_changes changes.now)) }
{
    'each: for change in changes {
        let truth = state.atom(change.atom);
        into.push(AtomChange {
            atom: change.atom,
            truth,
        })?;
    }
    Ok(())
}

// Adds what the fluents of these changes are in a state.
fn recall_fluents<Q: Exact>(
    into: &mut Vec<FluentChange<Q>>,
    state: &State<Q>,
    changes: &[FluentChange<Q>],
) -> Result<(), AllocError>
    requires { AreIn (length state.now.fluents) (fluent_changes Q.value changes.now) }
    ensures { OnOk result (fluent_changes Q.value into.new.items ≡ fluent_changes Q.value into.old.items ++ recalled_list (fluent_of state.now) (fluent_changes Q.value changes.now)) }
{
    'each: for change in changes {
        let value = state.fluent(change.fluent);
        into.push(FluentChange {
            fluent: change.fluent,
            value,
        })?;
    }
    Ok(())
}

/// Adds what the atoms and fluents of these changes are in a state.
pub fn recall<Q: Exact>(
    into: &mut Changes<Q>,
    state: &State<Q>,
    changes: &Changes<Q>,
) -> Result<(), AllocError>
    requires { Within (length state.now.atoms) (length state.now.fluents) changes.now }
    ensures { OnOk result (into.new ≡ record {
      atoms = into.old.atoms ++ (recalled state.now changes.now).atoms;
      fluents = into.old.fluents ++ (recalled state.now changes.now).fluents;
    }) }
{
    recall_atoms(&mut into.atoms, state, &changes.atoms)?;
    recall_fluents(&mut into.fluents, state, &changes.fluents)
}

impl<Q: Exact> Undo<Q> {
    /// Nothing was changed since.
    pub fn new(alloc: Global) -> Undo<Q>
        ensures { result.noted ≡ record { atoms = []; fluents = [] } }
    {
        Undo {
            noted: Changes::none(alloc),
            spare: Changes::none(alloc),
        }
    }

    /// Notes what the atoms and fluents of these changes are in a state, before they are changed.
    pub fn note(&mut self, state: &State<Q>, changes: &Changes<Q>) -> Result<(), AllocError>
        requires { Within (length state.now.atoms) (length state.now.fluents) changes.now }
        ensures ok { OnOk result (self.new.noted ≡ record {
          atoms = self.old.noted.atoms ++ (recalled state.now changes.now).atoms;
          fluents = self.old.noted.fluents ++ (recalled state.now changes.now).fluents;
        }) }
        ensures err { OnErr result (self.new.noted ≡ self.old.noted) }
    {
        self.spare.clear();
        recall(&mut self.spare, state, changes)?;
        self.noted.append(&self.spare)
    }

    /// Notes what a step is about to change whose atoms stand in some changes and whose fluents in others.
    pub fn note_joined(
        &mut self,
        state: &State<Q>,
        atoms: &Changes<Q>,
        fluents: &Changes<Q>,
    ) -> Result<(), AllocError>
        requires atoms { AreIn (length state.now.atoms) atoms.now.atoms }
        requires fluents { AreIn (length state.now.fluents) fluents.now.fluents }
        ensures ok { OnOk result (self.new.noted ≡ record {
          atoms = self.old.noted.atoms ++ (recalled state.now atoms.now).atoms;
          fluents = self.old.noted.fluents ++ (recalled state.now fluents.now).fluents;
        }) }
        ensures err { OnErr result (self.new.noted ≡ self.old.noted) }
    {
        self.spare.clear();
        recall_atoms(&mut self.spare.atoms, state, &atoms.atoms)?;
        recall_fluents(&mut self.spare.fluents, state, &fluents.fluents)?;
        self.noted.append(&self.spare)
    }

    /// How many were noted of the kind of which there are more.
    pub fn len(&self) -> usize {
        self.noted.atoms.len().max(self.noted.fluents.len())
    }

    /// The same.
    pub fn copy(&self, alloc: Global) -> Result<Undo<Q>, AllocError>
        ensures { IfOk result (λ u. u.noted ≡ self.now.noted) }
    {
        Ok(Undo {
            noted: self.noted.copy(alloc)?,
            spare: Changes::none(alloc),
        })
    }
}
