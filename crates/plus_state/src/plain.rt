//! Joint effects that are plain: the numbers of the atoms rise from one write to the next, and those of the fluents too.
//!
//! Nothing is to be sorted then, and no two writes meet: each is noted among the changes as it comes.
ghost use Rattle.std.specs.Prelude.{◌≡◌, ◌<◌, length, map, option_map, Ok, IsTrue};
ghost use Rattle.plus_model.specs.Joint.{joint};
ghost use Rattle.plus_model.specs.Value.{fluent_of};
ghost use Rattle.plus_state.specs.Asked.{AllFit};
ghost use Rattle.plus_state.specs.View.{effect_of};
ghost use Rattle.plus_state.specs.Fits.{AllEffectsFit};
ghost use Rattle.plus_state.specs.Changes.{patched, AreIn, Rises, RisesIn};
ghost use Rattle.plus_state.specs.ChangesView.{atom_change, atom_changes, fluent_changes};
ghost use Rattle.plus_state.specs.Due.{DueFits, DuesFit, updated as updated_of};
ghost use Rattle.plus_state.specs.Steps.{AllPass, joint_steps, updated_nodes};
ghost use Rattle.plus_state.specs.Stops.{due_of, as_list};
ghost use Rattle.plus_state.specs.Noted.{Extends, Notes, NotesDue};

use crate::changes::{AtomChange, Changes, FluentChange};
use crate::due::{Due, Update, effect_due};
use crate::states::State;
use crate::term::{AtomId, Effect, FluentId};
use crate::values::updated;
use plus_number::exact::Exact;

// Whether an atom's number is above all that are noted.
fn is_new_atom(atoms: &[AtomChange], atom: AtomId) -> bool
    ensures { IsTrue result → Rises (atom_changes atoms.now) → AreIn atom.0 (atom_changes atoms.now) }
{
    match atoms.last() {
        None => true,
        Some(last) => last.atom.0 < atom.0,
    }
}

// Notes what becomes of an atom, if its number is above all that are noted.
fn note_atom(atoms: &mut Vec<AtomChange>, change: AtomChange) -> bool
    ensures { IsTrue result → Extends (atom_changes atoms.old.items) (atom_change change) (atom_changes atoms.new.items) }
{
    is_new_atom(atoms, change.atom) && atoms.push(change).is_ok()
}

// Whether a fluent's number is above all that are noted.
fn is_new_fluent<Q: Exact>(fluents: &[FluentChange<Q>], fluent: FluentId) -> bool
    ensures { IsTrue result → Rises (fluent_changes Q.value fluents.now) → AreIn fluent.0 (fluent_changes Q.value fluents.now) }
{
    match fluents.last() {
        None => true,
        Some(last) => last.fluent.0 < fluent.0,
    }
}

// Notes what a write makes of a fluent, if its number is above all that are noted.
fn note_fluent<Q: Exact>(
    fluents: &mut Vec<FluentChange<Q>>,
    state: &State<Q>,
    fluent: FluentId,
    update: Update<Q>,
) -> bool
    requires { fluent.0 < length state.now.fluents }
    ensures fit { IsTrue result → AllFit Q.fits (updated_nodes update.op (Q.value update.amount) (fluent_of state.now fluent.0)) }
    ensures noted { IsTrue result → Extends (fluent_changes Q.value fluents.old.items)
        (fluent.0, updated_of update.op (Q.value update.amount) (fluent_of state.now fluent.0)) (fluent_changes Q.value fluents.new.items) }
{
    if !is_new_fluent(fluents, fluent) {
        return false;
    }
    match updated(update.op, update.amount, state.fluent(fluent)) {
        Err(_) => false,
        Ok(value) => fluents.push(FluentChange { fluent, value }).is_ok(),
    }
}

// Notes what a write changes, if its number is above all that are noted.
fn note<Q: Exact>(changes: &mut Changes<Q>, state: &State<Q>, write: Due<Q>) -> bool
    requires { DueFits (length state.now.atoms) (length state.now.fluents) (due_of Q.value write) }
    ensures { IsTrue result → Notes Q.fits (due_of Q.value write) state.now changes.old changes.new }
{
    match write {
        Due::Put(atom, truth) => note_atom(&mut changes.atoms, AtomChange { atom, truth }),
        Due::Set(fluent, update) => note_fluent(&mut changes.fluents, state, fluent, update),
    }
}

// The same of a write, if there is one.
#[inline(always)]
fn note_due<Q: Exact>(changes: &mut Changes<Q>, state: &State<Q>, write: Option<Due<Q>>) -> bool
    requires { DuesFit (length state.now.atoms) (length state.now.fluents) (as_list (option_map (due_of Q.value) write)) }
    ensures { IsTrue result → NotesDue Q.fits (as_list (option_map (due_of Q.value) write)) state.now changes.old changes.new }
{
    match write {
        None => true,
        Some(write) => note(changes, state, write),
    }
}

/// Puts what these effects change of the state in place of changes, if nothing stops them and they are plain. Else it
/// says that they are not, and what the changes are then is not to be used.
#[inline(always)]
pub fn plain_changes<Q: Exact>(
    changes: &mut Changes<Q>,
    state: &State<Q>,
    effects: &[Effect<Q>],
) -> bool
    requires { AllEffectsFit (length state.now.atoms) (length state.now.fluents) (map (effect_of Q.value) effects.now) }
    ensures rises { IsTrue result → RisesIn state.now changes.new }
    ensures passes { IsTrue result → AllPass Q.fits (joint_steps (map (effect_of Q.value) effects.now) state.now) }
    ensures does { IsTrue result → joint (map (effect_of Q.value) effects.now) state.now ≡ Ok (patched state.now changes.new) }
{
    changes.clear();
    'each: for effect in effects {
        match effect_due(effect, state) {
            Err(_) => return false,
            Ok(write) => {
                if !note_due(changes, state, write) {
                    return false;
                }
            }
        }
    }
    true
}
