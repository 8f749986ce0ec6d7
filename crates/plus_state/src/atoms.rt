//! What becomes of atoms: what is deleted goes, and then what is added comes.
ghost use Rattle.std.specs.Prelude.{◌≡◌, ◌++◌, true, false, length, map, option_map, IfOk, IsTrue};
ghost use Rattle.plus_model.specs.Joint.{new_atoms};
ghost use Rattle.plus_state.specs.Due.{DuesFit, atom_changes as made_of};
ghost use Rattle.plus_state.specs.Stops.{due_of};
ghost use Rattle.plus_state.specs.Changes.{patched_list, AreIn, Rises};
ghost use Rattle.plus_state.specs.ChangesView.{atom_change, atom_changes};
ghost use Rattle.plus_state.specs.Writes.{Sorts, Ordered, put_of, puts_as, shut, is_open};

use crate::changes::AtomChange;
use crate::due::Due;
use crate::term::AtomId;
use plus_number::exact::Exact;
use std::alloc::{AllocError, Global};

// Notes the write if it gives an atom this truth.
fn note<Q: Exact>(
    into: &mut Vec<AtomChange>,
    write: &Due<Q>,
    present: bool,
) -> Result<(), AllocError>
    ensures { IfOk result (λ _. atom_changes into.new.items ≡ atom_changes into.old.items ++ put_of present (due_of Q.value write.now)) }
{
    match write {
        Due::Put(atom, true) => {
            if present {
                into.push(AtomChange {
                    atom: *atom,
                    truth: true,
                })?;
            }
            Ok(())
        }
        Due::Put(atom, false) => {
            if !present {
                into.push(AtomChange {
                    atom: *atom,
                    truth: false,
                })?;
            }
            Ok(())
        }
        Due::Set(_, _) => Ok(()),
    }
}

fn note_all<Q: Exact>(
    into: &mut Vec<AtomChange>,
    due: &[Due<Q>],
    present: bool,
) -> Result<(), AllocError>
    ensures { IfOk result (λ _. atom_changes into.new.items ≡ atom_changes into.old.items ++ puts_as present (map (due_of Q.value) due.now)) }
{
    'each: for write in due {
        note(into, write, present)?;
    }
    Ok(())
}

// The writes on atoms by their atoms, of each atom what deletes it before what adds it.
#[inline(always)]
fn sorted_puts<Q: Exact>(alloc: Global, due: &[Due<Q>]) -> Result<Vec<AtomChange>, AllocError>
    ensures { IfOk result (λ c. Sorts (puts_as false (map (due_of Q.value) due.now) ++ puts_as true (map (due_of Q.value) due.now)) (atom_changes c.items)) }
{
    let mut all: Vec<AtomChange> = Vec::new(alloc);
    note_all(&mut all, due, false)?;
    note_all(&mut all, due, true)?;
    all.sort_by_key(|c| c.atom.0)?;
    Ok(all)
}

// Whether the change that is open is one of this atom.
fn is_of(last: Option<AtomChange>, atom: AtomId) -> bool
    ensures { result ≡ is_open (option_map atom_change last) atom.0 }
{
    match last {
        None => false,
        Some(c) => c.atom.0 == atom.0,
    }
}

// Whether no atom is changed twice.
fn are_once(puts: &[AtomChange]) -> bool
    requires { Ordered (atom_changes puts.now) }
    ensures { IsTrue result → Rises (atom_changes puts.now) }
{
    let mut last: Option<AtomChange> = None;
    'each: for put in puts {
        if is_of(last, put.atom) {
            return false;
        }
        last = Some(*put);
    }
    true
}

// Ends the change that is open, unless it is one of this atom.
fn end_open(
    changes: &mut Vec<AtomChange>,
    last: Option<AtomChange>,
    atom: AtomId,
) -> Result<(), AllocError>
    ensures { IfOk result (λ _. atom_changes changes.new.items
        ≡ atom_changes changes.old.items ++ shut (option_map atom_change last) atom.0) }
{
    match last {
        None => Ok(()),
        Some(c) => {
            if c.atom.0 != atom.0 {
                changes.push(c)?;
            }
            Ok(())
        }
    }
}

// The last change of each atom.
fn last_of_each(alloc: Global, puts: &[AtomChange]) -> Result<Vec<AtomChange>, AllocError>
    requires { Ordered (atom_changes puts.now) }
    ensures rises { IfOk result (λ c. Rises (atom_changes c.items)) }
    ensures inside { IfOk result (λ c. (n : _) → AreIn n (atom_changes puts.now) → AreIn n (atom_changes c.items)) }
    ensures same { IfOk result (λ c. (bs : _) → patched_list (atom_changes c.items) bs ≡ patched_list (atom_changes puts.now) bs) }
{
    let mut changes: Vec<AtomChange> = Vec::new(alloc);
    let mut last: Option<AtomChange> = None;
    'each: for put in puts {
        end_open(&mut changes, last, put.atom)?;
        last = Some(*put);
    }
    match last {
        None => Ok(changes),
        Some(c) => {
            changes.push(c)?;
            Ok(changes)
        }
    }
}

/// What becomes of the atoms, by their numbers.
#[inline(always)]
pub fn changed_atoms<Q: Exact>(alloc: Global, due: &[Due<Q>]) -> Result<Vec<AtomChange>, AllocError>
    ensures rises { IfOk result (λ c. Rises (atom_changes c.items)) }
    ensures inside { IfOk result (λ c. (n m : _) → DuesFit n m (map (due_of Q.value) due.now) → AreIn n (atom_changes c.items)) }
    ensures same { IfOk result (λ c. (bs : _) → patched_list (atom_changes c.items) bs ≡ new_atoms 0 (made_of (map (due_of Q.value) due.now)) bs) }
{
    let puts = sorted_puts(alloc, due)?;
    if are_once(&puts) {
        return Ok(puts);
    }
    let changes = last_of_each(alloc, &puts)?;
    Ok(changes)
}
