//! States: the truth of each ground atom and the value of each ground fluent.
ghost use Rattle.std.specs.Prelude.{◌≡◌, ◌<◌, ◌^◌, Bool, false, Option, Some, None, length, map, option_map, replicate, slice_set, IfOk};
ghost use Rattle.plus_state.specs.Changes.{patched_list, patched, AreIn, Within};
ghost use Rattle.plus_state.specs.ChangesView.{atom_changes, fluent_changes};
ghost use Rattle.plus_state.specs.Motions.{laid};
ghost use Rattle.plus_fraction.specs.Fraction.{Fraction, ◌+ℚ◌, ◌*ℚ◌};
ghost use Rattle.plus_model.specs.Terms.{State as Meant};
ghost use Rattle.plus_model.specs.Value.{fluent_of, atom_of};
ghost use Rattle.plus_model.specs.Codes.{coded_state};

use crate::bits::Bits;
use crate::changes::{AtomChange, Changes, FluentChange};
use crate::motion::Motion;
use crate::term::{AtomId, FluentId};
use plus_number::exact::Exact;
use std::alloc::{AllocError, Global};
use std::marker::Model;

/// A state for a number of atoms and a number of fluents. Contracts see the state of the model: a list
/// of truths and a list of values, by the numbers of atoms and fluents.
#[derive(Drop)]
pub struct State<Q: Exact> {
    truths: Bits,
    // The values of the fluents, where no motion stands in their place.
    values: Vec<Option<Q>>,
    // As many as there is room for, by the numbers of the fluents.
    motions: Vec<Option<Motion<Q>>>,
}

impl<Q: Exact> Model for State<Q> {
    ghost Value = { Meant };

    ghost coded = { coded_state };

    ghost view = { λ s. record { atoms = s.truths; fluents = laid (map (option_map Q.value) s.values.items) s.motions.items } };

    ghost invariant = { λ s. length s.values.items < 2 ^ 32 };
}

impl<Q: Exact> State<Q> {
    /// The state for so many atoms and fluents in which no atom holds and no fluent has a value.
    pub fn new(alloc: Global, atoms: u32, fluents: u32) -> Result<State<Q>, AllocError>
        ensures { IfOk result (λ s. s ≡ record { atoms = replicate atoms false; fluents = replicate fluents None }) }
    {
        let truths = Bits::new(alloc, atoms)?;
        let mut values = Vec::with_capacity(alloc, fluents as usize)?;
        for _i in 0..fluents {
            values.push(None)?;
        }
        Ok(State {
            truths,
            values,
            motions: Vec::new(alloc),
        })
    }

    /// Makes an atom true or false, and changes nothing else.
    pub fn put(&mut self, atom: AtomId, present: bool)
        requires { atom.0 < length (self.old.atoms) }
        ensures { self.new ≡ record (self.old) { atoms = slice_set (self.old.atoms) atom.0 present } }
    {
        self.truths.set(atom.0, present);
    }

    /// Gives a fluent a value or none, and changes nothing else.
    pub fn give(&mut self, fluent: FluentId, value: Option<Q>)
        requires { fluent.0 < length (self.old.fluents) }
        ensures { self.new ≡ record (self.old) { fluents = slice_set (self.old.fluents) fluent.0 (option_map Q.value value) } }
    {
        self.values[fluent.0 as usize] = value;
        if (fluent.0 as usize) < self.motions.len() {
            self.motions[fluent.0 as usize] = None;
        }
    }

    /// Makes room for the motions of fluents (`set_motion`). Without room they are worked at once.
    pub fn make_room_for_motions(&mut self) -> Result<(), AllocError>
        ensures { self.new ≡ self.old }
    {
        while self.motions.len() < self.values.len() {
            self.motions.push(None)?;
        }
        Ok(())
    }

    /// Gives a fluent what a value comes to at a rate after some time, where both the gain and the sum are values of the
    /// type, and changes nothing else. It takes no memory.
    #[inline(always)]
    pub fn set_motion(&mut self, fluent: FluentId, from: Q, rate: Q, delay: Q)
        requires fluent { fluent.0 < length (self.old.fluents) }
        requires gain { Q.fits (Q.value rate *ℚ Q.value delay) }
        requires sum { Q.fits (Q.value from +ℚ Q.value rate *ℚ Q.value delay) }
        ensures { self.new ≡ record (self.old) { fluents = slice_set (self.old.fluents) fluent.0 (Some (Q.value from +ℚ Q.value rate *ℚ Q.value delay)) } }
    {
        if (fluent.0 as usize) < self.motions.len() {
            match &mut self.motions[fluent.0 as usize] {
                Some(motion) => motion.set(from, rate, delay),
                place => *place = Some(Motion::new(from, rate, delay)),
            }
        } else {
            self.values[fluent.0 as usize] = Some(Motion::new(from, rate, delay).value());
        }
    }

    fn patch_atoms(&mut self, changes: &[AtomChange])
        requires { AreIn (length self.old.atoms) (atom_changes changes.now) }
        ensures { self.new ≡ record self.old { atoms = patched_list (atom_changes changes.now) self.old.atoms } }
    {
        'each: for change in changes {
            self.put(change.atom, change.truth);
        }
    }

    fn patch_fluents(&mut self, changes: &[FluentChange<Q>])
        requires { AreIn (length self.old.fluents) (fluent_changes Q.value changes.now) }
        ensures { self.new ≡ record self.old { fluents = patched_list (fluent_changes Q.value changes.now) self.old.fluents } }
    {
        'each: for change in changes {
            self.give(change.fluent, change.value);
        }
    }

    /// Makes changes, one after the other. It takes no memory.
    pub fn patch(&mut self, changes: &Changes<Q>)
        requires { Within (length self.old.atoms) (length self.old.fluents) changes.now }
        ensures { self.new ≡ patched self.old changes.now }
    {
        self.patch_atoms(&changes.atoms);
        self.patch_fluents(&changes.fluents);
    }

    /// Whether an atom holds.
    pub fn atom(&self, atom: AtomId) -> bool
        requires { atom.0 < length (self.now.atoms) }
        ensures { result ≡ atom_of self.now atom.0 }
    {
        self.truths.get(atom.0)
    }

    /// The value of a fluent, if it has one.
    pub fn fluent(&self, fluent: FluentId) -> Option<Q>
        requires { fluent.0 < length (self.now.fluents) }
        ensures { option_map Q.value result ≡ fluent_of self.now fluent.0 }
    {
        match self.motions.get(fluent.0 as usize) {
            Some(Some(motion)) => Some(motion.value()),
            Some(None) => self.values[fluent.0 as usize],
            None => self.values[fluent.0 as usize],
        }
    }

    /// The number of atoms.
    pub fn atoms(&self) -> u32
        ensures { result ≡ length self.now.atoms }
    {
        self.truths.len()
    }

    /// The number of fluents.
    pub fn fluents(&self) -> u32
        ensures { result ≡ length self.now.fluents }
    {
        self.values.len() as u32
    }

    /// An equal state.
    pub fn copy(&self, alloc: Global) -> Result<State<Q>, AllocError>
        ensures { IfOk result (λ s. s ≡ self.now) }
    {
        let truths = self.truths.copy(alloc)?;
        let mut values = Vec::new(alloc);
        values.extend_from_slice(&self.values)?;
        let mut motions = Vec::with_capacity(alloc, self.motions.len())?;
        for motion in &self.motions {
            match motion {
                Some(motion) => motions.push(Some(motion.copy()))?,
                None => motions.push(None)?,
            }
        }
        Ok(State {
            truths,
            values,
            motions,
        })
    }
}
