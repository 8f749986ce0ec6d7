//! The states of an entry: now, before the last step, and on arrival.
ghost use Rattle.std.specs.Prelude.{◌≡◌, [], ◌++◌, length, Ok, Option, None, Some, option_map, IfOk, IfSome, IsSomeAnd, OnOk, OnErr};
ghost use Rattle.plus_fraction.specs.Fraction.{◌<ℚ◌};
ghost use Rattle.plus_model.specs.Running.{rates as rates_of, GoesOn};
ghost use Rattle.plus_state.specs.Changes.{patched, AreIn, Within, RisesIn, LeadsTo};
ghost use Rattle.plus_state.specs.Fits.{StateFits};
ghost use Rattle.plus_state.specs.View.{problem_of};
ghost use Rattle.plus_state.specs.Looked.{events_looked, processes_looked};
ghost use Rattle.plus_stretch.specs.Among.{AreKnownAlong};
ghost use Rattle.plus_settle.specs.Members.{process_numbers, AreMembers};
ghost use Rattle.plus_timeline.specs.EntryStates.{IsReached, Leads};
ghost use Rattle.plus_timeline.specs.Undo.{undone, recalled, Notes};
ghost use Rattle.plus_stretch.specs.Arrives.{arrived_at, StretchTold};

use crate::ahead::StateAhead;
use crate::undo::{Undo, recall};
use plus_number::exact::Exact;
use plus_settle::settling::Running;
use plus_state::changes::Changes;
use plus_state::looked::Looked;
use plus_state::problem::Ground;
use plus_state::states::State;
use plus_state::term::{EventId, ProcessId};
use plus_state::trail::Trail;
use plus_stretch::arrival::Ahead;
use plus_stretch::halt::Halt;
use plus_stretch::mark::Room;
use plus_stretch::search;
use std::alloc::{AllocError, Global};
use std::marker::Model;
use std::mem;

// So many changes are kept of an entry, however small the states are.
const FEW: usize = 64;

/// The state now, the one before the last step, and the one on arrival in the present entry. A step
/// costs what it changes: the other states follow by the changes of the steps before. Where there is a
/// root, all is noted that was changed since; so other states with that root are made into these at the
/// cost of what was changed in both.
#[derive(Drop)]
pub struct EntryStates<Q: Exact> {
    trail: Trail<Q>,
    arrival: State<Q>,
    // all changes since the arrival, unless they are more than the atoms or the fluents of a state
    past: Option<Changes<Q>>,
    // one more copy of the state now
    ahead: StateAhead<Q>,
    // changes that are needed no more, for their memory
    spare: Changes<Q>,
    // what leads back to the root, if there is one
    undo: Option<Undo<Q>>,
    // memory for a search along a running set
    room: Room<Q>,
}

impl<Q: Exact> Model for EntryStates<Q> {
    ghost use Rattle.std.specs.Prelude.{option_map};
    ghost use Rattle.plus_timeline.specs.EntryStates.{EntryView, coded_entry, KeepsEntry};
    ghost use Rattle.plus_timeline.specs.Undo.{root_at};

    ghost Value = { EntryView };

    ghost coded = { coded_entry };

    ghost view = { λ e. record {
      state = e.trail.state;
      before = e.trail.before;
      arrival = e.arrival;
      root = root_at e.trail.state (option_map (λ u. u.noted) e.undo);
    } };

    ghost invariant = { λ e. KeepsEntry e.arrival e.past e.trail.state e.ahead (option_map (λ u. u.noted) e.undo) };
}

// The first changes get the atoms of the others, in exchange for their own. Where there are none, the memory stays.
fn swap_atoms<Q: Exact>(changes: &mut Changes<Q>, others: &mut Changes<Q>)
    ensures { changes.new ≡ record { atoms = others.old.atoms; fluents = changes.old.fluents } }
{
    if others.atoms.is_empty() {
        changes.atoms.clear();
    } else {
        mem::swap(&mut changes.atoms, &mut others.atoms);
    }
}

// The changes that are kept, and later ones, unless there are more than so many of either kind.
#[inline(always)]
fn noted<Q: Exact>(
    past: Option<Changes<Q>>,
    later: &Changes<Q>,
    most: usize,
) -> Result<Option<Changes<Q>>, AllocError>
    ensures { IfOk result (λ o. IfSome o (λ all. IsSomeAnd past (λ p. all ≡ record {
      atoms = p.atoms ++ later.now.atoms;
      fluents = p.fluents ++ later.now.fluents;
    }))) }
{
    match past {
        Some(mut changes) if changes.atoms.len() <= most && changes.fluents.len() <= most => {
            changes.append(later)?;
            Ok(Some(changes))
        }
        Some(_) | None => Ok(None),
    }
}

// The later changes. Where there are none, the memory of the others is kept for those to come.
fn renewed<Q: Exact>(mut kept: Changes<Q>, later: Changes<Q>) -> Changes<Q>
    ensures { result ≡ later }
{
    if later.atoms.is_empty() && later.fluents.is_empty() {
        kept.clear();
        kept
    } else {
        later
    }
}

fn copied<Q: Exact>(
    alloc: Global,
    past: &Option<Changes<Q>>,
) -> Result<Option<Changes<Q>>, AllocError>
    ensures { IfOk result (λ o. o ≡ past.now) }
{
    match past {
        Some(changes) => Ok(Some(changes.copy(alloc)?)),
        None => Ok(None),
    }
}

// Equal changes, in the memory of some that are needed no more.
fn copied_into<Q: Exact>(
    alloc: Global,
    spare: &mut Changes<Q>,
    changes: &Changes<Q>,
) -> Result<Changes<Q>, AllocError>
    ensures { IfOk result (λ c. c ≡ changes.now) }
{
    if changes.atoms.is_empty() && changes.fluents.is_empty() {
        return Ok(Changes::none(alloc));
    }
    let mut copy = mem::replace(spare, Changes::none(alloc));
    copy.clear();
    copy.append(changes)?;
    Ok(copy)
}

// Notes what these changes are about to change, where there is a root.
fn note<Q: Exact>(
    undo: &mut Option<Undo<Q>>,
    state: &State<Q>,
    changes: &Changes<Q>,
) -> Result<(), AllocError>
    requires { Within (length state.now.atoms) (length state.now.fluents) changes.now }
    ensures ok { OnOk result (Notes state.now changes.now (option_map (λ u. u.noted) undo.old) (option_map (λ u. u.noted) undo.new)) }
    ensures err { OnErr result (option_map (λ u. u.noted) undo.new ≡ option_map (λ u. u.noted) undo.old) }
{
    match undo {
        Some(undo) => undo.note(state, changes),
        None => Ok(()),
    }
}

// Notes what the step to the next entry is about to change, where there is a root.
fn note_joined<Q: Exact>(
    undo: &mut Option<Undo<Q>>,
    state: &State<Q>,
    atoms: &Changes<Q>,
    fluents: &Changes<Q>,
) -> Result<(), AllocError>
    requires atoms { AreIn (length state.now.atoms) atoms.now.atoms }
    requires fluents { AreIn (length state.now.fluents) fluents.now.fluents }
    ensures ok { OnOk result (Notes state.now (record { atoms = atoms.now.atoms; fluents = fluents.now.fluents }) (option_map (λ u. u.noted) undo.old) (option_map (λ u. u.noted) undo.new)) }
    ensures err { OnErr result (option_map (λ u. u.noted) undo.new ≡ option_map (λ u. u.noted) undo.old) }
{
    match undo {
        Some(undo) => undo.note_joined(state, atoms, fluents),
        None => Ok(()),
    }
}

// Notes what the moves to the next entry and its literals are about to change, where there is a root,
// and copies the literals, in the memory of changes that are needed no more.
fn note_entry<Q: Exact>(
    alloc: Global,
    undo: &mut Option<Undo<Q>>,
    spare: &mut Changes<Q>,
    state: &State<Q>,
    moves: &Changes<Q>,
    literals: &Changes<Q>,
) -> Result<Changes<Q>, AllocError>
    requires atoms { AreIn (length state.now.atoms) literals.now.atoms }
    requires fluents { AreIn (length state.now.fluents) moves.now.fluents }
    ensures copy { IfOk result (λ c. c ≡ literals.now) }
    ensures ok { OnOk result (Notes state.now (record { atoms = literals.now.atoms; fluents = moves.now.fluents }) (option_map (λ u. u.noted) undo.old) (option_map (λ u. u.noted) undo.new)) }
    ensures err { OnErr result (option_map (λ u. u.noted) undo.new ≡ option_map (λ u. u.noted) undo.old) }
{
    let copy = copied_into(alloc, spare, literals)?;
    note_joined(undo, state, literals, moves)?;
    Ok(copy)
}

// Brings the state on arrival up to the present one, and takes out the changes that were kept, for their memory.
fn catch_up<Q: Exact>(
    alloc: Global,
    arrival: &mut State<Q>,
    past: &mut Option<Changes<Q>>,
    state: &State<Q>,
) -> Result<Changes<Q>, AllocError>
    requires { IfSome past.old (λ p. Leads arrival.old p state.now) }
    ensures ok { OnOk result (arrival.new ≡ state.now) }
    ensures err { OnErr result (arrival.new ≡ arrival.old) }
    ensures taken { past.new ≡ None }
{
    match past.take() {
        Some(past) => {
            arrival.patch(&past);
            Ok(past)
        }
        None => {
            *arrival = state.copy(alloc)?;
            Ok(Changes::none(alloc))
        }
    }
}

fn copied_undo<Q: Exact>(
    alloc: Global,
    undo: &Option<Undo<Q>>,
) -> Result<Option<Undo<Q>>, AllocError>
    ensures { IfOk result (λ o. option_map (λ u. u.noted) o ≡ option_map (λ u. u.noted) undo.now) }
{
    match undo {
        Some(undo) => Ok(Some(undo.copy(alloc)?)),
        None => Ok(None),
    }
}

// A trail that begins in an equal state.
fn trail_in<Q: Exact>(alloc: Global, state: &State<Q>) -> Result<Trail<Q>, AllocError>
    ensures { IfOk result (λ t. t ≡ record { state = state.now; before = state.now }) }
{
    Trail::new(alloc, state.copy(alloc)?)
}

// A trail that begins in an equal state, and one more such state.
fn trail_and_copy<Q: Exact>(
    alloc: Global,
    state: &State<Q>,
) -> Result<(Trail<Q>, State<Q>), AllocError>
    ensures trail { IfOk result (λ r. r.0 ≡ record { state = state.now; before = state.now }) }
    ensures copy { IfOk result (λ r. r.1 ≡ state.now) }
{
    let copy = state.copy(alloc)?;
    let trail = trail_in(alloc, state)?;
    Ok((trail, copy))
}

// An equal trail and an equal state on arrival.
fn copied_trail<Q: Exact>(
    alloc: Global,
    trail: &Trail<Q>,
    arrival: &State<Q>,
) -> Result<(Trail<Q>, State<Q>), AllocError>
    ensures trail { IfOk result (λ r. r.0 ≡ trail.now) }
    ensures arrival { IfOk result (λ r. r.1 ≡ arrival.now) }
{
    let arrival = arrival.copy(alloc)?;
    let trail = trail.copy(alloc)?;
    Ok((trail, arrival))
}

// Equal changes since the arrival, and the same of what leads back to the root.
fn copied_past<Q: Exact>(
    alloc: Global,
    past: &Option<Changes<Q>>,
    undo: &Option<Undo<Q>>,
) -> Result<(Option<Changes<Q>>, Option<Undo<Q>>), AllocError>
    ensures past { IfOk result (λ r. r.0 ≡ past.now) }
    ensures undo { IfOk result (λ r. option_map (λ u. u.noted) r.1 ≡ option_map (λ u. u.noted) undo.now) }
{
    let past = copied(alloc, past)?;
    let undo = copied_undo(alloc, undo)?;
    Ok((past, undo))
}

// Gathers the way back to the root and on to another state with that root, and makes what was noted what
// the other one notes.
fn lead_over<Q: Exact>(
    way: &mut Changes<Q>,
    undo: &mut Undo<Q>,
    other: &Undo<Q>,
    state: &State<Q>,
) -> Result<(), AllocError>
    requires undo { Within (length state.now.atoms) (length state.now.fluents) undo.old.noted }
    requires other { Within (length state.now.atoms) (length state.now.fluents) other.now.noted }
    ensures way { OnOk result (way.new ≡ record {
      atoms = (recalled state.now undo.old.noted).atoms ++ (recalled state.now other.now.noted).atoms;
      fluents = (recalled state.now undo.old.noted).fluents ++ (recalled state.now other.now.noted).fluents;
    }) }
    ensures noted { OnOk result (undo.new.noted ≡ other.now.noted) }
{
    way.clear();
    recall(way, state, &undo.noted)?;
    recall(way, state, &other.noted)?;
    undo.noted.clear();
    undo.noted.append(&other.noted)
}

impl<Q: Exact> EntryStates<Q> {
    /// The first entry: the initial state, and what the literals of its time change.
    pub fn begin(
        alloc: Global,
        initial: &State<Q>,
        mut literals: Changes<Q>,
    ) -> Result<EntryStates<Q>, AllocError>
        requires { RisesIn initial.now literals }
        ensures { IfOk result (λ e. e ≡ record {
          state = patched initial.now literals;
          before = initial.now;
          arrival = initial.now;
          root = None;
        }) }
    {
        let past = literals.copy(alloc)?;
        let (mut trail, arrival) = trail_and_copy(alloc, initial)?;
        trail.step(&mut literals);
        Ok(EntryStates {
            trail,
            arrival,
            past: Some(past),
            ahead: StateAhead::none(),
            spare: literals,
            undo: None,
            room: Room::new(alloc),
        })
    }

    /// Makes a step within the entry. Its memory is kept for another one.
    #[inline(always)]
    pub fn step(&mut self, mut changes: Changes<Q>) -> Result<(), AllocError>
        requires { RisesIn self.old.state changes }
        ensures ok { OnOk result (self.new ≡ record self.old {
          state = patched self.old.state changes;
          before = self.old.state;
        }) }
        ensures err { OnErr result (self.new ≡ self.old) }
    {
        self.step_with(&mut changes)?;
        self.spare = changes;
        Ok(())
    }

    /// The same, with what is lent. In exchange it gets memory that is needed no more.
    #[inline(always)]
    pub fn step_with(&mut self, changes: &mut Changes<Q>) -> Result<(), AllocError>
        requires { RisesIn self.old.state changes.old }
        ensures ok { OnOk result (self.new ≡ record self.old {
          state = patched self.old.state changes.old;
          before = self.old.state;
        }) }
        ensures err { OnErr result (self.new ≡ self.old) }
    {
        let most = self.most();
        note(&mut self.undo, self.trail.state(), changes)?;
        self.past = noted(self.past.take(), changes, most)?;
        self.ahead.patch(changes);
        self.trail.step(changes);
        Ok(())
    }

    // How many changes of atoms or of fluents are kept: as many as a state has, since it costs no more to copy it.
    fn most(&self) -> usize {
        let state = self.trail.state();
        (state.atoms().max(state.fluents()) as usize).max(FEW)
    }

    /// Changes that are needed no more: whatever they are, another step may use their memory.
    pub fn take_spare(&mut self, alloc: Global) -> Changes<Q>
        ensures { self.new ≡ self.old }
    {
        mem::replace(&mut self.spare, Changes::none(alloc))
    }

    /// A state equal to the present one, to be moved ahead.
    pub fn take_ahead(&mut self, alloc: Global) -> Result<Box<Ahead<Q>>, AllocError>
        ensures state { IfOk result (λ b. b.value.state ≡ self.old.state) }
        ensures same { self.new ≡ self.old }
    {
        self.ahead.take(alloc, self.trail.state())
    }

    /// How far a running set goes on, as `plus_stretch::reach` tells it: the state ahead is moved there.
    /// Nothing else changes.
    pub fn reach(
        &mut self,
        ground: &Ground<Q>,
        running: &Running<Q>,
        time: Q,
        until: Q,
        events: Looked<'_, EventId>,
        processes: Looked<'_, ProcessId>,
        ahead: &mut Ahead<Q>,
    ) -> Result<(), Halt<Q>>
        requires state { StateFits (length (ground.now.atoms.items)) (length (ground.now.fluents.items)) self.old.state }
        requires members { AreMembers (length (ground.now.processes.items)) (process_numbers running.now.members.items) }
        requires size { length (running.now.rates) ≡ length (self.old.state.fluents) }
        requires rates { rates_of (problem_of Q.value ground.now) self.old.state (process_numbers running.now.members.items) ≡ Ok running.now.rates }
        requires on { GoesOn (problem_of Q.value ground.now) self.old.state running.now.rates (process_numbers running.now.members.items) }
        requires later { Q.value time <ℚ Q.value until }
        requires known { AreKnownAlong Q.fits (problem_of Q.value ground.now) self.old.state running.now.rates (events_looked events) (processes_looked processes) }
        requires ahead { ahead.old.state ≡ self.old.state }
        ensures told { StretchTold Q.value Q.fits (problem_of Q.value ground.now) (Q.value until) (Q.value time) self.old.state (process_numbers running.now.members.items) running.now.rates (arrived_at ahead.new.arrival result) }
        ensures reached { OnOk result (IsReached self.old.state ahead.new.arrival.changes ahead.new.state) }
        ensures same { self.new ≡ self.old }
    {
        search::reach_in(
            ground,
            self.trail.state(),
            ahead,
            running,
            time,
            until,
            events,
            processes,
            &mut self.room,
        )
    }

    /// Begins the next entry, in the state that is reached, with what the literals of its time change.
    pub fn enter(
        &mut self,
        alloc: Global,
        mut ahead: Box<Ahead<Q>>,
        mut literals: Changes<Q>,
    ) -> Result<(), AllocError>
        requires reached { IsReached self.old.state ahead.value.arrival.changes ahead.value.state }
        requires literals { RisesIn self.old.state literals }
        requires only { literals.fluents ≡ [] }
        ensures ok { OnOk result (self.new ≡ record {
          state = patched (patched self.old.state ahead.value.arrival.changes) literals;
          before = self.old.state;
          arrival = patched self.old.state ahead.value.arrival.changes;
          root = self.old.root;
        }) }
        ensures err { OnErr result (self.new ≡ self.old) }
    {
        let lent: &mut Ahead<Q> = &mut ahead;
        self.enter_with(
            alloc,
            &mut lent.arrival.changes,
            &mut lent.state,
            &mut literals,
        )?;
        self.ahead = StateAhead::some(ahead);
        Ok(())
    }

    // The same, with what is lent: the state ahead becomes the present one, and the moves get memory that is needed no more.
    fn enter_with(
        &mut self,
        alloc: Global,
        moves: &mut Changes<Q>,
        ahead: &mut State<Q>,
        literals: &mut Changes<Q>,
    ) -> Result<(), AllocError>
        requires reached { IsReached self.old.state moves.old ahead.old }
        requires literals { RisesIn self.old.state literals.old }
        requires only { literals.old.fluents ≡ [] }
        ensures ok { OnOk result (self.new ≡ record {
          state = patched (patched self.old.state moves.old) literals.old;
          before = self.old.state;
          arrival = patched self.old.state moves.old;
          root = self.old.root;
        }) }
        ensures ahead { OnOk result (ahead.new ≡ self.new.state) }
        ensures err { OnErr result (self.new ≡ self.old) }
    {
        let state = self.trail.state();
        let past = note_entry(
            alloc,
            &mut self.undo,
            &mut self.spare,
            state,
            moves,
            literals,
        )?;
        let kept = catch_up(alloc, &mut self.arrival, &mut self.past, state)?;
        self.arrival.patch(moves);
        ahead.patch(&past);
        swap_atoms(moves, literals);
        self.trail.step(moves);
        mem::swap(&mut self.spare, moves);
        self.past = Some(renewed(kept, past));
        self.ahead = StateAhead::none();
        Ok(())
    }

    /// The state now.
    pub fn state(&self) -> &State<Q>
        ensures { result.now ≡ self.now.state }
    {
        self.trail.state()
    }

    /// The state before the last step.
    pub fn before(&self) -> &State<Q>
        ensures { result.now ≡ self.now.before }
    {
        self.trail.before()
    }

    /// The state on arrival.
    pub fn arrival(&self) -> &State<Q>
        ensures { result.now ≡ self.now.arrival }
    {
        &self.arrival
    }

    /// What the last step changed. The first step of an entry is the way to it, with its literals.
    pub fn changes(&self) -> &Changes<Q>
        ensures { LeadsTo self.now.before result.now self.now.state }
    {
        self.trail.changes()
    }

    /// The present state is the root from now on.
    pub fn set_root(&mut self, alloc: Global)
        ensures { self.new ≡ record self.old { root = Some self.old.state } }
    {
        self.undo = Some(Undo::new(alloc));
    }

    /// Nothing more is noted.
    pub fn forget_root(&mut self)
        ensures { self.new ≡ record self.old { root = None } }
    {
        self.undo = None;
    }

    /// Whether more is noted of atoms or of fluents than a state has.
    pub fn is_far(&self) -> bool {
        match &self.undo {
            Some(undo) => undo.len() > self.most(),
            None => false,
        }
    }

    /// The state now alone, as if nothing had led to it but what was noted.
    pub fn fork(&self, alloc: Global) -> Result<EntryStates<Q>, AllocError>
        ensures { IfOk result (λ e. e ≡ record {
          state = self.now.state;
          before = self.now.state;
          arrival = self.now.state;
          root = self.now.root;
        }) }
    {
        let undo = copied_undo(alloc, &self.undo)?;
        let (trail, arrival) = trail_and_copy(alloc, self.trail.state())?;
        Ok(EntryStates {
            trail,
            arrival,
            past: Some(Changes::none(alloc)),
            ahead: StateAhead::none(),
            spare: Changes::none(alloc),
            undo,
            room: Room::new(alloc),
        })
    }

    /// Makes the states what `fork` makes of others. Where both have a root, and less was changed since
    /// than a state has, it costs what was changed, in both. Otherwise these states are dropped for a fork.
    pub fn refork(&mut self, alloc: Global, from: &EntryStates<Q>) -> Result<(), AllocError>
        requires size { StateFits (length self.old.state.atoms) (length self.old.state.fluents) from.now.state }
        requires root { IfSome self.old.root (λ r. IfSome from.now.root (λ s. r ≡ s)) }
        ensures ok { OnOk result (self.new ≡ record {
          state = from.now.state;
          before = from.now.state;
          arrival = from.now.state;
          root = from.now.root;
        }) }
        ensures err { OnErr result (self.new ≡ record self.old { root = None }) }
    {
        if let Some(undo) = self.undo.take() {
            if let Some(past) = self.past.take() {
                if let Some(other) = &from.undo {
                    if self.are_near(&undo, other) {
                        return self.follow(alloc, undo, past, other, from.state());
                    }
                }
            }
        }
        self.become_fork(alloc, from)
    }

    // Drops these states for a fork of others.
    fn become_fork(&mut self, alloc: Global, from: &EntryStates<Q>) -> Result<(), AllocError>
        ensures ok { OnOk result (self.new ≡ record {
          state = from.now.state;
          before = from.now.state;
          arrival = from.now.state;
          root = from.now.root;
        }) }
        ensures err { OnErr result (self.new ≡ self.old) }
    {
        *self = from.fork(alloc)?;
        Ok(())
    }

    // Whether no more is noted in both of atoms or of fluents than a state has.
    fn are_near(&self, undo: &Undo<Q>, other: &Undo<Q>) -> bool {
        undo.len().saturating_add(other.len()) <= self.most()
    }

    // Goes back to the root and on to another state, by what was noted in both.
    fn follow(
        &mut self,
        alloc: Global,
        mut undo: Undo<Q>,
        mut past: Changes<Q>,
        other: &Undo<Q>,
        state: &State<Q>,
    ) -> Result<(), AllocError>
        requires rootless { self.old.root ≡ None }
        requires past { Leads self.old.arrival past self.old.state }
        requires size { StateFits (length self.old.state.atoms) (length self.old.state.fluents) state.now }
        requires undo { Within (length self.old.state.atoms) (length self.old.state.fluents) undo.noted }
        requires other { Within (length self.old.state.atoms) (length self.old.state.fluents) other.now.noted }
        requires root { undone self.old.state undo.noted ≡ undone state.now other.now.noted }
        ensures ok { OnOk result (self.new ≡ record {
          state = state.now;
          before = state.now;
          arrival = state.now;
          root = Some (undone state.now other.now.noted);
        }) }
        ensures err { OnErr result (self.new ≡ self.old) }
    {
        let mut way = self.take_spare(alloc);
        lead_over(&mut way, &mut undo, other, state)?;
        self.arrival.patch(&past);
        self.arrival.patch(&way);
        past.clear();
        self.past = Some(past);
        self.trail.restart(&way);
        self.ahead.patch(&way);
        self.spare = way;
        self.undo = Some(undo);
        Ok(())
    }

    /// Equal states, which go on in the same way.
    pub fn copy(&self, alloc: Global) -> Result<EntryStates<Q>, AllocError>
        ensures { IfOk result (λ e. e ≡ self.now) }
    {
        let (past, undo) = copied_past(alloc, &self.past, &self.undo)?;
        let (trail, arrival) = copied_trail(alloc, &self.trail, &self.arrival)?;
        Ok(EntryStates {
            trail,
            arrival,
            past,
            ahead: StateAhead::none(),
            spare: Changes::none(alloc),
            undo,
            room: Room::new(alloc),
        })
    }
}
