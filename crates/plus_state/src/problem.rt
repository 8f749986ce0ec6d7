//! Ground actions, events and processes, and the ground problem.
ghost use Rattle.plus_state.specs.Meaning.{problem_from};
ghost use Rattle.plus_state.specs.Fits.{ProblemFits};
ghost use Rattle.plus_state.specs.FitsOnce.{ProblemFits-prop};

use crate::labels::Label;
use crate::states::State;
use crate::term::{AtomId, Cond, Effect, Rate};
use plus_number::exact::Exact;

/// A ground action: it may be done where its condition holds, and then has its effects.
#[derive(Drop)]
pub struct Action<Q> {
    pub label: Label,
    pub condition: Cond<Q>,
    pub effects: Vec<Effect<Q>>,
}

/// A ground event: it happens wherever its condition holds.
#[derive(Drop)]
pub struct Event<Q> {
    pub label: Label,
    pub condition: Cond<Q>,
    pub effects: Vec<Effect<Q>>,
}

/// A ground process: fluents move at its rates while its condition holds.
#[derive(Drop)]
pub struct Process<Q> {
    pub label: Label,
    pub condition: Cond<Q>,
    pub rates: Vec<Rate<Q>>,
}

/// A timed initial literal (Edelkamp and Hoffmann 2004): at this time the atom becomes true, or false.
#[derive(Drop)]
pub struct Timed<Q> {
    pub time: Q,
    pub atom: AtomId,
    pub positive: bool,
}

/// A ground problem. An id is a place in the list of its kind: `atoms` and `fluents` are the labels
/// of the ground atoms and fluents, and all lists stand in ground order: timed literals by their times.
#[derive(Drop)]
pub struct Ground<Q: Exact> {
    pub atoms: Vec<Label>,
    pub fluents: Vec<Label>,
    pub processes: Vec<Process<Q>>,
    pub events: Vec<Event<Q>>,
    pub timed: Vec<Timed<Q>>,
    pub initial: State<Q>,
    pub goal: Cond<Q>,
    pub ghost fits: { ProblemFits (problem_from Q.value atoms.items fluents.items processes.items events.items timed.items initial goal) } by { ProblemFits-prop (problem_from Q.value atoms.items fluents.items processes.items events.items timed.items initial goal) },
}
