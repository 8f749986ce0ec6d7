//! The cut by the atoms of the goal that nothing adds.
ghost use Rattle.std.specs.Prelude.{◌≡◌, [], ◌∷◌, ◌++◌, not, true, map, option_to_list, IfOk};
ghost use Rattle.plus_model.specs.Value.{atom_of};
ghost use Rattle.plus_state.specs.View.{problem_of, action_of, condition_of};
ghost use Rattle.plus_state.specs.Tests.{joined};
ghost use Rattle.plus_cut.specs.Lost.{before_atoms, goal_atoms, some_false, lost_atoms};
ghost use Rattle.plus_cut.specs.Marks.{unmarked};

use crate::cuts::Cut;
use crate::marks::{is_marked, mark_added};
use plus_number::exact::Exact;
use plus_state::bits::Bits;
use plus_state::problem::{Action, Ground};
use plus_state::states::State;
use plus_state::term::{AtomId, Cond};
use std::alloc::{AllocError, Global};

/// The cut that says yes where the goal, or a member of its `and`, is an atom that is false and that nothing adds: no effect of an
/// action or an event, and no timed literal. It keeps the numbers of these atoms.
#[derive(Drop)]
pub struct Lost {
    pub atoms: Vec<u32>,
}

// Whether an atom is false. One that is no atom of the state is.
fn is_false<Q: Exact>(atom: u32, state: &State<Q>) -> bool
    ensures { result ≡ not (atom_of state.now atom) }
{
    if atom >= state.atoms() {
        return true;
    }
    !state.atom(AtomId(atom))
}

// Whether one of these atoms is false.
fn is_some_false<Q: Exact>(atoms: &[u32], state: &State<Q>) -> bool
    ensures { result ≡ some_false atoms.now state.now }
{
    'atoms: for atom in atoms {
        if is_false(*atom, state) {
            return true;
        }
    }
    false
}

impl<Q: Exact> Cut<Q> for Lost {
    ghost says = { λ c s m. some_false c.atoms.items s };

    fn is_barren(&self, _problem: &Ground<Q>, state: &State<Q>, _left: u32) -> bool {
        is_some_false(&self.atoms, state)
    }
}

// The atom, where a member of the goal is a positive one.
fn positive_atom<Q: Exact>(member: &Cond<Q>) -> Option<u32>
    ensures { option_to_list result ≡ before_atoms (condition_of Q.value member.now) [] }
{
    match member {
        Cond::Atom { atom, positive } => { if *positive { Some(atom.0) } else { None } }
        Cond::Compare { .. } => None,
        Cond::All(_) => None,
        Cond::Any(_) => None,
    }
}

// Keeps an atom that is not marked.
fn keep_unmarked(atoms: &mut Vec<u32>, marks: &Bits, atom: u32) -> Result<(), AllocError>
    ensures { IfOk result (λ _. atoms.new.items ≡ atoms.old.items ++ unmarked marks.now (atom ∷ [])) }
{
    if is_marked(marks, atom) {
        return Ok(());
    }
    atoms.push(atom)?;
    Ok(())
}

// Keeps a member of the goal, where it is a positive atom that is not marked.
fn keep<Q: Exact>(atoms: &mut Vec<u32>, marks: &Bits, member: &Cond<Q>) -> Result<(), AllocError>
    ensures { IfOk result (λ _. atoms.new.items
        ≡ atoms.old.items ++ unmarked marks.now (before_atoms (condition_of Q.value member.now) [])) }
{
    match positive_atom(member) {
        Some(atom) => keep_unmarked(atoms, marks, atom),
        None => Ok(()),
    }
}

// Keeps those members of an `and` that are positive atoms and not marked.
fn keep_members<Q: Exact>(
    atoms: &mut Vec<u32>,
    marks: &Bits,
    members: &[Cond<Q>],
) -> Result<(), AllocError>
    ensures { IfOk result (λ _. atoms.new.items ≡ atoms.old.items
        ++ unmarked marks.now (goal_atoms (joined true (map (condition_of Q.value) members.now)))) }
{
    'members: for member in members {
        keep(atoms, marks, member)?;
    }
    Ok(())
}

// Keeps the atoms of the goal that are not marked.
fn keep_goal<Q: Exact>(atoms: &mut Vec<u32>, marks: &Bits, goal: &Cond<Q>) -> Result<(), AllocError>
    ensures { IfOk result (λ _. atoms.new.items
        ≡ atoms.old.items ++ unmarked marks.now (goal_atoms (condition_of Q.value goal.now))) }
{
    match goal {
        Cond::All(members) => keep_members(atoms, marks, members),
        Cond::Any(_) => keep(atoms, marks, goal),
        Cond::Atom { .. } => keep(atoms, marks, goal),
        Cond::Compare { .. } => keep(atoms, marks, goal),
    }
}

impl Lost {
    /// The cut for these actions of a ground problem. It takes one pass over all effects and timed literals, and one over the
    /// members of the goal.
    pub fn find<Q: Exact>(
        alloc: Global,
        ground: &Ground<Q>,
        actions: &[Action<Q>],
    ) -> Result<Lost, AllocError>
        ensures { IfOk result (λ c. c.atoms.items
            ≡ lost_atoms (problem_of Q.value ground.now) (map (action_of Q.value) actions.now)) }
    {
        let mut marks = Bits::new(alloc, ground.atoms.len() as u32)?;
        mark_added(&mut marks, ground, actions);
        let mut atoms = Vec::new(alloc);
        keep_goal(&mut atoms, &marks, &ground.goal)?;
        Ok(Lost { atoms })
    }
}
