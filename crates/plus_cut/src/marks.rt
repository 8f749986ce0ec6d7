//! Marks of the atoms that something adds.
ghost use Rattle.std.specs.Prelude.{◌≡◌, false, ◌||◌, ◌&&◌, nat_eq, map, slice_index_or};
ghost use Rattle.plus_state.specs.View.{problem_of, write_of, effect_of, action_of, event_of, timed_of};
ghost use Rattle.plus_never.specs.Adds.{adds, some_adds, event_adds, action_adds, literal_sets, something_adds};
ghost use Rattle.plus_cut.specs.Marks.{Marks};

use plus_number::exact::Exact;
use plus_state::bits::Bits;
use plus_state::problem::{Action, Event, Ground, Timed};
use plus_state::term::{AtomId, Effect, Write};

// Marks an atom, where it is one of those that have marks.
fn mark(marks: &mut Bits, atom: AtomId)
    ensures { Marks marks.old marks.new (λ a. nat_eq a atom.0) }
{
    if atom.0 >= marks.len() {
        return;
    }
    marks.set(atom.0, true);
}

// Marks what a write adds.
fn mark_write<Q: Exact>(marks: &mut Bits, write: &Write<Q>)
    ensures { Marks marks.old marks.new (λ a. adds a (write_of Q.value write.now)) }
{
    match write {
        Write::Add(atom) => mark(marks, *atom),
        Write::Delete(_) => {}
        Write::Assign(_, _) => {}
        Write::Increase(_, _) => {}
        Write::Decrease(_, _) => {}
        Write::ScaleUp(_, _) => {}
        Write::ScaleDown(_, _) => {}
    }
}

// Marks what effects add, whatever their guards.
fn mark_effects<Q: Exact>(marks: &mut Bits, effects: &[Effect<Q>])
    ensures { Marks marks.old marks.new (λ a. some_adds a (map (effect_of Q.value) effects.now)) }
{
    'effects: for effect in effects {
        mark_write(marks, &effect.write);
    }
}

// Marks what actions add.
fn mark_actions<Q: Exact>(marks: &mut Bits, actions: &[Action<Q>])
    ensures { Marks marks.old marks.new (λ a. action_adds a (map (action_of Q.value) actions.now)) }
{
    'actions: for action in actions {
        mark_effects(marks, &action.effects);
    }
}

// Marks what events add.
fn mark_events<Q: Exact>(marks: &mut Bits, events: &[Event<Q>])
    ensures { Marks marks.old marks.new (λ a. event_adds a (map (event_of Q.value) events.now)) }
{
    'events: for event in events {
        mark_effects(marks, &event.effects);
    }
}

// Marks the atom of a literal, where the literal sets it.
fn mark_literal(marks: &mut Bits, atom: AtomId, positive: bool)
    ensures { Marks marks.old marks.new (λ a. positive && nat_eq a atom.0) }
{
    if !positive {
        return;
    }
    mark(marks, atom);
}

// Marks what timed literals set.
fn mark_literals<Q: Exact>(marks: &mut Bits, literals: &[Timed<Q>])
    ensures { Marks marks.old marks.new (λ a. literal_sets a (map (timed_of Q.value) literals.now)) }
{
    'literals: for literal in literals {
        mark_literal(marks, literal.atom, literal.positive);
    }
}

// Marks what the world adds, by its events and timed literals.
fn mark_world<Q: Exact>(marks: &mut Bits, events: &[Event<Q>], literals: &[Timed<Q>])
    ensures { Marks marks.old marks.new (λ a. event_adds a (map (event_of Q.value) events.now)
        || literal_sets a (map (timed_of Q.value) literals.now)) }
{
    mark_events(marks, events);
    mark_literals(marks, literals);
}

/// Marks what these actions of a ground problem add, or its world does.
pub fn mark_added<Q: Exact>(marks: &mut Bits, ground: &Ground<Q>, actions: &[Action<Q>])
    ensures { Marks marks.old marks.new (λ a. something_adds a (problem_of Q.value ground.now)
        (map (action_of Q.value) actions.now)) }
{
    mark_world(marks, &ground.events, &ground.timed);
    mark_actions(marks, actions);
}

/// Whether an atom is marked. One that has no mark is not.
pub fn is_marked(marks: &Bits, atom: u32) -> bool
    ensures { result ≡ slice_index_or marks.now atom false }
{
    if atom >= marks.len() {
        return false;
    }
    marks.get(atom)
}
