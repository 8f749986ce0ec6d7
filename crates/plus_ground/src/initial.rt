//! The initial state.

ghost use Rattle.std.specs.Prelude.{◌≡◌, All, IfOk, OnOk};
ghost use Rattle.std.specs.List.{flat_map};
ghost use Rattle.plus_numbering.specs.Numbered.{context};
ghost use Rattle.plus_literal.specs.Value.{LiteralFits, literal_value};
ghost use Rattle.plus_expansion.specs.Literals.{init_literals};
ghost use Rattle.plus_expansion.specs.Expansion.{initial_state};
ghost use Rattle.plus_ground.specs.Entered.{with_atom, with_value, entered};

use crate::environments::{Environment, atom, fluent};
use crate::expressions::number;
use plus_literal::FromParts;
use plus_numbering::Numbering;
use plus_state::{AtomId, FluentId, State};
use plus_tree::{Init, Literal};
use std::alloc::{AllocError, Global};

// Makes an atom true, where there is one of this number.
fn hold<Q: FromParts>(state: &mut State<Q>, atom: AtomId)
    ensures { state.new ≡ with_atom atom.0 state.old }
{
    if atom.0 < state.atoms() {
        state.put(atom, true);
    }
}

// Gives a fluent its value, where there is one of this number and it has none yet.
fn give<Q: FromParts>(state: &mut State<Q>, fluent: FluentId, value: &Literal)
    requires { LiteralFits Q.fits value.now }
    ensures { state.new ≡ with_value fluent.0 (literal_value value.now) state.old }
{
    if fluent.0 < state.fluents() {
        match state.fluent(fluent) {
            None => state.give(fluent, Some(number(value))),
            Some(_) => {}
        }
    }
}

// Enters a member of `:init`.
fn enter<Q: FromParts>(
    alloc: Global,
    numbering: &Numbering,
    member: &Init,
    state: &mut State<Q>,
) -> Result<(), AllocError>
    requires { All (LiteralFits Q.fits) (init_literals member.now) }
    ensures { OnOk result (state.new
        ≡ entered (context numbering.now) member.now state.old) }
{
    let none = Environment::new(alloc);
    match member {
        Init::Holds(used) => {
            let atom = atom(alloc, numbering, &none, used)?;
            hold(state, atom);
            Ok(())
        }
        Init::Value(used, value, _) => {
            let fluent = fluent(alloc, numbering, &none, used)?;
            give(state, fluent, value);
            Ok(())
        }
        Init::Absent(_, _) | Init::At(_, _, _) | Init::AtNot(_, _, _) => Ok(()),
    }
}

/// The initial state: the atoms that `:init` lists are true, and the fluents have the values that it
/// gives.
pub fn initial<Q: FromParts>(
    alloc: Global,
    numbering: &Numbering,
    inits: &[Init],
) -> Result<State<Q>, AllocError>
    requires { All (LiteralFits Q.fits) (flat_map init_literals inits.now) }
    ensures { IfOk result (λ s. s
        ≡ initial_state (context numbering.now) inits.now) }
{
    let mut state = State::new(alloc, numbering.atoms(), numbering.fluents())?;
    'members: for member in inits {
        enter(alloc, numbering, member, &mut state)?;
    }
    Ok(state)
}
