//! The timed initial literals.

ghost use Rattle.std.specs.Prelude.{◌≡◌, [], ◌++◌, All, IfOk, OnOk, map};
ghost use Rattle.std.specs.List.{flat_map};
ghost use Rattle.plus_numbering.specs.Numbered.{context};
ghost use Rattle.plus_literal.specs.Value.{LiteralFits};
ghost use Rattle.plus_state.specs.View.{timed_of};
ghost use Rattle.plus_expansion.specs.Environments.{atom_number};
ghost use Rattle.plus_expansion.specs.Literals.{init_literals};
ghost use Rattle.plus_expansion.specs.Expansion.{literal_at, timed_by, timed_meant};

use crate::environments::{Environment, atom};
use crate::expressions::number;
use plus_literal::FromParts;
use plus_numbering::Numbering;
use plus_state::Timed;
use plus_tree::{Init, Literal, Use};
use std::alloc::{AllocError, Global};

// Adds the literal that an atom becomes true, or false, at a time. At a time below 0, which no text
// spells, nothing happens.
fn add_at<Q: FromParts>(
    alloc: Global,
    numbering: &Numbering,
    time: &Literal,
    used: &Use,
    positive: bool,
    into: &mut Vec<Timed<Q>>,
) -> Result<(), AllocError>
    requires { LiteralFits Q.fits time.now }
    ensures { OnOk result (map (timed_of Q.value) into.new.items ≡ map (timed_of Q.value) into.old.items
        ++ literal_at time.now (atom_number (context numbering.now) [] used.now) positive) }
{
    if time.negative {
        return Ok(());
    }
    let none = Environment::new(alloc);
    let atom = atom(alloc, numbering, &none, used)?;
    into.push(Timed {
        time: number(time),
        atom,
        positive,
    })?;
    Ok(())
}

// Adds the timed literal that a member of `:init` is, where it is one.
fn add<Q: FromParts>(
    alloc: Global,
    numbering: &Numbering,
    member: &Init,
    into: &mut Vec<Timed<Q>>,
) -> Result<(), AllocError>
    requires { All (LiteralFits Q.fits) (init_literals member.now) }
    ensures { OnOk result (map (timed_of Q.value) into.new.items ≡ map (timed_of Q.value) into.old.items
        ++ timed_by (context numbering.now) member.now) }
{
    match member {
        Init::At(time, used, _) => add_at(alloc, numbering, time, used, true, into),
        Init::AtNot(time, used, _) => add_at(alloc, numbering, time, used, false, into),
        Init::Holds(_) | Init::Absent(_, _) | Init::Value(_, _, _) => Ok(()),
    }
}

// The timed literals in the order of the text.
fn in_text<Q: FromParts>(
    alloc: Global,
    numbering: &Numbering,
    inits: &[Init],
) -> Result<Vec<Timed<Q>>, AllocError>
    requires { All (LiteralFits Q.fits) (flat_map init_literals inits.now) }
    ensures { IfOk result (λ ls. map (timed_of Q.value) ls.items
        ≡ flat_map (timed_by (context numbering.now)) inits.now) }
{
    let mut literals = Vec::new(alloc);
    'members: for member in inits {
        add(alloc, numbering, member, &mut literals)?;
    }
    Ok(literals)
}

/// The timed initial literals, ordered by time, those of one time in the order of the text.
pub fn timed_literals<Q: FromParts>(
    alloc: Global,
    numbering: &Numbering,
    inits: &[Init],
) -> Result<Vec<Timed<Q>>, AllocError>
    requires { All (LiteralFits Q.fits) (flat_map init_literals inits.now) }
    ensures { IfOk result (λ ls. map (timed_of Q.value) ls.items
        ≡ timed_meant (context numbering.now) inits.now) }
{
    let mut literals: Vec<Timed<Q>> = in_text(alloc, numbering, inits)?;
    literals.sort_by(|a, b| a.time.order(b.time))?;
    Ok(literals)
}
