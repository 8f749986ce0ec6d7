//! The initial state of a translated problem.

ghost use Rattle.std.specs.Prelude.{◌≡◌, ◌++◌, [], ◌∷◌, ◌&&◌, not, map, filter, OnOk, IfOk};
ghost use Rattle.std.specs.List.{list_any};
ghost use Rattle.plus_tree.specs.declared.trees.Init.TheVariants.{Holds};
ghost use Rattle.plus_translation.specs.Renamed.{nowhere};
ghost use Rattle.plus_translation.specs.Translated.{natural, clock_use, is_later, same_atom, set_at_once, cleared_at_once, stays_in_init, init_translated};
ghost use Rattle.plus_translate.specs.Dues.{due_of};
ghost use Rattle.plus_translate.specs.Atoms.{atoms_of};
ghost use Rattle.plus_translate.specs.Parts.{beginning_of, clock_start};

use crate::atoms::Atoms;
use crate::due::{Due, clock_use, has_later};
use crate::pieces::natural;
use plus_renaming::copies;
use plus_tree::{Init, Members, NOWHERE, Use};
use std::alloc::{AllocError, Global};

// The atoms that literals of time 0 set, each once.
fn set_at_once<'a>(alloc: Global, dues: &[Due<'a>]) -> Result<Atoms<'a>, AllocError>
    ensures { IfOk result (λ set. set ≡ set_at_once [] (map due_of dues.now)) }
{
    let mut set = Atoms::new(alloc);
    'dues: for due in dues {
        if due.steps == 0 && due.positive {
            set.add(alloc, due.atom)?;
        }
    }
    Ok(set)
}

// The atoms that literals of time 0 clear.
fn cleared_at_once<'a>(alloc: Global, dues: &[Due<'a>]) -> Result<Atoms<'a>, AllocError>
    ensures { IfOk result (λ cleared. cleared ≡ cleared_at_once (map due_of dues.now)) }
{
    let mut cleared = Atoms::new(alloc);
    'dues: for due in dues {
        if due.steps == 0 && !due.positive {
            cleared.push(alloc, due.atom)?;
        }
    }
    Ok(cleared)
}

// Whether an atom that holds at first still holds after the literals of time 0.
fn holds_on<'a>(
    alloc: Global,
    set: &Atoms<'a>,
    cleared: &Atoms<'a>,
    atom: &'a Use,
) -> Result<bool, AllocError>
    ensures { IfOk result (λ on. on ≡ not (list_any (same_atom atom.now) cleared.now && not (list_any (same_atom atom.now) set.now))) }
{
    if !cleared.has(alloc, atom)? {
        return Ok(true);
    }
    set.has(alloc, atom)
}

// Whether a member of `:init` stays.
fn stays<'a>(
    alloc: Global,
    set: &Atoms<'a>,
    cleared: &Atoms<'a>,
    member: &'a Init,
) -> Result<bool, AllocError>
    ensures { IfOk result (λ stays. stays ≡ stays_in_init set.now cleared.now member.now) }
{
    match member {
        Init::Holds(atom) => holds_on(alloc, set, cleared, atom),
        Init::At(_, _, _) | Init::AtNot(_, _, _) => Ok(false),
        Init::Absent(_, _) | Init::Value(_, _, _) => Ok(true),
    }
}

// A member of `:init`.
fn member(alloc: Global, member: &Init) -> Result<Init, AllocError>
    ensures { IfOk result (λ copy. copy ≡ member.now) }
{
    match member {
        Init::Holds(atom) => Ok(Init::Holds(copies::used(alloc, atom)?)),
        Init::Absent(atom, span) => Ok(Init::Absent(copies::used(alloc, atom)?, *span)),
        Init::Value(fluent, value, span) => {
            Ok(Init::Value(copies::used(alloc, fluent)?, *value, *span))
        }
        Init::At(time, atom, span) => Ok(Init::At(*time, copies::used(alloc, atom)?, *span)),
        Init::AtNot(time, atom, span) => Ok(Init::AtNot(*time, copies::used(alloc, atom)?, *span)),
    }
}

// Appends the members that stay.
#[tactic(auto, using(crate::proofs::DueLemmas::staying))]
fn put_staying<'a>(
    alloc: Global,
    set: &Atoms<'a>,
    cleared: &Atoms<'a>,
    init: &'a [Init],
    into: &mut Members<Init>,
) -> Result<(), AllocError>
    ensures { OnOk result (into.new ≡ into.old ++ filter (stays_in_init set.now cleared.now) init.now) }
{
    'init: for kept in init {
        if stays(alloc, set, cleared, kept)? {
            into.push(member(alloc, kept)?)?;
        }
    }
    Ok(())
}

// Appends atoms that hold.
fn put_atoms(alloc: Global, set: &[&Use], into: &mut Members<Init>) -> Result<(), AllocError>
    ensures { OnOk result (into.new ≡ into.old ++ map Holds (atoms_of set.now)) }
{
    'atoms: for atom in set {
        into.push(Init::Holds(copies::used(alloc, atom)?))?;
    }
    Ok(())
}

// Appends the old members that stay, where these atoms are set.
fn put_old<'a>(
    alloc: Global,
    dues: &[Due<'a>],
    set: &Atoms<'a>,
    init: &'a [Init],
    into: &mut Members<Init>,
) -> Result<(), AllocError>
    ensures { OnOk result (into.new ≡ into.old
        ++ filter (stays_in_init set.now (cleared_at_once (map due_of dues.now))) init.now) }
{
    let cleared = cleared_at_once(alloc, dues)?;
    put_staying(alloc, set, &cleared, init, into)
}

// Appends the old state after the literals of time 0.
fn put_beginning<'a>(
    alloc: Global,
    dues: &[Due<'a>],
    init: &'a [Init],
    into: &mut Members<Init>,
) -> Result<(), AllocError>
    ensures { OnOk result (into.new ≡ into.old ++ beginning_of (map due_of dues.now) init.now) }
{
    let set = set_at_once(alloc, dues)?;
    put_old(alloc, dues, &set, init, into)?;
    put_atoms(alloc, set.list(), into)
}

// Appends the value of the clock, where it is needed.
#[tactic(auto, using(crate::proofs::PartLemmas::starting))]
fn put_clock_start(
    alloc: Global,
    dues: &[Due<'_>],
    into: &mut Members<Init>,
) -> Result<(), AllocError>
    ensures { OnOk result (into.new ≡ into.old ++ clock_start (map due_of dues.now)) }
{
    if !has_later(dues) {
        return Ok(());
    }
    into.push(Init::Value(clock_use(alloc)?, natural(0), NOWHERE))
}

/// The initial state: the old one after the literals of time 0, and the clock where it is needed.
#[tactic(auto, using(crate::proofs::PartLemmas::beginning))]
pub fn init_translated<'a>(
    alloc: Global,
    dues: &[Due<'a>],
    init: &'a [Init],
) -> Result<Members<Init>, AllocError>
    ensures { IfOk result (λ translated. translated
        ≡ init_translated (map due_of dues.now) init.now) }
{
    let mut translated = Members::new(alloc);
    put_beginning(alloc, dues, init, &mut translated)?;
    put_clock_start(alloc, dues, &mut translated)?;
    Ok(translated)
}
