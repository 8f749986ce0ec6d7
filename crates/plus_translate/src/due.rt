//! Timed literals, each with the number of steps to its time.

ghost use Rattle.std.specs.Prelude.{◌≡◌, ◌++◌, [], ◌∷◌, map, filter, All, OnOk, IfOk, MatchResult, pos};
ghost use Rattle.std.specs.List.{list_any, flat_map};
ghost use Rattle.plus_fraction.specs.Fraction.{whole, ◌<ℚ◌};
ghost use Rattle.plus_number.specs.Frac.{fraction_of};
ghost use Rattle.plus_tree.specs.Expr.{x_fluent};
ghost use Rattle.plus_translation.specs.Renamed.{nowhere};
ghost use Rattle.plus_translation.specs.Translated.{clock_use, due_at, due_by, time_of, is_later, due_node, due_effect, clock_effects};
ghost use Rattle.plus_translate.specs.Grid.{StandsOnGrid};
ghost use Rattle.plus_translate.specs.Dues.{due_of, dues_of, NotDue};

use crate::fault::TransFault;
use crate::flows::number;
use crate::grid::steps;
use crate::pieces::{leaf, when, word, writes};
use plus_number::frac::Frac64;
use plus_renaming::copies;
use plus_tree::{
    Args, Comparison, CondNode, CondTree, EffectTree, ExprNode, ExprTree, Init, LeafNode, Literal,
    NOWHERE, Use,
};
use std::alloc::{AllocError, Global};

/// A timed literal: what becomes true or false, and after how many steps.
#[derive(Clone, Copy)]
pub struct Due<'a> {
    pub steps: u64,
    pub positive: bool,
    pub atom: &'a Use,
}

// A literal of this time.
#[tactic(auto, using(crate::proofs::DueLemmas::single))]
fn due_at<'a>(
    interval: Frac64,
    time: &Literal,
    positive: bool,
    atom: &'a Use,
) -> Result<Option<Due<'a>>, TransFault>
    requires { whole (pos 0) <ℚ fraction_of interval }
    ensures { MatchResult result
        (λ due. All (StandsOnGrid (fraction_of interval)) (time.now ∷ [])
        × (dues_of due ≡ due_at (fraction_of interval) time.now positive atom.now))
        (NotDue (fraction_of interval) (time.now ∷ [])) }
{
    match steps(time, interval) {
        Some(steps) => Ok(Some(Due {
            steps,
            positive,
            atom,
        })),
        None => Err(TransFault::OffGrid { span: time.span }),
    }
}

// The literal of a member of `:init`, if it is one.
fn due_by<'a>(interval: Frac64, member: &'a Init) -> Result<Option<Due<'a>>, TransFault>
    requires { whole (pos 0) <ℚ fraction_of interval }
    ensures { MatchResult result
        (λ due. All (StandsOnGrid (fraction_of interval)) (time_of member.now)
        × (dues_of due ≡ due_by (fraction_of interval) member.now))
        (NotDue (fraction_of interval) (time_of member.now)) }
{
    match member {
        Init::At(time, atom, _) => due_at(interval, time, true, atom),
        Init::AtNot(time, atom, _) => due_at(interval, time, false, atom),
        Init::Holds(_) | Init::Absent(_, _) | Init::Value(_, _, _) => Ok(None),
    }
}

// Appends a literal, if there is one.
#[tactic(auto, using(crate::proofs::DueLemmas::keeping))]
fn keep<'a>(found: &mut Vec<Due<'a>>, due: Option<Due<'a>>) -> Result<(), AllocError>
    ensures { OnOk result (map due_of found.new.items
        ≡ map due_of found.old.items ++ dues_of due.entry) }
{
    match due {
        Some(due) => {
            found.push(due)?;
            Ok(())
        }
        None => Ok(()),
    }
}

/// The timed literals of a problem, where all stand on the grid.
#[tactic(auto, using(crate::proofs::DueLemmas::going))]
pub fn dues<'a>(
    alloc: Global,
    interval: Frac64,
    init: &'a [Init],
) -> Result<Vec<Due<'a>>, TransFault>
    requires { whole (pos 0) <ℚ fraction_of interval }
    ensures { MatchResult result
        (λ dues. All (StandsOnGrid (fraction_of interval)) (flat_map time_of init.now)
        × (map due_of dues.items ≡ flat_map (due_by (fraction_of interval)) init.now))
        (NotDue (fraction_of interval) (flat_map time_of init.now)) }
{
    let mut found = Vec::new(alloc);
    'init: for member in init {
        let due = match due_by(interval, member) {
            Ok(due) => due,
            Err(fault) => return Err(fault),
        };
        keep(&mut found, due)?;
    }
    Ok(found)
}

/// Whether a literal comes after time 0.
pub fn has_later(dues: &[Due<'_>]) -> bool
    ensures { result ≡ list_any is_later (map due_of dues.now) }
{
    'dues: for due in dues {
        if due.steps != 0 {
            return true;
        }
    }
    false
}

/// The fluent that counts the steps.
pub fn clock_use(alloc: Global) -> Result<Use, AllocError>
    ensures { IfOk result (λ used. used ≡ clock_use) }
{
    Ok(Use {
        head: word(alloc, b"pp-clock")?,
        args: Args::new(alloc),
        span: NOWHERE,
    })
}

// The fluent that counts the steps, as an expression.
fn clock(alloc: Global) -> Result<ExprTree, AllocError>
    ensures { IfOk result (λ expr. expr ≡ x_fluent clock_use nowhere) }
{
    Ok(ExprTree {
        node: ExprNode::Fluent(Box::new(alloc, clock_use(alloc)?)?),
        span: NOWHERE,
    })
}

// What becomes true or false.
fn due_node(alloc: Global, due: Due<'_>) -> Result<LeafNode, AllocError>
    ensures { IfOk result (λ node. node ≡ due_node (due_of due.entry)) }
{
    let atom = copies::used(alloc, due.atom)?;
    if due.positive {
        Ok(LeafNode::Add(atom))
    } else {
        Ok(LeafNode::Delete(atom))
    }
}

// A literal in the step at whose end it comes.
fn due_effect(alloc: Global, due: Due<'_>) -> Result<EffectTree, AllocError>
    ensures { IfOk result (λ piece. piece ≡ due_effect (due_of due.entry)) }
{
    let clock = Box::new(alloc, clock(alloc)?)?;
    let count = Box::new(alloc, number(due.steps.saturating_sub(1)))?;
    let now = CondTree {
        node: CondNode::Compare(Comparison::Equal, clock, count),
        span: NOWHERE,
    };
    when(alloc, now, leaf(due_node(alloc, due)?))
}

// Appends a literal, if it comes after time 0.
#[tactic(auto, using(crate::proofs::DueLemmas::keeping))]
fn put_one(alloc: Global, due: Due<'_>, into: &mut Vec<EffectTree>) -> Result<(), AllocError>
    ensures { OnOk result (into.new.items
        ≡ into.old.items ++ map due_effect (filter is_later (due_of due.entry ∷ []))) }
{
    if due.steps == 0 {
        return Ok(());
    }
    into.push(due_effect(alloc, due)?)?;
    Ok(())
}

// Appends the literals after time 0.
fn put_later(alloc: Global, dues: &[Due<'_>], into: &mut Vec<EffectTree>) -> Result<(), AllocError>
    ensures { OnOk result (into.new.items
        ≡ into.old.items ++ map due_effect (filter is_later (map due_of dues.now))) }
{
    'dues: for due in dues {
        put_one(alloc, *due, into)?;
    }
    Ok(())
}

/// Appends that the clock goes on, and the literals that come with it.
#[tactic(auto, using(crate::proofs::PartLemmas::ticking))]
pub fn put_clock(
    alloc: Global,
    dues: &[Due<'_>],
    into: &mut Vec<EffectTree>,
) -> Result<(), AllocError>
    ensures { OnOk result (into.new.items ≡ into.old.items ++ clock_effects (map due_of dues.now)) }
{
    if !has_later(dues) {
        return Ok(());
    }
    let clock = clock_use(alloc)?;
    into.push(writes(alloc, leaf(LeafNode::Increase(clock, number(1))))?)?;
    put_later(alloc, dues, into)
}
