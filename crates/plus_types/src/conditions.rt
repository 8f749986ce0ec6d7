//! Walks conditions.

ghost use Rattle.std.specs.Prelude.{◌≡◌, ◌++◌, IfOk};
ghost use Rattle.plus_types.specs.Types.{bindings_of};
ghost use Rattle.plus_types.specs.Faults.{Walks, variables_faults, cond_faults};
ghost use Rattle.plus_types.specs.Known.{context};

use crate::declarations::list;
use crate::faults::TypeFault;
use crate::kinds::Kinds;
use crate::known::Known;
use crate::uses::{expression, term, used};
use plus_tree::{CondNode, CondTree, TypedName};
use std::alloc::Global;

/// Walks the list of a quantifier, and binds its variables beside those that are bound around it.
#[tactic(auto, using(crate::proofs::ListLemmas::all_around))]
pub fn variables(
    alloc: Global,
    known: &Known<'_>,
    vars: &mut Kinds,
    list_of: &[TypedName],
) -> Result<(), TypeFault>
    ensures walks { Walks (variables_faults (context known.now) vars.old list_of.now) result }
    ensures bound { IfOk result (λ _. vars.new ≡ vars.old ++ bindings_of list_of.now) }
{
    list(alloc, known.types, known.file, vars.len(), vars, list_of)
}

/// Walks a condition, in which these variables are bound.
#[tactic(auto, using(crate::proofs::WalkLemmas::walking))]
pub fn condition(
    alloc: Global,
    known: &Known<'_>,
    vars: &mut Kinds,
    cond: &CondTree,
) -> Result<(), TypeFault>
    ensures walks { Walks (cond_faults (context known.now) vars.old cond.now) result }
    ensures kept { IfOk result (λ _. vars.new ≡ vars.old) }
{
    match &cond.node {
        CondNode::All(members) | CondNode::Any(members) => {
            'members: for member in members {
                condition(alloc, known, vars, member)?;
            }
            Ok(())
        }
        CondNode::Not(negated) => condition(alloc, known, vars, negated),
        CondNode::Imply(premise, conclusion) => {
            condition(alloc, known, vars, premise)?;
            condition(alloc, known, vars, conclusion)
        }
        CondNode::ForAll(list_of, body) | CondNode::Exists(list_of, body) => {
            let outer = vars.len();
            variables(alloc, known, vars, list_of.as_slice())?;
            condition(alloc, known, vars, body)?;
            vars.truncate(outer);
            Ok(())
        }
        CondNode::Atom(atom) => used(known, vars, &known.predicates, atom),
        CondNode::Same(left, right) => {
            term(known, vars, left)?;
            term(known, vars, right)
        }
        CondNode::Compare(_, left, right) => {
            expression(known, vars, false, left)?;
            expression(known, vars, false, right)
        }
    }
}
