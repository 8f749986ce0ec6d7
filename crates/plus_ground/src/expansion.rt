//! The ground problem of a well-typed pair, and the instance of a call.

ghost use Rattle.std.specs.Prelude.{◌≡◌, None, Some, length, slice_get, nat_eq, IfOk, MatchResult, MatchOption, if◌then◌else◌};
ghost use Rattle.std.specs.List.{list_any, position_or_len};
ghost use Rattle.std.specs.Str.{bytes_eq};
ghost use Rattle.plus_model.specs.Running.{IsRising};
ghost use Rattle.plus_state.specs.View.{problem_of, labels_of, action_of};
ghost use Rattle.plus_state.specs.Fits.{ActionFits};
ghost use Rattle.plus_types.specs.Faults.{action_names};
ghost use Rattle.plus_numbering.specs.Numbered.{context};
ghost use Rattle.plus_expansion.specs.Numbers.{ground_names};
ghost use Rattle.plus_expansion.specs.Expansion.{expanded, labels_meant};
ghost use Rattle.plus_expansion.specs.Calls.{called_of, bound_by};
ghost use Rattle.plus_expansion.specs.Counting.{IsGroundable};
ghost use Rattle.plus_ground.specs.Refusals.{IsInstance, RefusesGround, RefusesCall};

use crate::environments::Environment;
use crate::faults::InstanceFault;
use crate::parts::{ground_contents, ground_names};
use crate::schemas::action;
use plus_literal::FromParts;
use plus_numbering::{GroundFault, Numbering, fit, is_small, schema_fits, within};
use plus_state::{Action, Ground};
use plus_tree::{Call, Name, Schema, TypedName};
use plus_types::Typed;
use std::alloc::{AllocError, Global};

// Tests that a pair is inside the limits, and that its literals are values of the type of numbers.
fn limits<Q: FromParts>(numbering: &Numbering) -> Result<(), GroundFault>
    ensures { MatchResult result
        (λ _. IsGroundable Q.fits numbering.now.typed.now.domain numbering.now.typed.now.problem)
        (RefusesGround Q.fits numbering.now.typed.now.domain numbering.now.typed.now.problem) }
{
    within(numbering)?;
    fit::<Q>(numbering.typed)
}

// The ground problem of a pair inside the limits, whose literals are values of the type of numbers.
fn expand<Q: FromParts>(alloc: Global, numbering: &Numbering) -> Result<Ground<Q>, AllocError>
    requires { IsGroundable Q.fits numbering.now.typed.now.domain numbering.now.typed.now.problem }
    ensures expands { IfOk result (λ g. problem_of Q.value g ≡ expanded numbering.now.typed.now.domain numbering.now.typed.now.problem) }
    ensures labels { IfOk result (λ g. labels_of g ≡ labels_meant numbering.now.typed.now.domain numbering.now.typed.now.problem) }
{
    let names = ground_names(alloc, numbering)?;
    let contents = ground_contents(alloc, numbering)?;
    Ok(Ground {
        atoms: names.atoms,
        fluents: names.fluents,
        processes: contents.happenings.rules.processes,
        events: contents.happenings.rules.events,
        timed: contents.happenings.timed,
        initial: contents.ends.initial,
        goal: contents.ends.goal,
    })
}

/// Grounds a well-typed pair. `TooMany` comes where a count passes its limit, in the order processes,
/// events (10,000 each), nodes (1,000,000); then `Literal` at the first literal of the initial state,
/// the goal, the processes and the events that is no value of the type of numbers.
pub fn ground<Q: FromParts>(alloc: Global, numbering: &Numbering) -> Result<Ground<Q>, GroundFault>
    ensures expands { IfOk result (λ g. problem_of Q.value g ≡ expanded numbering.now.typed.now.domain numbering.now.typed.now.problem) }
    ensures labels { IfOk result (λ g. labels_of g ≡ labels_meant numbering.now.typed.now.domain numbering.now.typed.now.problem) }
    ensures limits { MatchResult result
        (λ _. IsGroundable Q.fits numbering.now.typed.now.domain numbering.now.typed.now.problem)
        (RefusesGround Q.fits numbering.now.typed.now.domain numbering.now.typed.now.problem) }
{
    limits::<Q>(numbering)?;
    Ok(expand(alloc, numbering)?)
}

// The action with a name.
#[tactic(auto, using(crate::proofs::CallsLemmas::naming))]
fn named<'a>(typed: &'a Typed, name: &[u8]) -> Option<&'a Schema>
    ensures { MatchOption result
        (slice_get typed.now.domain.actions (position_or_len (bytes_eq name.now) (action_names typed.now.domain)) ≡ None)
        (λ a. slice_get typed.now.domain.actions (position_or_len (bytes_eq name.now) (action_names typed.now.domain)) ≡ Some a.now) }
{
    match typed.actions.number(name) {
        None => None,
        Some(place) => Some(&typed.domain.actions.as_slice()[place]),
    }
}

// Whether an object is one of these, which rise.
fn is_among(object: u32, members: &[u32]) -> bool
    requires { IsRising 0 members.now }
    ensures { result ≡ list_any (nat_eq object) members.now }
{
    let own = object as usize;
    if own < members.len() {
        if members[own] == object {
            return true;
        }
    }
    match members.binary_search(&object) {
        Ok(_) => true,
        Err(_) => false,
    }
}

// Binds parameters to the objects with these names, and answers whether there are as many names as
// parameters and each is of an object of its parameter's type.
fn bind<'a>(
    numbering: &Numbering,
    params: &'a [TypedName],
    args: &[Name],
    env: &mut Environment<'a>,
) -> Result<bool, AllocError>
    ensures { IfOk result (λ bound. (if bound then Some env.new else None)
        ≡ bound_by (context numbering.now) params.now args.now env.old) }
{
    match params {
        [] => Ok(args.is_empty()),
        [first, params @ ..] => match args {
            [] => Ok(false),
            [arg, args @ ..] => {
                let object = numbering.object(arg.bytes());
                if is_among(object, numbering.members(first.kind.name.bytes())) {
                    env.bind(first.name.name.bytes(), object)?;
                    bind(numbering, params, args, env)
                } else {
                    Ok(false)
                }
            }
        },
    }
}

/// The ground action that a call names. It is refused where no action has the name; else where the
/// arguments are more or fewer than the parameters, or one is no object of its parameter's type; else
/// where the instance has more than 1,000,000 nodes; else at the first literal of the action, its
/// condition before its effect, that is no value of the type of numbers.
pub fn instance<Q: FromParts>(
    alloc: Global,
    numbering: &Numbering,
    call: &Call,
) -> Result<Action<Q>, InstanceFault>
    ensures called { MatchResult result
        (λ a. IsInstance Q.fits numbering.now.typed.now.domain call.now.name
        (called_of numbering.now.typed.now.domain numbering.now.typed.now.problem call.now.name call.now.args) (action_of Q.value a))
        (RefusesCall Q.fits numbering.now.typed.now.domain call.now.name
        (called_of numbering.now.typed.now.domain numbering.now.typed.now.problem call.now.name call.now.args)) }
    ensures fits { IfOk result (λ a. ActionFits
        (length (ground_names (context numbering.now) numbering.now.typed.now.domain.predicates))
        (length (ground_names (context numbering.now) numbering.now.typed.now.domain.functions))
        (action_of Q.value a)) }
{
    let schema = match named(numbering.typed, call.name.bytes()) {
        None => return Err(InstanceFault::UnknownAction),
        Some(schema) => schema,
    };
    let mut env = Environment::new(alloc);
    let bound = bind(
        numbering,
        schema.params.as_slice(),
        call.args.as_slice(),
        &mut env,
    )?;
    if !bound {
        return Err(InstanceFault::WrongArguments);
    }
    if !is_small(numbering, schema) {
        return Err(InstanceFault::TooManyNodes);
    }
    match schema_fits::<Q>(schema) {
        Ok(()) => {}
        Err(span) => return Err(InstanceFault::Literal { span }),
    }
    Ok(action(alloc, numbering, schema, &env)?)
}
