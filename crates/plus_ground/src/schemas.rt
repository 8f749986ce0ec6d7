//! The ground actions, events and processes of schemas.

ghost use Rattle.std.specs.Prelude.{◌≡◌, [], ◌++◌, All, IfOk, OnOk, map};
ghost use Rattle.std.specs.List.{flat_map};
ghost use Rattle.plus_numbering.specs.Numbered.{context};
ghost use Rattle.plus_literal.specs.Value.{LiteralFits};
ghost use Rattle.plus_state.specs.View.{action_of, effect_of, event_of, process_of};
ghost use Rattle.plus_expansion.specs.Environments.{environments};
ghost use Rattle.plus_expansion.specs.Literals.{effect_literals, schema_literals};
ghost use Rattle.plus_expansion.specs.Expansion.{action_meant, effects_meant, event_meant, process_meant, instances_of};

use crate::conditions::condition;
use crate::effects::effects;
use crate::environments::{Environment, fewest, have_objects};
use crate::rates::rates;
use plus_literal::FromParts;
use plus_numbering::Numbering;
use plus_state::{Action, Effect, Event, Process};
use plus_tree::{EffectNode, EffectTree, Schema, TypedName};
use std::alloc::{AllocError, Global};

// How many writes an effect has where each of its members is one: the room that their list begins with.
fn writes_at_once(effect: &EffectTree) -> usize {
    match &effect.node {
        EffectNode::All(members) => members.len(),
        EffectNode::When(_, leaves) => leaves.as_slice().len(),
        EffectNode::ForAll(_, _) | EffectNode::Leaf(_) => 1,
    }
}

// The ground writes of an effect.
fn writes<Q: FromParts>(
    alloc: Global,
    numbering: &Numbering,
    env: &Environment,
    effect: &EffectTree,
) -> Result<Vec<Effect<Q>>, AllocError>
    requires { All (LiteralFits Q.fits) (effect_literals effect.now) }
    ensures { IfOk result (λ ws. map (effect_of Q.value) ws.items
        ≡ effects_meant (context numbering.now) env.now effect.now) }
{
    let mut writes = Vec::with_capacity(alloc, writes_at_once(effect))?;
    effects(alloc, numbering, env, effect, &mut writes)?;
    Ok(writes)
}

/// The ground action of an action in an environment of its parameters.
pub fn action<Q: FromParts>(
    alloc: Global,
    numbering: &Numbering,
    schema: &Schema,
    env: &Environment,
) -> Result<Action<Q>, AllocError>
    requires { All (LiteralFits Q.fits) (schema_literals schema.now) }
    ensures { IfOk result (λ a. action_of Q.value a
        ≡ action_meant (context numbering.now) schema.now env.now) }
{
    let label = env.label(alloc, numbering, schema.name.name.bytes())?;
    let condition = condition(alloc, numbering, env, true, &schema.condition)?;
    let effects = writes(alloc, numbering, env, &schema.effect)?;
    Ok(Action {
        label,
        condition,
        effects,
    })
}

fn event<Q: FromParts>(
    alloc: Global,
    numbering: &Numbering,
    schema: &Schema,
    env: &Environment,
) -> Result<Event<Q>, AllocError>
    requires { All (LiteralFits Q.fits) (schema_literals schema.now) }
    ensures { IfOk result (λ e. event_of Q.value e
        ≡ event_meant (context numbering.now) schema.now env.now) }
{
    let label = env.label(alloc, numbering, schema.name.name.bytes())?;
    let condition = condition(alloc, numbering, env, true, &schema.condition)?;
    let effects = writes(alloc, numbering, env, &schema.effect)?;
    Ok(Event {
        label,
        condition,
        effects,
    })
}

fn process<Q: FromParts>(
    alloc: Global,
    numbering: &Numbering,
    schema: &Schema,
    env: &Environment,
) -> Result<Process<Q>, AllocError>
    requires { All (LiteralFits Q.fits) (schema_literals schema.now) }
    ensures { IfOk result (λ p. process_of Q.value p
        ≡ process_meant (context numbering.now) schema.now env.now) }
{
    let label = env.label(alloc, numbering, schema.name.name.bytes())?;
    let condition = condition(alloc, numbering, env, true, &schema.condition)?;
    let mut slopes = Vec::with_capacity(alloc, writes_at_once(&schema.effect))?;
    rates(alloc, numbering, env, &schema.effect, &mut slopes)?;
    Ok(Process {
        label,
        condition,
        rates: slopes,
    })
}

// Adds the ground events of an event for each choice of objects for these parameters, inside those of `env`.
fn add_events<'a, Q: FromParts>(
    alloc: Global,
    numbering: &Numbering,
    schema: &Schema,
    params: &'a [TypedName],
    env: &mut Environment<'a>,
    into: &mut Vec<Event<Q>>,
) -> Result<(), AllocError>
    requires { All (LiteralFits Q.fits) (schema_literals schema.now) }
    ensures added { OnOk result (map (event_of Q.value) into.new.items ≡ map (event_of Q.value) into.old.items
        ++ map (event_meant (context numbering.now) schema.now)
        (environments (context numbering.now) params.now env.old)) }
    ensures same { OnOk result (env.new ≡ env.old) }
{
    match params {
        [] => {
            into.push(event(alloc, numbering, schema, env)?)?;
            Ok(())
        }
        [first, rest @ ..] => {
            let name = first.name.name.bytes();
            'members: for member in numbering.members(first.kind.name.bytes()) {
                env.bind(name, *member)?;
                add_events(alloc, numbering, schema, rest, env, into)?;
                env.unbind();
            }
            Ok(())
        }
    }
}

// Adds the ground events of an event, one for each choice of objects for its parameters.
fn events_of<Q: FromParts>(
    alloc: Global,
    numbering: &Numbering,
    schema: &Schema,
    into: &mut Vec<Event<Q>>,
) -> Result<(), AllocError>
    requires { All (LiteralFits Q.fits) (schema_literals schema.now) }
    ensures { OnOk result (map (event_of Q.value) into.new.items ≡ map (event_of Q.value) into.old.items
        ++ map (event_meant (context numbering.now) schema.now)
        (environments (context numbering.now) schema.now.params [])) }
{
    let params = schema.params.as_slice();
    if !have_objects(numbering, params) {
        return Ok(());
    }
    into.reserve(fewest(numbering, params))?;
    let mut none = Environment::new(alloc);
    add_events(alloc, numbering, schema, params, &mut none, into)
}

// Adds the ground processes of a process for each choice of objects for these parameters, inside those of `env`.
fn add_processes<'a, Q: FromParts>(
    alloc: Global,
    numbering: &Numbering,
    schema: &Schema,
    params: &'a [TypedName],
    env: &mut Environment<'a>,
    into: &mut Vec<Process<Q>>,
) -> Result<(), AllocError>
    requires { All (LiteralFits Q.fits) (schema_literals schema.now) }
    ensures added { OnOk result (map (process_of Q.value) into.new.items ≡ map (process_of Q.value) into.old.items
        ++ map (process_meant (context numbering.now) schema.now)
        (environments (context numbering.now) params.now env.old)) }
    ensures same { OnOk result (env.new ≡ env.old) }
{
    match params {
        [] => {
            into.push(process(alloc, numbering, schema, env)?)?;
            Ok(())
        }
        [first, rest @ ..] => {
            let name = first.name.name.bytes();
            'members: for member in numbering.members(first.kind.name.bytes()) {
                env.bind(name, *member)?;
                add_processes(alloc, numbering, schema, rest, env, into)?;
                env.unbind();
            }
            Ok(())
        }
    }
}

// Adds the ground processes of a process, one for each choice of objects for its parameters.
fn processes_of<Q: FromParts>(
    alloc: Global,
    numbering: &Numbering,
    schema: &Schema,
    into: &mut Vec<Process<Q>>,
) -> Result<(), AllocError>
    requires { All (LiteralFits Q.fits) (schema_literals schema.now) }
    ensures { OnOk result (map (process_of Q.value) into.new.items ≡ map (process_of Q.value) into.old.items
        ++ map (process_meant (context numbering.now) schema.now)
        (environments (context numbering.now) schema.now.params [])) }
{
    let params = schema.params.as_slice();
    if !have_objects(numbering, params) {
        return Ok(());
    }
    into.reserve(fewest(numbering, params))?;
    let mut none = Environment::new(alloc);
    add_processes(alloc, numbering, schema, params, &mut none, into)
}

/// The ground events of a list of events, in order.
pub fn events<Q: FromParts>(
    alloc: Global,
    numbering: &Numbering,
    schemas: &[Schema],
) -> Result<Vec<Event<Q>>, AllocError>
    requires { All (LiteralFits Q.fits) (flat_map schema_literals schemas.now) }
    ensures { IfOk result (λ es. map (event_of Q.value) es.items
        ≡ instances_of (context numbering.now)
        (event_meant (context numbering.now)) schemas.now) }
{
    let mut events = Vec::new(alloc);
    'schemas: for schema in schemas {
        events_of(alloc, numbering, schema, &mut events)?;
    }
    Ok(events)
}

/// The ground processes of a list of processes, in order.
pub fn processes<Q: FromParts>(
    alloc: Global,
    numbering: &Numbering,
    schemas: &[Schema],
) -> Result<Vec<Process<Q>>, AllocError>
    requires { All (LiteralFits Q.fits) (flat_map schema_literals schemas.now) }
    ensures { IfOk result (λ ps. map (process_of Q.value) ps.items
        ≡ instances_of (context numbering.now)
        (process_meant (context numbering.now)) schemas.now) }
{
    let mut processes = Vec::new(alloc);
    'schemas: for schema in schemas {
        processes_of(alloc, numbering, schema, &mut processes)?;
    }
    Ok(processes)
}
