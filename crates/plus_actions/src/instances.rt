//! The instances of actions, built from the objects of their parameters.

ghost use Rattle.std.specs.Prelude.{◌≡◌, [], ◌++◌, All, IfOk, OnOk, map};
ghost use Rattle.std.specs.List.{flat_map};
ghost use Rattle.plus_numbering.specs.Numbered.{context};
ghost use Rattle.plus_literal.specs.Value.{LiteralFits};
ghost use Rattle.plus_state.specs.View.{action_of};
ghost use Rattle.plus_expansion.specs.Environments.{environments};
ghost use Rattle.plus_expansion.specs.Literals.{schema_literals};
ghost use Rattle.plus_expansion.specs.Expansion.{action_meant, instances_of};

use plus_ground::environments::{Environment, fewest, have_objects};
use plus_ground::schemas::action;
use plus_literal::FromParts;
use plus_numbering::Numbering;
use plus_state::Action;
use plus_tree::{Schema, TypedName};
use std::alloc::{AllocError, Global};

// Adds the instances of an action for each choice of objects for these parameters, inside those of `env`.
fn add_actions<'a, Q: FromParts>(
    alloc: Global,
    numbering: &Numbering,
    schema: &Schema,
    params: &'a [TypedName],
    env: &mut Environment<'a>,
    into: &mut Vec<Action<Q>>,
) -> Result<(), AllocError>
    requires { All (LiteralFits Q.fits) (schema_literals schema.now) }
    ensures added { OnOk result (map (action_of Q.value) into.new.items ≡ map (action_of Q.value) into.old.items
        ++ map (action_meant (context numbering.now) schema.now)
        (environments (context numbering.now) params.now env.old)) }
    ensures same { OnOk result (env.new ≡ env.old) }
{
    match params {
        [] => {
            into.push(action(alloc, numbering, schema, env)?)?;
            Ok(())
        }
        [first, rest @ ..] => {
            let name = first.name.name.bytes();
            'members: for member in numbering.members(first.kind.name.bytes()) {
                env.bind(name, *member)?;
                add_actions(alloc, numbering, schema, rest, env, into)?;
                env.unbind();
            }
            Ok(())
        }
    }
}

// Adds the instances of an action, one for each choice of objects for its parameters.
fn actions_of<Q: FromParts>(
    alloc: Global,
    numbering: &Numbering,
    schema: &Schema,
    into: &mut Vec<Action<Q>>,
) -> Result<(), AllocError>
    requires { All (LiteralFits Q.fits) (schema_literals schema.now) }
    ensures { OnOk result (map (action_of Q.value) into.new.items ≡ map (action_of Q.value) into.old.items
        ++ map (action_meant (context numbering.now) schema.now)
        (environments (context numbering.now) schema.now.params [])) }
{
    let params = schema.params.as_slice();
    if !have_objects(numbering, params) {
        return Ok(());
    }
    into.reserve(fewest(numbering, params))?;
    let mut none = Environment::new(alloc);
    add_actions(alloc, numbering, schema, params, &mut none, into)
}

/// The instances of a list of actions, in order.
pub fn actions<Q: FromParts>(
    alloc: Global,
    numbering: &Numbering,
    schemas: &[Schema],
) -> Result<Vec<Action<Q>>, AllocError>
    requires { All (LiteralFits Q.fits) (flat_map schema_literals schemas.now) }
    ensures { IfOk result (λ actions. map (action_of Q.value) actions.items
        ≡ instances_of (context numbering.now)
        (action_meant (context numbering.now)) schemas.now) }
{
    let mut actions = Vec::new(alloc);
    'schemas: for schema in schemas {
        actions_of(alloc, numbering, schema, &mut actions)?;
    }
    Ok(actions)
}
