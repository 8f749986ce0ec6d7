//! Walks actions, processes and events.

ghost use Rattle.std.specs.Prelude.{◌≡◌, [], ◌∷◌, ◌++◌, map, IfOk};
ghost use Rattle.plus_types.specs.Faults.{Walks, schema_faults, schemas_faults};
ghost use Rattle.plus_types.specs.Known.{context};

use crate::conditions::{condition, variables};
use crate::declarations::declare;
use crate::effects::effect;
use crate::faults::TypeFault;
use crate::kinds::Kinds;
use crate::known::Known;
use crate::names::Names;
use plus_tree::Schema;
use std::alloc::Global;

// The table of the variables is lent, and is empty again behind the schema.
#[tactic(auto, using(crate::proofs::WalkLemmas::walking), unfolding(crate::specs::Faults::schema_faults))]
fn schema(
    alloc: Global,
    known: &Known<'_>,
    process: bool,
    names: &mut Names,
    vars: &mut Kinds,
    schema: &Schema,
) -> Result<(), TypeFault>
    requires { vars.old ≡ [] }
    ensures walks { Walks (schema_faults (context known.now) process names.old schema.now) result }
    ensures added { IfOk result (λ _. names.new ≡ names.old ++ schema.now.name.name ∷ []) }
    ensures left { IfOk result (λ _. vars.new ≡ []) }
{
    declare(alloc, names, &schema.name)?;
    variables(alloc, known, vars, schema.params.as_slice())?;
    condition(alloc, known, vars, &schema.condition)?;
    effect(alloc, known, vars, process, &schema.effect)?;
    vars.truncate(0);
    Ok(())
}

/// Walks actions, processes or events, and answers the table of their names.
#[tactic(auto, using(crate::proofs::WalkLemmas::walking))]
pub fn schemas(
    alloc: Global,
    known: &Known<'_>,
    process: bool,
    schemas: &[Schema],
) -> Result<Names, TypeFault>
    ensures walks { Walks (schemas_faults (context known.now) process [] schemas.now) result }
    ensures table { IfOk result (λ names. names ≡ map (λ a. a.name.name) schemas.now) }
{
    let mut names = Names::new(alloc);
    let mut vars = Kinds::new(alloc);
    'schemas: for walked in schemas {
        schema(alloc, known, process, &mut names, &mut vars, walked)?;
    }
    Ok(names)
}
