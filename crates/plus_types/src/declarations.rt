//! Walks what is declared: constants, objects, variables, predicates and functions.

ghost use Rattle.std.specs.Prelude.{◌≡◌, ◌≤◌, false, [], ◌∷◌, ◌++◌, map, take, drop, length, IfOk};
ghost use Rattle.plus_types.specs.Types.{is_among, bindings_of, bound_names};
ghost use Rattle.plus_types.specs.Faults.{Walks, bound_faults, kind_faults, member_faults, list_faults, twice_faults, head_faults, heads_faults};

use crate::faults::{File, TypeFault, Wrong};
use crate::kinds::Kinds;
use crate::names::Names;
use crate::types::Types;
use plus_tree::{Head, Spelled, TypedName};
use std::alloc::Global;

// A list binds a name once, and none that a list around it binds. The first names of the table are
// those of the lists around it.
fn bound(file: File, outer: usize, table: &Kinds, name: &Spelled) -> Result<(), TypeFault>
    ensures walks { Walks (bound_faults file (take outer (bound_names table.now)) (drop outer (bound_names table.now)) name.now) result }
    ensures fresh { IfOk result (λ _. is_among (bound_names table.now) name.now.name ≡ false) }
{
    match table.number(name.name.bytes()) {
        None => Ok(()),
        Some(place) => {
            let wrong = if place < outer {
                Wrong::Shadowed
            } else {
                Wrong::Twice
            };
            Err(TypeFault::At {
                wrong,
                file,
                span: name.span,
            })
        }
    }
}

// The type of a constant, an object or a variable is a type.
fn kind(types: &Types, file: File, kind: &Spelled) -> Result<(), TypeFault>
    ensures { Walks (kind_faults types.now file kind.now) result }
{
    if types.contains(kind.name.bytes()) {
        Ok(())
    } else {
        Err(TypeFault::At {
            wrong: Wrong::UnknownType,
            file,
            span: kind.span,
        })
    }
}

#[tactic(auto, using(crate::proofs::WalkLemmas::walking), unfolding(crate::specs::Faults::member_faults))]
fn member(
    alloc: Global,
    types: &Types,
    file: File,
    outer: usize,
    table: &mut Kinds,
    member: &TypedName,
) -> Result<(), TypeFault>
    ensures walks { Walks (member_faults types.now file (take outer (bound_names table.old)) (drop outer (bound_names table.old)) member.now) result }
    ensures bound { IfOk result (λ _. table.new ≡ table.old ++ (member.now.name.name, member.now.kind.name) ∷ []) }
{
    bound(file, outer, table, &member.name)?;
    kind(types, file, &member.kind)?;
    table.bind(alloc, member.name.name.bytes(), member.kind.name.bytes())?;
    Ok(())
}

/// Walks a list of constants, objects or variables, and binds each in the table, whose first
/// `outer` names are bound around the list.
#[tactic(auto, using(crate::proofs::WalkLemmas::walking))]
pub fn list(
    alloc: Global,
    types: &Types,
    file: File,
    outer: usize,
    table: &mut Kinds,
    members: &[TypedName],
) -> Result<(), TypeFault>
    requires { outer ≤ length table.old }
    ensures walks { Walks (list_faults types.now file (take outer (bound_names table.old)) (drop outer (bound_names table.old)) members.now) result }
    ensures bound { IfOk result (λ _. table.new ≡ table.old ++ bindings_of members.now) }
{
    'members: for typed in members {
        member(alloc, types, file, outer, table, typed)?;
    }
    Ok(())
}

/// Walks the constants of a domain, and answers their table.
pub fn constants(alloc: Global, types: &Types, members: &[TypedName]) -> Result<Kinds, TypeFault>
    ensures walks { Walks (list_faults types.now File.Domain [] [] members.now) result }
    ensures table { IfOk result (λ t. t ≡ bindings_of members.now) }
{
    let mut table = Kinds::new(alloc);
    list(alloc, types, File::Domain, 0, &mut table, members)?;
    Ok(table)
}

/// Walks the objects of a problem, and binds each in the table of the constants.
pub fn objects(
    alloc: Global,
    types: &Types,
    table: &mut Kinds,
    members: &[TypedName],
) -> Result<(), TypeFault>
    ensures walks { Walks (list_faults types.now File.Problem [] (bound_names table.old) members.now) result }
    ensures bound { IfOk result (λ _. table.new ≡ table.old ++ bindings_of members.now) }
{
    list(alloc, types, File::Problem, 0, table, members)
}

/// Adds a name that is declared, unless it was declared before.
pub fn declare(alloc: Global, names: &mut Names, name: &Spelled) -> Result<(), TypeFault>
    ensures walks { Walks (twice_faults names.old name.now) result }
    ensures added { IfOk result (λ _. names.new ≡ names.old ++ name.now.name ∷ []) }
{
    if names.add(alloc, name.name.bytes())? {
        Ok(())
    } else {
        Err(TypeFault::At {
            wrong: Wrong::Twice,
            file: File::Domain,
            span: name.span,
        })
    }
}

#[tactic(auto, using(crate::proofs::WalkLemmas::walking), unfolding(crate::specs::Faults::head_faults))]
fn head(alloc: Global, types: &Types, names: &mut Names, head: &Head) -> Result<(), TypeFault>
    ensures walks { Walks (head_faults types.now names.old head.now) result }
    ensures added { IfOk result (λ _. names.new ≡ names.old ++ head.now.name.name ∷ []) }
{
    declare(alloc, names, &head.name)?;
    let mut params = Kinds::new(alloc);
    list(
        alloc,
        types,
        File::Domain,
        0,
        &mut params,
        head.params.as_slice(),
    )
}

/// Walks predicates or functions, and answers the table of their names.
#[tactic(auto, using(crate::proofs::WalkLemmas::walking))]
pub fn heads(alloc: Global, types: &Types, heads: &[Head]) -> Result<Names, TypeFault>
    ensures walks { Walks (heads_faults types.now [] heads.now) result }
    ensures table { IfOk result (λ names. names ≡ map (λ h. h.name.name) heads.now) }
{
    let mut names = Names::new(alloc);
    'heads: for declared in heads {
        head(alloc, types, &mut names, declared)?;
    }
    Ok(names)
}
