//! The first name that is taken.

ghost use Rattle.std.specs.Prelude.{◌≡◌, slice_get};
ghost use Rattle.std.specs.List.{flat_map};
ghost use Rattle.plus_translation.specs.Names.{is_taken, taken_name, taken_list, taken_in, taken_in_effect, taken_head, taken_schema, taken_action, names_taken};
ghost use Rattle.plus_translate.specs.Found.{first_of};

use plus_tree::{
    CondNode, CondTree, Domain, EffectNode, EffectTree, Head, Problem, Schema, Span, Spelled,
    TypedName,
};
use plus_types::File;

// How the names begin that a translation adds.
const PREFIX: usize = 3;

// The name begins as those that a translation adds.
#[tactic(auto, using(crate::proofs::FoundLemmas::front_of))]
fn is_taken(name: &[u8]) -> bool
    ensures { result ≡ is_taken name.now }
{
    let front = &name[..name.len().min(PREFIX)];
    front == b"pp-".as_slice()
}

// The place of a name in a text.
type Place = (File, Span);

// Looks at a name.
fn name(found: &mut Option<Place>, file: File, word: &Spelled)
    ensures { found.new ≡ first_of found.old (taken_name file word.now) }
{
    if found.is_none() && is_taken(word.name.bytes()) {
        *found = Some((file, word.span));
    }
}

// Looks at the variables of a list.
#[tactic(auto, using(crate::proofs::FoundLemmas::in_lists))]
fn list(found: &mut Option<Place>, file: File, members: &[TypedName])
    ensures { found.new ≡ first_of found.old (taken_list file members.now) }
{
    'members: for member in members {
        name(found, file, &member.name);
    }
}

// Looks at the variables that are bound in a condition.
#[tactic(auto, using(crate::proofs::FoundLemmas::in_conds))]
fn condition(found: &mut Option<Place>, file: File, cond: &CondTree)
    ensures { found.new ≡ first_of found.old (taken_in file cond.now) }
{
    match &cond.node {
        CondNode::All(members) | CondNode::Any(members) => {
            'members: for member in members {
                condition(found, file, member);
            }
        }
        CondNode::Not(negated) => condition(found, file, negated),
        CondNode::Imply(first, second) => {
            condition(found, file, first);
            condition(found, file, second);
        }
        CondNode::ForAll(names, inner) | CondNode::Exists(names, inner) => {
            list(found, file, names.as_slice());
            condition(found, file, inner);
        }
        CondNode::Atom(_) | CondNode::Same(_, _) | CondNode::Compare(_, _, _) => {}
    }
}

// Looks at the variables that are bound in an effect.
#[tactic(auto, using(crate::proofs::FoundLemmas::in_effects))]
fn effect(found: &mut Option<Place>, file: File, tree: &EffectTree)
    ensures { found.new ≡ first_of found.old (taken_in_effect file tree.now) }
{
    match &tree.node {
        EffectNode::All(members) => {
            'members: for member in members {
                effect(found, file, member);
            }
        }
        EffectNode::ForAll(names, inner) => {
            list(found, file, names.as_slice());
            effect(found, file, inner);
        }
        EffectNode::When(guard, _) => condition(found, file, guard),
        EffectNode::Leaf(_) => {}
    }
}

// Looks at a predicate or a function.
#[tactic(auto, using(crate::proofs::FoundLemmas::joined))]
fn head(found: &mut Option<Place>, head: &Head)
    ensures { found.new ≡ first_of found.old (taken_head head.now) }
{
    name(found, File::Domain, &head.name);
    list(found, File::Domain, head.params.as_slice());
}

// Looks at the variables of an action, a process or an event.
#[tactic(auto, using(crate::proofs::FoundLemmas::joined))]
fn schema(found: &mut Option<Place>, schema: &Schema)
    ensures { found.new ≡ first_of found.old (taken_schema schema.now) }
{
    list(found, File::Domain, schema.params.as_slice());
    condition(found, File::Domain, &schema.condition);
    effect(found, File::Domain, &schema.effect);
}

// Looks at an action.
#[tactic(auto, using(crate::proofs::FoundLemmas::joined))]
fn action(found: &mut Option<Place>, action: &Schema)
    ensures { found.new ≡ first_of found.old (taken_action action.now) }
{
    name(found, File::Domain, &action.name);
    schema(found, action);
}

// Looks at predicates or functions.
#[tactic(auto, using(crate::proofs::FoundLemmas::in_heads))]
fn heads(found: &mut Option<Place>, members: &[Head])
    ensures { found.new ≡ first_of found.old (flat_map taken_head members.now) }
{
    'members: for member in members {
        head(found, member);
    }
}

// Looks at processes or events.
#[tactic(auto, using(crate::proofs::FoundLemmas::in_schemas))]
fn schemas(found: &mut Option<Place>, members: &[Schema])
    ensures { found.new ≡ first_of found.old (flat_map taken_schema members.now) }
{
    'members: for member in members {
        schema(found, member);
    }
}

// Looks at actions.
#[tactic(auto, using(crate::proofs::FoundLemmas::in_actions))]
fn actions(found: &mut Option<Place>, members: &[Schema])
    ensures { found.new ≡ first_of found.old (flat_map taken_action members.now) }
{
    'members: for member in members {
        action(found, member);
    }
}

/// The first name of a pair that begins as those that a translation adds.
#[tactic(auto, using(crate::proofs::FoundLemmas::joined))]
pub fn first_taken(domain: &Domain, problem: &Problem) -> Option<Place>
    ensures { result ≡ slice_get (names_taken domain.now problem.now) 0 }
{
    let mut found = None;
    heads(&mut found, domain.predicates.as_slice());
    heads(&mut found, domain.functions.as_slice());
    actions(&mut found, domain.actions.as_slice());
    schemas(&mut found, domain.processes.as_slice());
    schemas(&mut found, domain.events.as_slice());
    condition(&mut found, File::Problem, &problem.goal);
    found
}
