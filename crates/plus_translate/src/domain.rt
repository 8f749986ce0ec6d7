//! The translated domain and problem.

ghost use Rattle.std.specs.Prelude.{◌≡◌, ◌∷◌, ◌++◌, map, IfOk, OnOk};
ghost use Rattle.plus_number.specs.Frac.{fraction_of};
ghost use Rattle.plus_translation.specs.Translated.{mark_heads, none_hold, clears, length_of_step, old_translated, without_params, init_translated, domain_translated, problem_translated};
ghost use Rattle.plus_translate.specs.Dues.{due_of};
ghost use Rattle.plus_translate.specs.Parts.{step_of, objects_of, fire_of, new_actions_of, constants_of, functions_of, requirements_of};

use crate::due::{Due, has_later, put_clock};
use crate::fires::put_fires;
use crate::flows::{length_of_step, put_flows};
use crate::guards::{put_clears, put_heads, put_none, put_repeats, put_some};
use crate::initial::init_translated;
use crate::pieces::{both, everything, word};
use plus_number::frac::Frac64;
use plus_renaming::copies;
use plus_tree::{
    CondNode, CondTree, Domain, EffectTree, Head, Init, Members, NOWHERE, Problem, Schema, Spelled,
    TypedName,
};
use std::alloc::{AllocError, Global};

// A condition, and that no event holds.
fn besides_none(
    alloc: Global,
    events: &[Schema],
    cond: &CondTree,
) -> Result<Vec<CondTree>, AllocError>
    ensures { IfOk result (λ conds. conds.items ≡ cond.now ∷ none_hold events.now) }
{
    let mut conds = Vec::with_capacity(alloc, 1)?;
    conds.push(copies::condition(alloc, cond)?)?;
    put_none(alloc, events, &mut conds)?;
    Ok(conds)
}

// An old action: where no event holds, and marks go.
fn old_action(alloc: Global, events: &[Schema], action: &Schema) -> Result<Schema, AllocError>
    ensures { IfOk result (λ translated. translated
        ≡ old_translated (none_hold events.now) (clears 1 events.now) action.now) }
{
    let conds = besides_none(alloc, events, &action.condition)?;
    let mut effects = Vec::with_capacity(alloc, 1)?;
    effects.push(copies::effect(alloc, &action.effect)?)?;
    put_clears(alloc, events, &mut effects)?;
    Ok(Schema {
        name: copies::spelled(alloc, &action.name)?,
        params: copies::typed_names(alloc, action.params.as_slice())?,
        condition: both(conds),
        effect: everything(effects),
        span: NOWHERE,
    })
}

// Appends the old actions.
fn put_actions(
    alloc: Global,
    events: &[Schema],
    actions: &[Schema],
    into: &mut Members<Schema>,
) -> Result<(), AllocError>
    ensures { OnOk result (into.new ≡ into.old
        ++ map (old_translated (none_hold events.now) (clears 1 events.now)) actions.now) }
{
    'actions: for action in actions {
        into.push(old_action(alloc, events, action)?)?;
    }
    Ok(())
}

// An action without parameters.
fn without_params(
    alloc: Global,
    name: &[u8],
    condition: CondTree,
    effects: Vec<EffectTree>,
) -> Result<Schema, AllocError>
    ensures { IfOk result (λ action. action ≡ without_params name.now condition effects.items) }
{
    Ok(Schema {
        name: word(alloc, name)?,
        params: Members::new(alloc),
        condition,
        effect: everything(effects),
        span: NOWHERE,
    })
}

/// The action that lets a step of time pass.
pub fn step(
    alloc: Global,
    interval: Frac64,
    events: &[Schema],
    dues: &[Due<'_>],
    processes: &[Schema],
) -> Result<Schema, AllocError>
    ensures { IfOk result (λ action. action
        ≡ step_of (length_of_step (fraction_of interval)) events.now (map due_of dues.now) processes.now) }
{
    let mut conds = Vec::new(alloc);
    put_none(alloc, events, &mut conds)?;
    let length = length_of_step(alloc, interval)?;
    let mut effects = Vec::new(alloc);
    put_flows(alloc, &length, processes, &mut effects)?;
    put_clock(alloc, dues, &mut effects)?;
    put_clears(alloc, events, &mut effects)?;
    without_params(alloc, b"pp-step", both(conds), effects)
}

/// The action that fires a round of events.
pub fn fire(alloc: Global, events: &[Schema]) -> Result<Schema, AllocError>
    ensures { IfOk result (λ action. action ≡ fire_of events.now) }
{
    let mut holding = Vec::new(alloc);
    put_some(alloc, events, &mut holding)?;
    let mut conds = Vec::new(alloc);
    conds.push(CondTree {
        node: CondNode::Any(holding),
        span: NOWHERE,
    })?;
    put_repeats(alloc, events, &mut conds)?;
    let mut effects = Vec::new(alloc);
    put_fires(alloc, events, &mut effects)?;
    without_params(alloc, b"pp-fire", both(conds), effects)
}

/// The requirements of each translation.
pub fn requirements(alloc: Global) -> Result<Members<Spelled>, AllocError>
    ensures { IfOk result (λ words. words ≡ requirements_of) }
{
    let mut words = Members::new(alloc);
    words.push(word(alloc, b"adl")?)?;
    words.push(word(alloc, b"fluents")?)?;
    Ok(words)
}

/// The constants, and the objects where a step may name them.
#[tactic(auto, using(crate::proofs::PartLemmas::named))]
pub fn constants(
    alloc: Global,
    dues: &[Due<'_>],
    domain: &Domain,
    problem: &Problem,
) -> Result<Members<TypedName>, AllocError>
    ensures { IfOk result (λ names. names
        ≡ constants_of (map due_of dues.now) domain.now problem.now) }
{
    let mut names = copies::typed_names(alloc, domain.constants.as_slice())?;
    if !has_later(dues) {
        return Ok(names);
    }
    copies::put_typed_names(alloc, problem.objects.as_slice(), &mut names)?;
    Ok(names)
}

// Appends predicates or functions.
fn put_copies(alloc: Global, heads: &[Head], into: &mut Members<Head>) -> Result<(), AllocError>
    ensures { OnOk result (into.new ≡ into.old ++ heads.now) }
{
    'heads: for head in heads {
        into.push(copies::head(alloc, head)?)?;
    }
    Ok(())
}

/// The predicates, and those of the marks.
pub fn predicates(
    alloc: Global,
    events: &[Schema],
    old: &[Head],
) -> Result<Members<Head>, AllocError>
    ensures { IfOk result (λ heads. heads ≡ old.now ++ mark_heads 1 events.now) }
{
    let mut heads = Members::new(alloc);
    put_copies(alloc, old, &mut heads)?;
    put_heads(alloc, events, &mut heads)?;
    Ok(heads)
}

/// The functions, and the clock where it is needed.
#[tactic(auto, using(crate::proofs::PartLemmas::clocked))]
pub fn functions(alloc: Global, dues: &[Due<'_>], old: &[Head]) -> Result<Members<Head>, AllocError>
    ensures { IfOk result (λ heads. heads ≡ functions_of (map due_of dues.now) old.now) }
{
    let mut heads = Members::new(alloc);
    put_copies(alloc, old, &mut heads)?;
    if !has_later(dues) {
        return Ok(heads);
    }
    heads.push(Head {
        name: word(alloc, b"pp-clock")?,
        params: Members::new(alloc),
        span: NOWHERE,
    })?;
    Ok(heads)
}

// Appends the actions of a step and of a round.
fn put_new_actions(
    alloc: Global,
    interval: Frac64,
    events: &[Schema],
    dues: &[Due<'_>],
    processes: &[Schema],
    into: &mut Members<Schema>,
) -> Result<(), AllocError>
    ensures { OnOk result (into.new ≡ into.old
        ++ new_actions_of (length_of_step (fraction_of interval)) events.now (map due_of dues.now) processes.now) }
{
    into.push(step(alloc, interval, events, dues, processes)?)?;
    into.push(fire(alloc, events)?)
}

// The old actions, and those of a step and of a round.
fn actions(
    alloc: Global,
    interval: Frac64,
    events: &[Schema],
    dues: &[Due<'_>],
    domain: &Domain,
) -> Result<Members<Schema>, AllocError>
    ensures { IfOk result (λ actions. actions
        ≡ map (old_translated (none_hold events.now) (clears 1 events.now)) domain.now.actions
        ++ new_actions_of (length_of_step (fraction_of interval)) events.now (map due_of dues.now) domain.now.processes) }
{
    let mut actions = Members::new(alloc);
    put_actions(alloc, events, domain.actions.as_slice(), &mut actions)?;
    put_new_actions(
        alloc,
        interval,
        events,
        dues,
        domain.processes.as_slice(),
        &mut actions,
    )?;
    Ok(actions)
}

// The predicates and the functions.
fn heads(
    alloc: Global,
    events: &[Schema],
    dues: &[Due<'_>],
    domain: &Domain,
) -> Result<(Members<Head>, Members<Head>), AllocError>
    ensures { IfOk result (λ heads. (heads.0 ≡ domain.now.predicates ++ mark_heads 1 events.now)
        × (heads.1 ≡ functions_of (map due_of dues.now) domain.now.functions)) }
{
    let predicates = predicates(alloc, events, domain.predicates.as_slice())?;
    let functions = functions(alloc, dues, domain.functions.as_slice())?;
    Ok((predicates, functions))
}

// The types and the constants.
fn names(
    alloc: Global,
    dues: &[Due<'_>],
    domain: &Domain,
    problem: &Problem,
) -> Result<(Members<TypedName>, Members<TypedName>), AllocError>
    ensures { IfOk result (λ names. (names.0 ≡ domain.now.types)
        × (names.1 ≡ constants_of (map due_of dues.now) domain.now problem.now)) }
{
    let types = copies::typed_names(alloc, domain.types.as_slice())?;
    let constants = constants(alloc, dues, domain, problem)?;
    Ok((types, constants))
}

// The types and the constants, and the predicates and the functions.
fn declared(
    alloc: Global,
    events: &[Schema],
    dues: &[Due<'_>],
    domain: &Domain,
    problem: &Problem,
) -> Result<
    (
        (Members<TypedName>, Members<TypedName>),
        (Members<Head>, Members<Head>),
    ),
    AllocError,
>
    ensures { IfOk result (λ declared. (declared.0.0 ≡ domain.now.types)
        × (declared.0.1 ≡ constants_of (map due_of dues.now) domain.now problem.now)
        × (declared.1.0 ≡ domain.now.predicates ++ mark_heads 1 events.now)
        × (declared.1.1 ≡ functions_of (map due_of dues.now) domain.now.functions)) }
{
    let names = names(alloc, dues, domain, problem)?;
    Ok((names, heads(alloc, events, dues, domain)?))
}

// The name and the requirements.
fn title(alloc: Global, domain: &Domain) -> Result<(Spelled, Members<Spelled>), AllocError>
    ensures { IfOk result (λ title. (title.0 ≡ domain.now.name) × (title.1 ≡ requirements_of)) }
{
    let name = copies::spelled(alloc, &domain.name)?;
    Ok((name, requirements(alloc)?))
}

/// The translated domain, by its renamed events and its literals.
pub fn domain_translated(
    alloc: Global,
    interval: Frac64,
    events: &[Schema],
    dues: &[Due<'_>],
    domain: &Domain,
    problem: &Problem,
) -> Result<Domain, AllocError>
    ensures { IfOk result (λ translated. translated
        ≡ domain_translated (fraction_of interval) events.now (map due_of dues.now) domain.now problem.now) }
{
    let actions = actions(alloc, interval, events, dues, domain)?;
    let ((types, constants), (predicates, functions)) = declared(
        alloc, events, dues, domain, problem,
    )?;
    let (name, requirements) = title(alloc, domain)?;
    Ok(Domain {
        name,
        requirements,
        types,
        constants,
        predicates,
        functions,
        actions,
        processes: Members::new(alloc),
        events: Members::new(alloc),
        span: NOWHERE,
    })
}

// The objects, where they are not constants.
fn objects(
    alloc: Global,
    dues: &[Due<'_>],
    problem: &Problem,
) -> Result<Members<TypedName>, AllocError>
    ensures { IfOk result (λ names. names ≡ objects_of (map due_of dues.now) problem.now) }
{
    if has_later(dues) {
        Ok(Members::new(alloc))
    } else {
        copies::typed_names(alloc, problem.objects.as_slice())
    }
}

// The objects, where they are not constants, and the initial state.
fn beginning(
    alloc: Global,
    dues: &[Due<'_>],
    problem: &Problem,
) -> Result<(Members<TypedName>, Members<Init>), AllocError>
    ensures { IfOk result (λ begin. (begin.0 ≡ objects_of (map due_of dues.now) problem.now)
        × (begin.1 ≡ init_translated (map due_of dues.now) problem.now.init)) }
{
    let objects = objects(alloc, dues, problem)?;
    let init = init_translated(alloc, dues, problem.init.as_slice())?;
    Ok((objects, init))
}

// The name of the problem, and that of its domain.
fn problem_names(alloc: Global, problem: &Problem) -> Result<(Spelled, Spelled), AllocError>
    ensures { IfOk result (λ names. (names.0 ≡ problem.now.name) × (names.1 ≡ problem.now.domain)) }
{
    let name = copies::spelled(alloc, &problem.name)?;
    Ok((name, copies::spelled(alloc, &problem.domain)?))
}

/// The translated problem, by the renamed events of its domain and its literals.
pub fn problem_translated(
    alloc: Global,
    events: &[Schema],
    dues: &[Due<'_>],
    problem: &Problem,
) -> Result<Problem, AllocError>
    ensures { IfOk result (λ translated. translated
        ≡ problem_translated events.now (map due_of dues.now) problem.now) }
{
    let (objects, init) = beginning(alloc, dues, problem)?;
    let conds = besides_none(alloc, events, &problem.goal)?;
    let (name, domain) = problem_names(alloc, problem)?;
    Ok(Problem {
        name,
        domain,
        requirements: Members::new(alloc),
        objects,
        init,
        goal: both(conds),
        span: NOWHERE,
    })
}
