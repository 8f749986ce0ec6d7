//! A domain and a problem that are well typed.

ghost use Rattle.std.specs.Prelude.{◌≡◌, [], ◌++◌, IsTrue, true, false, IfOk};
ghost use Rattle.plus_types.specs.Faults.{Walks, type_faults, problem_faults, declaration_faults, rule_faults, types_faults, list_faults, heads_faults, schemas_faults, state_faults, domain_name_faults, is_well_typed, predicate_names, function_names, action_names, process_names, event_names, problem_context};
ghost use Rattle.plus_types.specs.Types.{bindings_of, objects_of};
ghost use Rattle.plus_types.specs.Known.{context};

use crate::conditions::condition;
use crate::declarations::{constants, heads, objects};
use crate::faults::{File, TypeFault, Wrong};
use crate::initial::init;
use crate::kinds::Kinds;
use crate::known::{Declared, Known};
use crate::names::Names;
use crate::schemas::schemas;
use crate::types::{self, Types};
use plus_tree::{Domain, Problem};
use std::alloc::Global;

/// A domain and a problem that are well typed, with the tables of their names. The number of a name
/// is its place in the domain; that of an object is its place among the constants and then the
/// objects.
// The trees stand last, so that their many small nodes are let go when the large tables are gone: else the
// allocator goes over all of them once more, to join what is free.
#[derive(Drop)]
pub struct Typed {
    pub types: Types,
    pub objects: Kinds,
    pub predicates: Names,
    pub functions: Names,
    pub actions: Names,
    pub processes: Names,
    pub events: Names,
    pub domain: Domain,
    pub problem: Problem,
    ghost well_typed: { IsTrue (is_well_typed domain problem) },
    ghost types_are: { types ≡ bindings_of domain.types },
    ghost objects_are: { objects ≡ bindings_of (objects_of domain problem) },
    ghost predicates_are: { predicates ≡ predicate_names domain },
    ghost functions_are: { functions ≡ function_names domain },
    ghost actions_are: { actions ≡ action_names domain },
    ghost processes_are: { processes ≡ process_names domain },
    ghost events_are: { events ≡ event_names domain },
}

impl Typed {
    /// The domain.
    pub fn domain(&self) -> &Domain
        ensures { result.now ≡ self.now.domain }
    {
        &self.domain
    }

    /// The problem.
    pub fn problem(&self) -> &Problem
        ensures { result.now ≡ self.now.problem }
    {
        &self.problem
    }

    /// What a form beside the problem may name: all types, objects, predicates and functions of the pair. Its faults are told as
    /// the problem's.
    pub fn known(&self) -> Known<'_>
        ensures { context result ≡ problem_context self.now.domain self.now.problem }
    {
        Known {
            types: &self.types,
            objects: &self.objects,
            predicates: Declared {
                names: &self.predicates,
                heads: self.domain.predicates.as_slice(),
            },
            functions: Declared {
                names: &self.functions,
                heads: self.domain.functions.as_slice(),
            },
            file: File::Problem,
        }
    }
}

// What a domain declares: its types, the objects known so far, its predicates and its functions.
#[derive(Drop)]
struct Tables {
    types: Types,
    objects: Kinds,
    predicates: Names,
    functions: Names,
}

// The tables of the actions, the processes and the events of a domain.
#[derive(Drop)]
struct Rules {
    actions: Names,
    processes: Names,
    events: Names,
}

// A function here makes two of these tables at most: an early return lets go of all that it owns, and each of them is taken
// apart there.

// The predicates and the functions of a domain.
#[tactic(auto, using(crate::proofs::WalkLemmas::walking))]
fn predicates_and_functions(
    alloc: Global,
    domain: &Domain,
    types: &Types,
) -> Result<(Names, Names), TypeFault>
    requires types { types.now ≡ bindings_of domain.now.types }
    ensures walks { Walks (heads_faults (bindings_of domain.now.types) [] domain.now.predicates
        ++ heads_faults (bindings_of domain.now.types) [] domain.now.functions) result }
    ensures predicates { IfOk result (λ t. t.0 ≡ predicate_names domain.now) }
    ensures functions { IfOk result (λ t. t.1 ≡ function_names domain.now) }
{
    let predicates = heads(alloc, types, domain.predicates.as_slice())?;
    let functions = heads(alloc, types, domain.functions.as_slice())?;
    Ok((predicates, functions))
}

// The constants, the predicates and the functions of a domain.
#[tactic(auto, using(crate::proofs::WalkLemmas::walking))]
fn constants_and_heads(
    alloc: Global,
    domain: &Domain,
    types: &Types,
) -> Result<(Kinds, Names, Names), TypeFault>
    requires types { types.now ≡ bindings_of domain.now.types }
    ensures walks { Walks (list_faults (bindings_of domain.now.types) File.Domain [] [] domain.now.constants
        ++ (heads_faults (bindings_of domain.now.types) [] domain.now.predicates
        ++ heads_faults (bindings_of domain.now.types) [] domain.now.functions)) result }
    ensures objects { IfOk result (λ t. t.0 ≡ bindings_of domain.now.constants) }
    ensures predicates { IfOk result (λ t. t.1 ≡ predicate_names domain.now) }
    ensures functions { IfOk result (λ t. t.2 ≡ function_names domain.now) }
{
    let objects = constants(alloc, types, domain.constants.as_slice())?;
    let (predicates, functions) = predicates_and_functions(alloc, domain, types)?;
    Ok((objects, predicates, functions))
}

#[tactic(auto, using(crate::proofs::WalkLemmas::walking), unfolding(crate::specs::Faults::declaration_faults))]
fn declarations(alloc: Global, domain: &Domain) -> Result<Tables, TypeFault>
    ensures walks { Walks (declaration_faults domain.now) result }
    ensures types { IfOk result (λ t. t.types ≡ bindings_of domain.now.types) }
    ensures objects { IfOk result (λ t. t.objects ≡ bindings_of domain.now.constants) }
    ensures predicates { IfOk result (λ t. t.predicates ≡ predicate_names domain.now) }
    ensures functions { IfOk result (λ t. t.functions ≡ function_names domain.now) }
{
    let types = types::walk(alloc, domain.types.as_slice())?;
    let (objects, predicates, functions) = constants_and_heads(alloc, domain, &types)?;
    Ok(Tables {
        types,
        objects,
        predicates,
        functions,
    })
}

// The processes and the events of a domain.
#[tactic(auto, using(crate::proofs::WalkLemmas::walking))]
fn processes_and_events(
    alloc: Global,
    domain: &Domain,
    known: &Known<'_>,
) -> Result<(Names, Names), TypeFault>
    ensures walks { Walks (schemas_faults (context known.now) true [] domain.now.processes
        ++ schemas_faults (context known.now) false [] domain.now.events) result }
    ensures processes { IfOk result (λ t. t.0 ≡ process_names domain.now) }
    ensures events { IfOk result (λ t. t.1 ≡ event_names domain.now) }
{
    let processes = schemas(alloc, known, true, domain.processes.as_slice())?;
    let events = schemas(alloc, known, false, domain.events.as_slice())?;
    Ok((processes, events))
}

#[tactic(auto, using(crate::proofs::WalkLemmas::walking), unfolding(crate::specs::Faults::rule_faults))]
fn rule_names(alloc: Global, domain: &Domain, tables: &Tables) -> Result<Rules, TypeFault>
    requires types { tables.now.types ≡ bindings_of domain.now.types }
    requires objects { tables.now.objects ≡ bindings_of domain.now.constants }
    requires predicates { tables.now.predicates ≡ predicate_names domain.now }
    requires functions { tables.now.functions ≡ function_names domain.now }
    ensures walks { Walks (rule_faults domain.now) result }
    ensures actions { IfOk result (λ r. r.actions ≡ action_names domain.now) }
    ensures processes { IfOk result (λ r. r.processes ≡ process_names domain.now) }
    ensures events { IfOk result (λ r. r.events ≡ event_names domain.now) }
{
    let known = Known {
        types: &tables.types,
        objects: &tables.objects,
        predicates: Declared {
            names: &tables.predicates,
            heads: domain.predicates.as_slice(),
        },
        functions: Declared {
            names: &tables.functions,
            heads: domain.functions.as_slice(),
        },
        file: File::Domain,
    };
    let actions = schemas(alloc, &known, false, domain.actions.as_slice())?;
    let (processes, events) = processes_and_events(alloc, domain, &known)?;
    Ok(Rules {
        actions,
        processes,
        events,
    })
}

// The problem is one for this domain.
fn domain_name(domain: &Domain, problem: &Problem) -> Result<(), TypeFault>
    ensures { Walks (domain_name_faults domain.now problem.now) result }
{
    if problem.domain.name.bytes() == domain.name.name.bytes() {
        Ok(())
    } else {
        Err(TypeFault::At {
            wrong: Wrong::DomainName,
            file: File::Problem,
            span: problem.domain.span,
        })
    }
}

// The initial state and the goal, beside all objects.
#[tactic(auto, using(crate::proofs::WalkLemmas::walking), unfolding(crate::specs::Faults::state_faults))]
fn states(
    alloc: Global,
    domain: &Domain,
    problem: &Problem,
    tables: &Tables,
) -> Result<(), TypeFault>
    requires types { tables.now.types ≡ bindings_of domain.now.types }
    requires objects { tables.now.objects ≡ bindings_of (objects_of domain.now problem.now) }
    requires predicates { tables.now.predicates ≡ predicate_names domain.now }
    requires functions { tables.now.functions ≡ function_names domain.now }
    ensures { Walks (state_faults domain.now problem.now) result }
{
    let known = Known {
        types: &tables.types,
        objects: &tables.objects,
        predicates: Declared {
            names: &tables.predicates,
            heads: domain.predicates.as_slice(),
        },
        functions: Declared {
            names: &tables.functions,
            heads: domain.functions.as_slice(),
        },
        file: File::Problem,
    };
    init(alloc, &known, problem.init.as_slice())?;
    let mut none = Kinds::new(alloc);
    condition(alloc, &known, &mut none, &problem.goal)
}

// The objects, the name of the domain, the initial state and the goal.
#[tactic(auto, using(crate::proofs::WalkLemmas::walking_problem))]
fn problem_forms(
    alloc: Global,
    domain: &Domain,
    problem: &Problem,
    tables: &mut Tables,
) -> Result<(), TypeFault>
    requires types { tables.old.types ≡ bindings_of domain.now.types }
    requires objects { tables.old.objects ≡ bindings_of domain.now.constants }
    requires predicates { tables.old.predicates ≡ predicate_names domain.now }
    requires functions { tables.old.functions ≡ function_names domain.now }
    ensures walks { Walks (problem_faults domain.now problem.now) result }
    ensures objects { IfOk result (λ _. tables.new.objects ≡ bindings_of (objects_of domain.now problem.now)) }
    ensures types { tables.new.types ≡ tables.old.types }
    ensures predicates { tables.new.predicates ≡ tables.old.predicates }
    ensures functions { tables.new.functions ≡ tables.old.functions }
{
    objects(
        alloc,
        &tables.types,
        &mut tables.objects,
        problem.objects.as_slice(),
    )?;
    domain_name(domain, problem)?;
    states(alloc, domain, problem, tables)
}

// The actions, processes and events of the domain, and then the problem.
#[tactic(auto, using(crate::proofs::WalkLemmas::walking))]
fn rules_and_problem(
    alloc: Global,
    domain: &Domain,
    problem: &Problem,
    tables: &mut Tables,
) -> Result<Rules, TypeFault>
    requires types { tables.old.types ≡ bindings_of domain.now.types }
    requires objects { tables.old.objects ≡ bindings_of domain.now.constants }
    requires predicates { tables.old.predicates ≡ predicate_names domain.now }
    requires functions { tables.old.functions ≡ function_names domain.now }
    ensures walks { Walks (rule_faults domain.now ++ problem_faults domain.now problem.now) result }
    ensures actions { IfOk result (λ r. r.actions ≡ action_names domain.now) }
    ensures processes { IfOk result (λ r. r.processes ≡ process_names domain.now) }
    ensures events { IfOk result (λ r. r.events ≡ event_names domain.now) }
    ensures objects { IfOk result (λ _. tables.new.objects ≡ bindings_of (objects_of domain.now problem.now)) }
    ensures types { tables.new.types ≡ tables.old.types }
    ensures predicates { tables.new.predicates ≡ tables.old.predicates }
    ensures functions { tables.new.functions ≡ tables.old.functions }
{
    let rules = rule_names(alloc, domain, &*tables)?;
    problem_forms(alloc, domain, problem, tables)?;
    Ok(rules)
}

// The walk over the pair, and its tables.
#[tactic(auto, using(crate::proofs::WalkLemmas::walking))]
fn pair(alloc: Global, domain: &Domain, problem: &Problem) -> Result<(Tables, Rules), TypeFault>
    ensures walks { Walks (type_faults domain.now problem.now) result }
    ensures types { IfOk result (λ t. t.0.types ≡ bindings_of domain.now.types) }
    ensures objects { IfOk result (λ t. t.0.objects ≡ bindings_of (objects_of domain.now problem.now)) }
    ensures predicates { IfOk result (λ t. t.0.predicates ≡ predicate_names domain.now) }
    ensures functions { IfOk result (λ t. t.0.functions ≡ function_names domain.now) }
    ensures actions { IfOk result (λ t. t.1.actions ≡ action_names domain.now) }
    ensures processes { IfOk result (λ t. t.1.processes ≡ process_names domain.now) }
    ensures events { IfOk result (λ t. t.1.events ≡ event_names domain.now) }
{
    let mut tables = declarations(alloc, domain)?;
    let rules = rules_and_problem(alloc, domain, problem, &mut tables)?;
    Ok((tables, rules))
}

/// Tests whether a domain and a problem are well typed, and answers the first fault of the walk:
/// types, constants, predicates, functions, actions, processes, events, objects, the name of the
/// problem's domain, the initial state and the goal.
#[tactic(auto, using(crate::proofs::WalkLemmas::well_typed_if_none))]
pub fn check(alloc: Global, domain: Domain, problem: Problem) -> Result<Typed, TypeFault>
    ensures pair { IfOk result (λ t. (t.domain ≡ domain) × (t.problem ≡ problem)) }
    ensures walks { Walks (type_faults domain problem) result }
{
    let (tables, rules) = pair(alloc, &domain, &problem)?;
    let Tables {
        types,
        objects,
        predicates,
        functions,
    } = tables;
    let Rules {
        actions,
        processes,
        events,
    } = rules;
    Ok(Typed {
        domain,
        problem,
        types,
        objects,
        predicates,
        functions,
        actions,
        processes,
        events,
    })
}
