//! A translated domain without its old actions.

ghost use Rattle.std.specs.Prelude.{◌≡◌, map, IfOk};
ghost use Rattle.plus_number.specs.Frac.{fraction_of};
ghost use Rattle.plus_translate.specs.Dues.{due_of};
ghost use Rattle.plus_translate_command.specs.Printer.Frame.{frame_of};

use plus_number::frac::Frac64;
use plus_renaming::copies;
use plus_translate::domain::{constants, fire, functions, predicates, requirements, step};
use plus_translate::due::Due;
use plus_tree::{Domain, Members, NOWHERE, Problem, Schema};
use std::alloc::{AllocError, Global};

/// The translated domain without its old actions, by its renamed events and its literals.
pub fn frame(
    alloc: Global,
    interval: Frac64,
    events: &[Schema],
    dues: &[Due<'_>],
    domain: &Domain,
    problem: &Problem,
) -> Result<Domain, AllocError>
    ensures { IfOk result (λ frame. frame
        ≡ frame_of (fraction_of interval) events.now (map due_of dues.now) domain.now problem.now) }
{
    let mut actions = Members::new(alloc);
    actions.push(step(alloc, interval, events, dues, domain.processes.as_slice())?)?;
    actions.push(fire(alloc, events)?)?;
    Ok(Domain {
        name: copies::spelled(alloc, &domain.name)?,
        requirements: requirements(alloc)?,
        types: copies::typed_names(alloc, domain.types.as_slice())?,
        constants: constants(alloc, dues, domain, problem)?,
        predicates: predicates(alloc, events, domain.predicates.as_slice())?,
        functions: functions(alloc, dues, domain.functions.as_slice())?,
        actions,
        processes: Members::new(alloc),
        events: Members::new(alloc),
        span: NOWHERE,
    })
}
