//! The translation of a pair.

ghost use Rattle.std.specs.Prelude.{◌≡◌, true, map, IfOk, MatchResult, pos};
ghost use Rattle.std.specs.List.{flat_map};
ghost use Rattle.plus_fraction.specs.Fraction.{whole, ◌<ℚ◌};
ghost use Rattle.plus_number.specs.Frac.{fraction_of};
ghost use Rattle.plus_translation.specs.Renamed.{renamed_from};
ghost use Rattle.plus_translation.specs.Depth.{pair_within};
ghost use Rattle.plus_translation.specs.Translated.{due_by, translated_domain, translated_problem};
ghost use Rattle.plus_translate.specs.Dues.{due_of};
ghost use Rattle.plus_translate.specs.Translates.{IsTranslation, NoTranslation, NotShallow};

use crate::depth::pair_within;
use crate::domain::{domain_translated, problem_translated};
use crate::due::{Due, dues};
use crate::fault::TransFault;
use crate::found::first_taken;
use plus_number::frac::Frac64;
use plus_renaming::renaming::events;
use plus_tree::{Domain, Problem, Schema};
use plus_types::Typed;
use std::alloc::{AllocError, Global};

// The two trees, by the renamed events.
fn trees_by_events(
    alloc: Global,
    interval: Frac64,
    domain: &Domain,
    problem: &Problem,
    dues: &[Due<'_>],
    events: &[Schema],
) -> Result<(Domain, Problem), AllocError>
    requires dues { map due_of dues.now ≡ flat_map (due_by (fraction_of interval)) problem.now.init }
    requires events { events.now ≡ renamed_from 1 domain.now.events }
    ensures { IfOk result (λ pair. (pair.0 ≡ translated_domain (fraction_of interval) domain.now problem.now)
        × (pair.1 ≡ translated_problem (fraction_of interval) domain.now problem.now)) }
{
    let translated = domain_translated(alloc, interval, events, dues, domain, problem)?;
    match problem_translated(alloc, events, dues, problem) {
        Ok(problem) => Ok((translated, problem)),
        Err(fault) => {
            drop(translated);
            Err(fault)
        }
    }
}

// The two trees.
fn trees(
    alloc: Global,
    interval: Frac64,
    domain: &Domain,
    problem: &Problem,
    dues: &[Due<'_>],
) -> Result<(Domain, Problem), AllocError>
    requires { map due_of dues.now ≡ flat_map (due_by (fraction_of interval)) problem.now.init }
    ensures { IfOk result (λ pair. (pair.0 ≡ translated_domain (fraction_of interval) domain.now problem.now)
        × (pair.1 ≡ translated_problem (fraction_of interval) domain.now problem.now)) }
{
    let events = events(alloc, domain.events.as_slice())?;
    trees_by_events(alloc, interval, domain, problem, dues, &events)
}

// The pair, where its texts are not too deep.
fn shallow(pair: (Domain, Problem)) -> Result<(Domain, Problem), TransFault>
    ensures { MatchResult result
        (λ kept. (kept ≡ pair) × (pair_within pair.0 pair.1 ≡ true))
        (NotShallow pair.0 pair.1) }
{
    if pair_within(&pair.0, &pair.1) {
        return Ok(pair);
    }
    drop(pair);
    Err(TransFault::TooDeep)
}

// The two trees, where their texts are not too deep.
fn shallow_trees(
    alloc: Global,
    interval: Frac64,
    domain: &Domain,
    problem: &Problem,
    dues: &[Due<'_>],
) -> Result<(Domain, Problem), TransFault>
    requires { map due_of dues.now ≡ flat_map (due_by (fraction_of interval)) problem.now.init }
    ensures { MatchResult result
        (λ pair. (pair.0 ≡ translated_domain (fraction_of interval) domain.now problem.now)
        × (pair.1 ≡ translated_problem (fraction_of interval) domain.now problem.now)
        × (pair_within pair.0 pair.1 ≡ true))
        (NotShallow (translated_domain (fraction_of interval) domain.now problem.now)
        (translated_problem (fraction_of interval) domain.now problem.now)) }
{
    match trees(alloc, interval, domain, problem, dues) {
        Ok(pair) => shallow(pair),
        Err(_) => Err(TransFault::Memory),
    }
}

/// The translation of a well-typed pair in steps of this length, for planners that know no time.
#[tactic(auto, using(crate::proofs::TranslateLemmas::translating))]
pub fn translate(
    alloc: Global,
    typed: &Typed,
    interval: Frac64,
) -> Result<(Domain, Problem), TransFault>
    requires { whole (pos 0) <ℚ fraction_of interval }
    ensures { MatchResult result
        (λ pair. IsTranslation (fraction_of interval) typed.now.domain typed.now.problem pair.0 pair.1)
        (NoTranslation (fraction_of interval) typed.now.domain typed.now.problem) }
{
    let domain = typed.domain();
    let problem = typed.problem();
    if let Some((file, span)) = first_taken(domain, problem) {
        return Err(TransFault::NameTaken { file, span });
    }
    let dues = match dues(alloc, interval, problem.init.as_slice()) {
        Ok(dues) => dues,
        Err(fault) => return Err(fault),
    };
    shallow_trees(alloc, interval, domain, problem, &dues)
}
