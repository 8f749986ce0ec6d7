//! A pair whose texts are at hand.

ghost use Rattle.std.specs.Prelude.{◌≡◌, Some, IfOk, IfErr};
ghost use Rattle.plus_reply.specs.Pair.Pair.{SpellsPair};
ghost use Rattle.plus_reply.specs.Pair.Reads.{ReadsDomain, ReadsProblem, NotDomain, NotProblem, NotPair};

use crate::pair::pair::{Refusal, refuse_text, refuse_types};
use plus_io::TEXT_LIMIT;
use plus_places::{read_domain, read_problem};
use plus_report::{Early, Text};
use plus_tree::{Domain, Problem};
use plus_types::{Typed, check};
use std::alloc::Global;

// The domain that a text spells.
fn domain_of(alloc: Global, text: &[u8]) -> Result<Domain, Refusal>
    ensures read { IfOk result (ReadsDomain (Some text.now)) }
    ensures not_read { IfErr result (NotDomain text.now) }
{
    if text.len() > TEXT_LIMIT {
        return Err(Refusal::Early(Early::TooLong { text: Text::Domain }));
    }
    match read_domain(alloc, text) {
        Ok(domain) => Ok(domain),
        Err(fault) => Err(refuse_text(Text::Domain, text.len(), fault)),
    }
}

// The problem that a text spells.
fn problem_of(alloc: Global, text: &[u8]) -> Result<Problem, Refusal>
    ensures read { IfOk result (ReadsProblem (Some text.now)) }
    ensures not_read { IfErr result (NotProblem text.now) }
{
    if text.len() > TEXT_LIMIT {
        return Err(Refusal::Early(Early::TooLong {
            text: Text::Problem,
        }));
    }
    match read_problem(alloc, text) {
        Ok(problem) => Ok(problem),
        Err(fault) => Err(refuse_text(Text::Problem, text.len(), fault)),
    }
}

/// The well-typed pair that two texts spell.
pub fn pair_of(alloc: Global, domain: &[u8], problem: &[u8]) -> Result<Typed, Refusal>
    ensures read { IfOk result (λ t. SpellsPair domain.now problem.now t.domain t.problem) }
    ensures not_read { IfErr result (NotPair domain.now problem.now) }
{
    let domain = match domain_of(alloc, domain) {
        Ok(domain) => domain,
        Err(refusal) => return Err(refusal),
    };
    let problem = match problem_of(alloc, problem) {
        Ok(problem) => problem,
        Err(refusal) => return Err(refusal),
    };
    match check(alloc, domain, problem) {
        Ok(typed) => Ok(typed),
        Err(fault) => Err(refuse_types(fault)),
    }
}
