//! The command `plan`.

ghost use Rattle.std.specs.Prelude.{◌≡◌, ◌+◌, [], ◌∷◌, IfOk, IfErr, IfSome, MatchResult};
ghost use Rattle.plus_io.specs.Files.{KeepsFiles};
ghost use Rattle.plus_io.specs.Picks.{ReadsInOrder};
ghost use Rattle.plus_number.specs.Frac.{fraction_of};
ghost use Rattle.plus_io.specs.Limits.{text_limit};
ghost use Rattle.plus_report.specs.Plans.{acts_of, plan_text};
ghost use Rattle.plus_reply.specs.Reply.{IsPlain, HasCause};
ghost use Rattle.plus_validator.specs.Validates.{kind_meant};
ghost use Rattle.plus_plan_command.specs.Planning.Planned.{IsPlanned};
ghost use Rattle.plus_plan_command.specs.Plan.{search_refusal, answer_status, answer_text, IsUnsearched, PlansPair, Plans};

use crate::planning::{none_line, plan, spent_line};
use plus_expansion::Count;
use plus_io::{Freeing, MemSink, Shelf};
use plus_number::frac::Frac64;
use plus_numbering::GroundFault;
use plus_planner::Answer;
use plus_reply::pair::pair::{Refusal, pair, release, text_for};
use plus_reply::reply::{Fault, Reply, refused};
use plus_report::{Early, Kinds, Status, write_plan};
use plus_state::TimedPlan;
use plus_types::Typed;
use plus_words::decisions::Decisions;
use plus_words::happenings::Happenings;
use plus_words::interval::Interval;
use std::alloc::{AllocError, Global};

/// How a plan is searched for: on the grid of an interval, by at most so many decisions, with so many tries, and with the cut by
/// the atoms of the goal that nothing adds or without.
#[derive(Clone, Copy)]
pub struct Search {
    pub interval: Interval,
    pub decisions: Decisions,
    pub tries: Happenings,
    pub is_cut: bool,
}

fn kind_of(count: Count) -> Kinds
    ensures { result ≡ kind_meant count }
{
    match count {
        Count::Objects => Kinds::Objects,
        Count::Atoms => Kinds::Atoms,
        Count::Fluents => Kinds::Fluents,
        Count::Processes => Kinds::Processes,
        Count::Events => Kinds::Events,
        Count::Actions => Kinds::Actions,
        Count::Nodes => Kinds::Nodes,
    }
}

// Why a pair is not searched.
fn refuse_search(fault: GroundFault) -> Refusal
    ensures { result ≡ search_refusal fault }
{
    match fault {
        GroundFault::TooMany { kind, most } => Refusal::Early(Early::TooMany {
            kind: kind_of(kind),
            most,
        }),
        GroundFault::Literal { file, span } => Refusal::Early(Early::Literal {
            text: text_for(file),
            start: span.start,
            end: span.end,
        }),
        GroundFault::Memory => Refusal::NoMemory,
    }
}

// The text of a plan.
fn text_of_plan(alloc: Global, plan: &TimedPlan<Frac64>) -> Result<Vec<u8>, AllocError>
    ensures { IfOk result (λ text. text.items
        ≡ plan_text (acts_of fraction_of plan.now.acts.items) (fraction_of plan.now.«end»)) }
{
    let mut text = MemSink::new(alloc, usize::MAX);
    if let Err(_) = write_plan(&mut text, plan) {
        return Err(AllocError);
    }
    Ok(Vec::from_slice(alloc, text.bytes())?)
}

// What is written of an answer.
fn text_of(alloc: Global, decisions: u32, answer: &Answer<Frac64>) -> Result<Vec<u8>, AllocError>
    ensures { IfOk result (λ text. text.items ≡ answer_text decisions answer.now) }
{
    match answer {
        Answer::Plan(plan) => text_of_plan(alloc, plan),
        Answer::NoPlan { beyond } => none_line(alloc, decisions, *beyond),
        Answer::Spent { tried } => spent_line(alloc, *tried),
    }
}

fn status_of(answer: &Answer<Frac64>) -> Status
    ensures { result ≡ answer_status answer.now }
{
    match answer {
        Answer::Plan(_) => Status::Valid,
        Answer::NoPlan { .. } => Status::Invalid,
        Answer::Spent { .. } => Status::Beyond,
    }
}

// The answer of a search over a well-typed pair.
#[tactic(none)]
fn searched(alloc: Global, search: Search, typed: &Typed) -> Result<Answer<Frac64>, Refusal>
    ensures { MatchResult result
        (IsPlanned typed.now.domain typed.now.problem (fraction_of search.interval.value)
        search.decisions.number search.tries.number search.is_cut)
        (IsUnsearched typed.now.domain typed.now.problem) }
{
    let decisions = search.decisions.number;
    let tries = search.tries.number;
    match plan(
        alloc,
        typed,
        search.interval.value,
        decisions,
        tries,
        search.is_cut,
    ) {
        Ok(answer) => Ok(answer),
        Err(fault) => Err(refuse_search(fault)),
    }
}

// What is replied on an answer.
fn of_answer(alloc: Global, decisions: u32, answer: &Answer<Frac64>) -> Result<Reply, Fault>
    ensures status { IfOk result (λ r. r.status ≡ answer_status answer.now) }
    ensures text { IfOk result (λ r. r.text.items ≡ answer_text decisions answer.now) }
    ensures memory { IfErr result (λ fault. fault ≡ Fault.NoMemory) }
{
    match text_of(alloc, decisions, answer) {
        Ok(text) => Ok(Reply {
            status: status_of(answer),
            text,
        }),
        Err(_) => Err(Fault::NoMemory),
    }
}

// What is replied on a well-typed pair.
#[tactic(none)]
fn of_pair(alloc: Global, search: Search, typed: &Typed) -> Result<Reply, Fault>
    ensures replies { IfOk result (λ r. PlansPair (fraction_of search.interval.value) search.decisions.number
        search.tries.number search.is_cut typed.now.domain typed.now.problem r.status r.text.items) }
    ensures memory { IfErr result (λ fault. fault ≡ Fault.NoMemory) }
{
    match searched(alloc, search, typed) {
        Ok(answer) => of_answer(alloc, search.decisions.number, &answer),
        Err(refusal) => refused(alloc, refusal),
    }
}

/// What is replied on the texts under two names.
#[tactic(none)]
pub fn answer<S: Shelf>(
    alloc: Global,
    search: Search,
    domain: &str,
    problem: &str,
    shelf: &mut S,
) -> Result<Reply, Fault>
    ensures replies { IfOk result (λ r. IfSome (S.bytes shelf.old domain.now) (λ ds.
        IfSome (S.bytes shelf.old problem.now) (λ ps.
        Plans (fraction_of search.interval.value) search.decisions.number search.tries.number search.is_cut
        ds ps r.status r.text.items))) }
    ensures plain { IfOk result (λ r. IsPlain r.status) }
    ensures fault { IfErr result (HasCause (S.faults shelf.old) (S.faults shelf.new)) }
    ensures reads { ReadsInOrder S.bytes S.picked S.rest S.picks (text_limit + 1)
        (domain.now ∷ problem.now ∷ []) shelf.old shelf.new }
    ensures keeps { KeepsFiles S.names S.bytes S.faults shelf.old shelf.new }
{
    match pair(alloc, shelf, domain, problem) {
        Ok(typed) => {
            let reply = of_pair(alloc, search, &typed);
            release(typed, Freeing::Now);
            reply
        }
        Err(refusal) => refused(alloc, refusal),
    }
}
