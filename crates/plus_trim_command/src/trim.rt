//! The command `trim`.

ghost use Rattle.std.specs.Prelude.{◌≡◌, ◌≤◌, ◌+◌, [], ◌∷◌, map, IfOk, IfErr, IfSome};
ghost use Rattle.plus_io.specs.Files.{KeepsFiles};
ghost use Rattle.plus_io.specs.Limits.{text_limit};
ghost use Rattle.plus_io.specs.Picks.{ReadsOnce, ReadsInOrder};
ghost use Rattle.plus_number.specs.Frac.{fraction_of};
ghost use Rattle.plus_expansion.specs.Expansion.{expanded};
ghost use Rattle.plus_reply.specs.Reply.{IsPlain, HasCause};
ghost use Rattle.plus_state.specs.View.{problem_of};
ghost use Rattle.plus_trim.specs.Acts.{act_of};
ghost use Rattle.plus_trim_command.specs.Acts.{act_count};
ghost use Rattle.plus_trim_command.specs.Lines.{IsPlanText};
ghost use Rattle.plus_trim_command.specs.Playable.{is_valid, AcceptsText, IsAcceptedAs, IsTrimmable, KeepsActs};
ghost use Rattle.plus_trim_command.specs.Trim.{most_acts, many_line, TrimsPlan, TrimsPair, Trims};
ghost use Rattle.plus_validator.specs.Outcomes.{outcome_of, status_of};
ghost use Rattle.plus_validator.specs.Plans.{pair_in, lines_meant};

use crate::acts::{acts_of, count, end_of};
use crate::kept::{kept_of, text_of};
use crate::lines::lines_of;
use plus_ground::ground;
use plus_io::{Freeing, ReadStop, Shelf, TEXT_LIMIT, read_all};
use plus_number::frac::Frac64;
use plus_numbering::{GroundFault, Numbering};
use plus_plan::Line;
use plus_reply::pair::pair::{pair, release};
use plus_reply::reply::{Fault, Reply, refused};
use plus_report::Status;
use plus_state::problem::Ground;
use plus_trim::TimedAction;
use plus_types::Typed;
use plus_validator::judge::judge;
use plus_validator::{Judged, Outcome};
use plus_words::happenings::Happenings;
use std::alloc::{AllocError, Global};
use std::mem;

/// The most actions of a plan that is trimmed.
const MOST_ACTS: usize = 200;

// The plan has too many actions.
fn many(alloc: Global) -> Result<Reply, AllocError>
    ensures { IfOk result (λ r. (r.status ≡ Status.Beyond) × (r.text.items ≡ many_line)) }
{
    let text = Vec::from_slice(alloc, b"beyond: more than 200 plan actions\n")?;
    Ok(Reply {
        status: Status::Beyond,
        text,
    })
}

// What is replied on the acts of a valid plan.
fn of_acts(
    alloc: Global,
    ground: &Ground<Frac64>,
    acts: &[TimedAction<Frac64>],
    end: Frac64,
) -> Result<Reply, AllocError>
    requires { IsTrimmable (problem_of fraction_of ground.now) (map (act_of fraction_of) acts.now) (fraction_of end) }
    ensures { IfOk result (λ r. KeepsActs (problem_of fraction_of ground.now) (map (act_of fraction_of) acts.now) (fraction_of end) r.status r.text.items) }
{
    let kept = kept_of(alloc, ground, acts, end)?;
    let text = text_of(alloc, acts, &kept, end)?;
    Ok(Reply {
        status: Status::Valid,
        text,
    })
}

// What is replied on the lines of an accepted plan, over the ground form of its pair.
fn of_lines(
    alloc: Global,
    numbering: &Numbering,
    ground: &Ground<Frac64>,
    lines: &[Line],
) -> Result<Reply, AllocError>
    requires accepted { IsAcceptedAs numbering.now.typed.now.domain numbering.now.typed.now.problem lines.now }
    requires few { act_count (lines_meant (pair_in numbering.now.typed.now) lines.now) ≤ most_acts }
    requires expands { problem_of fraction_of ground.now ≡ expanded numbering.now.typed.now.domain numbering.now.typed.now.problem }
    ensures { IfOk result (λ r. TrimsPlan (expanded numbering.now.typed.now.domain numbering.now.typed.now.problem)
        (lines_meant (pair_in numbering.now.typed.now) lines.now) r.status r.text.items) }
{
    let end = end_of(lines);
    let acts = acts_of(alloc, numbering, lines)?;
    let reply = of_acts(alloc, ground, &acts, end);
    // By a call: its proof stands once.
    drop(acts);
    reply
}

// Want of memory; the pair of an accepted plan is grounded.
fn wanting(fault: GroundFault) -> AllocError
    requires { fault ≡ GroundFault.Memory }
{
    match fault {
        GroundFault::TooMany { .. } => unreachable!(),
        GroundFault::Literal { .. } => unreachable!(),
        GroundFault::Memory => AllocError,
    }
}

// What is replied on the lines of an accepted plan of a pair whose ground atoms and fluents are numbered.
fn of_numbered(alloc: Global, numbering: &Numbering, lines: &[Line]) -> Result<Reply, AllocError>
    requires accepted { IsAcceptedAs numbering.now.typed.now.domain numbering.now.typed.now.problem lines.now }
    requires few { act_count (lines_meant (pair_in numbering.now.typed.now) lines.now) ≤ most_acts }
    ensures { IfOk result (λ r. TrimsPlan (expanded numbering.now.typed.now.domain numbering.now.typed.now.problem)
        (lines_meant (pair_in numbering.now.typed.now) lines.now) r.status r.text.items) }
{
    match ground::<Frac64>(alloc, numbering) {
        Ok(ground) => {
            let reply = of_lines(alloc, numbering, &ground, lines);
            drop(ground);
            reply
        }
        Err(fault) => Err(wanting(fault)),
    }
}

// What is replied on the lines of an accepted plan.
fn of_plan(alloc: Global, typed: &Typed, lines: &[Line]) -> Result<Reply, AllocError>
    requires { IsAcceptedAs typed.now.domain typed.now.problem lines.now }
    ensures { IfOk result (λ r. TrimsPlan (expanded typed.now.domain typed.now.problem)
        (lines_meant (pair_in typed.now) lines.now) r.status r.text.items) }
{
    if count(lines) > MOST_ACTS {
        return many(alloc);
    }
    match Numbering::new(alloc, typed) {
        Ok(numbering) => of_numbered(alloc, &numbering, lines),
        Err(fault) => Err(wanting(fault)),
    }
}

// What is replied on the text of an accepted plan.
fn of_accepted(alloc: Global, typed: &Typed, text: &[u8]) -> Result<Reply, AllocError>
    requires { AcceptsText typed.now.domain typed.now.problem text.now }
    ensures { IfOk result (λ r. TrimsPair typed.now.domain typed.now.problem text.now r.status r.text.items) }
{
    let lines = lines_of(alloc, text)?;
    let reply = of_plan(alloc, typed, &lines);
    drop(lines);
    reply
}

// The verdict on a plan that is refused.
fn of_refused(alloc: Global, judged: &mut Judged) -> Reply
    ensures status { result.status ≡ status_of (outcome_of judged.old.verdict) }
    ensures text { result.text ≡ judged.old.line }
{
    Reply {
        status: judged.outcome().status(),
        text: mem::replace(&mut judged.line, Vec::new(alloc)),
    }
}

// Whether a plan with this outcome is accepted.
fn is_valid(outcome: Outcome) -> bool
    ensures { result ≡ is_valid outcome }
{
    match outcome {
        Outcome::Valid => true,
        Outcome::Invalid | Outcome::Beyond | Outcome::BadText => false,
        Outcome::ReadFault | Outcome::WriteFault | Outcome::NoMemory => false,
    }
}

// What is replied on the text of a plan.
fn of_text(alloc: Global, typed: &Typed, text: &[u8]) -> Result<Reply, AllocError>
    ensures replies { IfOk result (λ r. TrimsPair typed.now.domain typed.now.problem text.now r.status r.text.items) }
    ensures plain { IfOk result (λ r. IsPlain r.status) }
{
    let mut judged = judge(alloc, typed, text, Happenings::DEFAULT.number, Freeing::Now)?;
    if is_valid(judged.outcome()) {
        drop(judged);
        return of_accepted(alloc, typed, text);
    }
    let reply = of_refused(alloc, &mut judged);
    drop(judged);
    Ok(reply)
}

// The bytes of the plan under a name, at most one past the limit of a text: who judges them sees that there are too many, behind
// what the lines before say.
fn plan_under<S: Shelf>(alloc: Global, shelf: &mut S, plan: &str) -> Result<Vec<u8>, Fault>
    ensures read { IfOk result (λ text. IfSome (S.bytes shelf.old plan.now) (λ bytes. IsPlanText bytes text.items)) }
    ensures fault { IfErr result (HasCause (S.faults shelf.old) (S.faults shelf.new)) }
    ensures reads { ReadsOnce S.bytes S.picked S.rest S.picks (text_limit + 1) plan.now shelf.old shelf.new }
    ensures keeps { KeepsFiles S.names S.bytes S.faults shelf.old shelf.new }
{
    let mut bytes = Vec::new(alloc);
    match read_all(shelf, plan, TEXT_LIMIT, &mut bytes) {
        Ok(()) => Ok(bytes),
        Err(ReadStop::Failed) => Err(Fault::ReadFault),
        Err(ReadStop::TooLong) => match bytes.push(b'\n') {
            Ok(()) => Ok(bytes),
            Err(_) => Err(Fault::NoMemory),
        },
        Err(ReadStop::Memory) => Err(Fault::NoMemory),
    }
}

// What is replied on a well-typed pair and a plan of it.
fn of_pair<S: Shelf>(
    alloc: Global,
    typed: &Typed,
    plan: &str,
    shelf: &mut S,
) -> Result<Reply, Fault>
    ensures replies { IfOk result (λ r. IfSome (S.bytes shelf.old plan.now) (λ ls.
        TrimsPair typed.now.domain typed.now.problem ls r.status r.text.items)) }
    ensures plain { IfOk result (λ r. IsPlain r.status) }
    ensures fault { IfErr result (HasCause (S.faults shelf.old) (S.faults shelf.new)) }
    ensures reads { ReadsInOrder S.bytes S.picked S.rest S.picks (text_limit + 1) (plan.now ∷ []) shelf.old shelf.new }
    ensures keeps { KeepsFiles S.names S.bytes S.faults shelf.old shelf.new }
{
    match plan_under(alloc, shelf, plan) {
        Ok(text) => match of_text(alloc, typed, &text) {
            Ok(reply) => Ok(reply),
            Err(_) => Err(Fault::NoMemory),
        },
        Err(fault) => Err(fault),
    }
}

/// What is replied on the texts under three names.
#[tactic(none)]
pub fn answer<S: Shelf>(
    alloc: Global,
    domain: &str,
    problem: &str,
    plan: &str,
    shelf: &mut S,
) -> Result<Reply, Fault>
    ensures replies { IfOk result (λ r. IfSome (S.bytes shelf.old domain.now) (λ ds.
        IfSome (S.bytes shelf.old problem.now) (λ ps. IfSome (S.bytes shelf.old plan.now) (λ ls.
        Trims ds ps ls r.status r.text.items)))) }
    ensures plain { IfOk result (λ r. IsPlain r.status) }
    ensures fault { IfErr result (HasCause (S.faults shelf.old) (S.faults shelf.new)) }
    ensures reads { ReadsInOrder S.bytes S.picked S.rest S.picks (text_limit + 1)
        (domain.now ∷ problem.now ∷ plan.now ∷ []) shelf.old shelf.new }
    ensures keeps { KeepsFiles S.names S.bytes S.faults shelf.old shelf.new }
{
    match pair(alloc, shelf, domain, problem) {
        Ok(typed) => {
            let reply = of_pair(alloc, &typed, plan, shelf);
            release(typed, Freeing::Now);
            reply
        }
        Err(refusal) => refused(alloc, refusal),
    }
}
