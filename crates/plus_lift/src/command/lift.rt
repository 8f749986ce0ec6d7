//! The command `lift`.

ghost use Rattle.std.specs.Prelude.{◌≡◌, ◌+◌, [], ◌∷◌, IfOk, IfErr, IfSome};
ghost use Rattle.plus_io.specs.Files.{KeepsFiles};
ghost use Rattle.plus_io.specs.Picks.{ReadsInOrder};
ghost use Rattle.plus_number.specs.Frac.{fraction_of};
ghost use Rattle.plus_io.specs.Limits.{text_limit};
ghost use Rattle.plus_reply.specs.Reply.{IsPlain, HasCause};
ghost use Rattle.plus_lift.specs.Command.Lift.{TellsStop, LiftsPlan, LiftsPair, Lifts};

use crate::command::again::again;
use crate::command::calls::lifted;
use plus_io::{Freeing, Shelf};
use plus_numeric::{Source, Stop, numeric};
use plus_reply::pair::pair::{pair, release};
use plus_reply::reply::{Fault, Reply, refused};
use plus_report::Status;
use plus_types::Typed;
use plus_words::interval::Interval;
use std::alloc::Global;

// Tells why there is no plan.
fn stopped(stop: Stop) -> Result<Reply, Fault>
    ensures { TellsStop stop result }
{
    match stop {
        Stop::Refused(refused) => Ok(Reply {
            status: refused.kind.status(),
            text: refused.line,
        }),
        Stop::ReadFault => Err(Fault::ReadFault),
        Stop::NoMemory => Err(Fault::NoMemory),
    }
}

// What is replied on a plan of the pair that the printed translation of a pair spells.
#[tactic(none)]
fn of_texts<S: Shelf>(
    alloc: Global,
    interval: Interval,
    typed: &Typed,
    again: &Typed,
    plan: &str,
    shelf: &mut S,
) -> Result<Reply, Fault>
    ensures replies { IfOk result (λ r. IfSome (S.bytes shelf.old plan.now) (λ ls.
        LiftsPlan (fraction_of interval.value) typed.now.domain typed.now.problem
        again.now.domain again.now.problem ls r.status r.text.items)) }
    ensures plain { IfOk result (λ r. IsPlain r.status) }
    ensures fault { IfErr result (HasCause (S.faults shelf.old) (S.faults shelf.new)) }
    ensures reads { ReadsInOrder S.bytes S.picked S.rest S.picks (text_limit + 1) (plan.now ∷ []) shelf.old shelf.new }
    ensures keeps { KeepsFiles S.names S.bytes S.faults shelf.old shelf.new }
{
    match numeric(alloc, again, Source::Translated, shelf, plan, true) {
        Ok(calls) => lifted(alloc, interval, typed, &calls),
        Err(stop) => stopped(stop),
    }
}

// What is replied on a well-typed pair and a plan of its translation.
#[tactic(none)]
fn of_pair<S: Shelf>(
    alloc: Global,
    interval: Interval,
    typed: &Typed,
    plan: &str,
    shelf: &mut S,
) -> Result<Reply, Fault>
    ensures replies { IfOk result (λ r. IfSome (S.bytes shelf.old plan.now) (λ ls.
        LiftsPair (fraction_of interval.value) typed.now.domain typed.now.problem ls r.status r.text.items)) }
    ensures plain { IfOk result (λ r. IsPlain r.status) }
    ensures fault { IfErr result (HasCause (S.faults shelf.old) (S.faults shelf.new)) }
    ensures reads { ReadsInOrder S.bytes S.picked S.rest S.picks (text_limit + 1) (plan.now ∷ []) shelf.old shelf.new }
    ensures keeps { KeepsFiles S.names S.bytes S.faults shelf.old shelf.new }
{
    match again(alloc, interval, typed) {
        Ok(again) => {
            let reply = of_texts(alloc, interval, typed, &again, plan, shelf);
            release(again, Freeing::Now);
            reply
        }
        Err(refusal) => refused(alloc, refusal),
    }
}

/// What is replied on the texts under three names.
#[tactic(none)]
pub fn answer<S: Shelf>(
    alloc: Global,
    interval: Interval,
    domain: &str,
    problem: &str,
    plan: &str,
    shelf: &mut S,
) -> Result<Reply, Fault>
    ensures replies { IfOk result (λ r. IfSome (S.bytes shelf.old domain.now) (λ ds.
        IfSome (S.bytes shelf.old problem.now) (λ ps. IfSome (S.bytes shelf.old plan.now) (λ ls.
        Lifts (fraction_of interval.value) ds ps ls r.status r.text.items)))) }
    ensures plain { IfOk result (λ r. IsPlain r.status) }
    ensures fault { IfErr result (HasCause (S.faults shelf.old) (S.faults shelf.new)) }
    ensures reads { ReadsInOrder S.bytes S.picked S.rest S.picks (text_limit + 1)
        (domain.now ∷ problem.now ∷ plan.now ∷ []) shelf.old shelf.new }
    ensures keeps { KeepsFiles S.names S.bytes S.faults shelf.old shelf.new }
{
    match pair(alloc, shelf, domain, problem) {
        Ok(typed) => {
            let reply = of_pair(alloc, interval, &typed, plan, shelf);
            release(typed, Freeing::Now);
            reply
        }
        Err(refusal) => refused(alloc, refusal),
    }
}
