//! The command `translate`.

ghost use Rattle.std.specs.Prelude.{◌≡◌, ◌≤◌, ◌+◌, [], ◌∷◌, IfOk, IfErr, IfSome, MatchResult};
ghost use Rattle.plus_io.specs.Files.{KeepsFiles};
ghost use Rattle.plus_io.specs.Picks.{ReadsInOrder};
ghost use Rattle.plus_number.specs.Frac.{fraction_of};
ghost use Rattle.plus_io.specs.Limits.{text_limit};
ghost use Rattle.plus_io.specs.MemSink.{sink_state};
ghost use Rattle.plus_reply.specs.Reply.{IsPlain, HasCause};
ghost use Rattle.plus_translate_command.specs.Printer.Printed.{IsTextOfHalf};
ghost use Rattle.plus_translate_command.specs.HalfReply.{TellsRefusal, Gives};
ghost use Rattle.plus_translate_command.specs.Translate.{trans_refusal, IsUntranslated, TranslatesPair, Translates};

use crate::printer::{HalfText, translated_half};
use plus_io::{Freeing, MemSink, Shelf, Sink};
use plus_reply::pair::pair::{Refusal, bad_text, pair, release, text_for};
use plus_reply::reply::{Fault, refused};
use plus_report::{Early, Status, Text, Word};
use plus_translate::TransFault;
use plus_types::{File, Typed};
use plus_words::interval::Interval;
use std::alloc::Global;

// Why a pair has no translation.
fn refuse_translation(fault: TransFault) -> Refusal
    ensures { result ≡ trans_refusal fault }
{
    match fault {
        TransFault::NameTaken { file, span } => bad_text(text_for(file), span, Word::NameTaken),
        TransFault::OffGrid { span } => bad_text(Text::Problem, span, Word::OffGrid),
        TransFault::TooDeep => Refusal::Early(Early::DepthOut),
        TransFault::Memory => Refusal::NoMemory,
    }
}

// A text, in memory.
fn in_memory(alloc: Global, half: &HalfText) -> Result<MemSink, Refusal>
    ensures { MatchResult result
        (λ text. (sink_state text).bytes ≡ half.now)
        (λ refusal. refusal ≡ Refusal.NoMemory) }
{
    let mut text = MemSink::new(alloc, usize::MAX);
    match half.write(&mut text) {
        Ok(()) => Ok(text),
        Err(_) => Err(Refusal::NoMemory),
    }
}

/// The canonical text of one half of the translation of a well-typed pair in steps of this length, in memory.
#[tactic(none)]
pub fn translated_text(
    alloc: Global,
    file: File,
    interval: Interval,
    typed: &Typed,
) -> Result<MemSink, Refusal>
    ensures { MatchResult result
        (λ text. IsTextOfHalf file (fraction_of interval.value) typed.now.domain typed.now.problem (sink_state text).bytes)
        (IsUntranslated (fraction_of interval.value) typed.now.domain typed.now.problem) }
{
    match translated_half(alloc, file, typed, interval.value) {
        Ok(half) => in_memory(alloc, &half),
        Err(fault) => Err(refuse_translation(fault)),
    }
}

/// A half, or a line in its place, and its status.
#[derive(Drop)]
pub struct HalfReply {
    pub status: Status,
    pub text: HalfText,
}

// Tells a refusal.
fn half_refused(alloc: Global, refusal: Refusal) -> Result<HalfReply, Fault>
    ensures { TellsRefusal refusal result }
{
    match refused(alloc, refusal) {
        Ok(reply) => Ok(HalfReply {
            status: reply.status,
            text: HalfText::whole(alloc, reply.text),
        }),
        Err(fault) => Err(fault),
    }
}

/// Writes a reply part by part, and answers its status.
pub fn give<O: Sink>(out: &mut O, reply: &Result<HalfReply, Fault>) -> Status
    ensures gives { Gives reply.now (O.taken out.old) (O.taken out.new) (O.faults out.old) (O.faults out.new) result }
    ensures no_fall { O.faults out.old ≤ O.faults out.new }
{
    match reply {
        Ok(reply) => match reply.text.write(out) {
            Ok(()) => reply.status,
            Err(_) => Status::WriteFault,
        },
        Err(Fault::ReadFault) => Status::ReadFault,
        Err(Fault::NoMemory) => Status::NoMemory,
    }
}

// What is replied on a well-typed pair.
#[tactic(none)]
fn of_pair(alloc: Global, file: File, interval: Interval, typed: &Typed) -> Result<HalfReply, Fault>
    ensures replies { IfOk result (λ r. TranslatesPair file (fraction_of interval.value)
        typed.now.domain typed.now.problem r.status r.text) }
    ensures memory { IfErr result (λ fault. fault ≡ Fault.NoMemory) }
{
    match translated_half(alloc, file, typed, interval.value) {
        Ok(text) => Ok(HalfReply {
            status: Status::Valid,
            text,
        }),
        Err(fault) => half_refused(alloc, refuse_translation(fault)),
    }
}

/// What is replied on the texts under two names.
#[tactic(none)]
pub fn answer<S: Shelf>(
    alloc: Global,
    file: File,
    interval: Interval,
    domain: &str,
    problem: &str,
    shelf: &mut S,
) -> Result<HalfReply, Fault>
    ensures replies { IfOk result (λ r. IfSome (S.bytes shelf.old domain.now) (λ ds.
        IfSome (S.bytes shelf.old problem.now) (λ ps.
        Translates file (fraction_of interval.value) ds ps r.status r.text))) }
    ensures plain { IfOk result (λ r. IsPlain r.status) }
    ensures fault { IfErr result (HasCause (S.faults shelf.old) (S.faults shelf.new)) }
    ensures reads { ReadsInOrder S.bytes S.picked S.rest S.picks (text_limit + 1)
        (domain.now ∷ problem.now ∷ []) shelf.old shelf.new }
    ensures keeps { KeepsFiles S.names S.bytes S.faults shelf.old shelf.new }
{
    match pair(alloc, shelf, domain, problem) {
        Ok(typed) => {
            let reply = of_pair(alloc, file, interval, &typed);
            release(typed, Freeing::Now);
            reply
        }
        Err(refusal) => half_refused(alloc, refusal),
    }
}
