//! What is replied on a plan that is played while the constraints of a text are watched.

ghost use Rattle.std.specs.Prelude.{◌≡◌, ◌≤◌, length, IfOk, IfErr};
ghost use Rattle.plus_number.specs.Frac.{fraction_of, IsFrac64};
ghost use Rattle.plus_expansion.specs.Counting.{IsGroundable};
ghost use Rattle.plus_expansion.specs.Expansion.{expanded};
ghost use Rattle.plus_validator.specs.Playing.{IsGroundOf};
ghost use Rattle.plus_watch.specs.Watched.{constraints_of};
ghost use Rattle.plus_watcher.specs.Fitting.{AllFit, AreFew};
ghost use Rattle.plus_watcher.specs.declared.watcher.Standing.TheVariants.{Going as GoesOn};
ghost use Rattle.plus_watch_command.specs.Told.{named, watch_refusal, text_by, status_by, TellsPlan, TellsRules};

use crate::told::{status_of, text_of};
use plus_io::Freeing;
use plus_number::frac::Frac64;
use plus_numbering::{MOST_NODES, Numbering};
use plus_reply::pair::pair::{Refusal, refuse_types};
use plus_reply::reply::{Fault, Reply, refused};
use plus_report::{Early, Kinds, Text};
use plus_rules::{WatchFault, prepare};
use plus_state::problem::Ground;
use plus_tree::Constraint;
use plus_types::{File, TypeFault};
use plus_watch::watched::Watched;
use plus_watching::findings::{Findings, watch_text};
use std::alloc::Global;

// A refusal of a form, in the text of constraints.
fn named(refusal: Refusal) -> Refusal
    ensures { result ≡ named refusal }
{
    match refusal {
        Refusal::Early(
            Early::BadText {
                text: _,
                start,
                end,
                word,
            },
        ) => Refusal::Early(Early::BadText {
            text: Text::Constraints,
            start,
            end,
            word,
        }),
        refusal => refusal,
    }
}

// Why constraints are refused.
fn refuse_rules(fault: WatchFault) -> Refusal
    ensures { result ≡ watch_refusal fault }
{
    match fault {
        WatchFault::At { wrong, span } => named(refuse_types(TypeFault::At {
            wrong,
            file: File::Problem,
            span,
        })),
        WatchFault::TooManyNodes => Refusal::Early(Early::TooMany {
            kind: Kinds::NodesInConstraints,
            most: MOST_NODES,
        }),
        WatchFault::Literal { span } => Refusal::Early(Early::Literal {
            text: Text::Constraints,
            start: span.start,
            end: span.end,
        }),
        WatchFault::Memory => Refusal::NoMemory,
    }
}

// What is replied on what is found.
fn reply_of(alloc: Global, watched: &[Watched<Frac64>], findings: &Findings) -> Result<Reply, Fault>
    requires each { findings.now.standing ≡ GoesOn → length findings.now.firsts.items ≡ length watched.now }
    ensures status { IfOk result (λ r. r.status ≡ status_by (constraints_of fraction_of watched.now) findings.now findings.now.standing) }
    ensures text { IfOk result (λ r. r.text.items ≡ text_by (constraints_of fraction_of watched.now) findings.now findings.now.standing) }
    ensures memory { IfErr result (λ fault. fault ≡ Fault.NoMemory) }
{
    match text_of(alloc, watched, findings) {
        Ok(text) => Ok(Reply {
            status: status_of(watched, findings),
            text,
        }),
        Err(_) => Err(Fault::NoMemory),
    }
}

// What is replied on a plan text, where these constraints are watched.
fn on_plan(
    alloc: Global,
    numbering: &Numbering,
    ground: &Ground<Frac64>,
    watched: &[Watched<Frac64>],
    bytes: &[u8],
    happenings: u64,
    freeing: Freeing,
) -> Result<Reply, Fault>
    requires expands { IsGroundOf numbering.now.typed.now.domain numbering.now.typed.now.problem ground.now }
    requires groundable { IsGroundable IsFrac64 numbering.now.typed.now.domain numbering.now.typed.now.problem }
    requires some { 1 ≤ happenings }
    requires fit { AllFit (expanded numbering.now.typed.now.domain numbering.now.typed.now.problem).atoms
        (expanded numbering.now.typed.now.domain numbering.now.typed.now.problem).fluents watched.now }
    requires few { AreFew watched.now }
    ensures replies { IfOk result (λ r. TellsPlan numbering.now.typed.now.domain numbering.now.typed.now.problem
        (constraints_of fraction_of watched.now) happenings bytes.now r.status r.text.items) }
    ensures memory { IfErr result (λ fault. fault ≡ Fault.NoMemory) }
{
    match watch_text(
        alloc, numbering, ground, watched, bytes, happenings, freeing,
    ) {
        Ok(findings) => reply_of(alloc, watched, &findings),
        Err(_) => Err(Fault::NoMemory),
    }
}

/// What is replied on constraints and a plan text beside a ground pair. `happenings` is how many moments the plan may enter.
pub fn on_ground(
    alloc: Global,
    numbering: &Numbering,
    ground: &Ground<Frac64>,
    rules: &[Constraint],
    bytes: &[u8],
    happenings: u64,
    freeing: Freeing,
) -> Result<Reply, Fault>
    requires expands { IsGroundOf numbering.now.typed.now.domain numbering.now.typed.now.problem ground.now }
    requires groundable { IsGroundable IsFrac64 numbering.now.typed.now.domain numbering.now.typed.now.problem }
    requires some { 1 ≤ happenings }
    ensures replies { IfOk result (λ r. TellsRules numbering.now.typed.now.domain numbering.now.typed.now.problem
        rules.now happenings bytes.now r.status r.text.items) }
    ensures memory { IfErr result (λ fault. fault ≡ Fault.NoMemory) }
{
    match prepare::<Frac64>(alloc, numbering, rules) {
        Ok(watched) => on_plan(
            alloc, numbering, ground, &watched, bytes, happenings, freeing,
        ),
        Err(fault) => refused(alloc, refuse_rules(fault)),
    }
}
