//! The reply of a trial.

ghost use Rattle.std.specs.Prelude.{◌≡◌, IfOk, IfErr};
ghost use Rattle.plus_validator.specs.Outcomes.{outcome_of};
ghost use Rattle.plus_validator.specs.Verdicts.{JudgesText};
ghost use Rattle.plus_trial.specs.Summary.{summary_text};
ghost use Rattle.plus_words.specs.Numbers.{default_happenings};
ghost use Rattle.plus_reply.specs.Pair.Pair.{SpellsPair};
ghost use Rattle.plus_reply.specs.Pair.Reads.{NotPair};
ghost use Rattle.plus_reply.specs.Reply.{IsPlain};
ghost use Rattle.plus_trial.specs.Trial.{farm_domain, farm_problem, farm_plan, word_of, summary_of, IsTrial};

use crate::{Summary, Word, domain_text, plan_text, problem_text, summary_text};
use plus_io::Freeing;
use plus_reply::pair::pair::{Refusal, release};
use plus_reply::pair::texts::pair_of;
use plus_reply::reply::{Fault, Reply, refused};
use plus_report::Status;
use plus_types::Typed;
use plus_validator::judge::judge;
use plus_validator::{Judged, Outcome};
use plus_words::happenings::Happenings;
use plus_words::tanks::Tanks;
use std::alloc::{AllocError, Global};

// The pair of a farm of so many tanks.
fn farm(alloc: Global, tanks: u32) -> Result<Typed, Refusal>
    ensures read { IfOk result (λ t. SpellsPair farm_domain (farm_problem tanks) t.domain t.problem) }
    ensures not_read { IfErr result (NotPair farm_domain (farm_problem tanks)) }
{
    let domain = match domain_text(alloc) {
        Ok(text) => text,
        Err(_) => return Err(Refusal::NoMemory),
    };
    let problem = match problem_text(alloc, tanks) {
        Ok(text) => text,
        Err(_) => return Err(Refusal::NoMemory),
    };
    pair_of(alloc, domain.as_slice(), problem.as_slice())
}

// The verdict on its plan.
fn judged(alloc: Global, tanks: u32, typed: &Typed, freeing: Freeing) -> Result<Judged, AllocError>
    ensures { IfOk result (JudgesText typed.now.domain typed.now.problem default_happenings (farm_plan tanks)) }
{
    let plan = plan_text(alloc, tanks)?;
    judge(
        alloc,
        typed,
        plan.as_slice(),
        Happenings::DEFAULT.number,
        freeing,
    )
}

fn word_of(outcome: Outcome) -> Word
    ensures { result ≡ word_of outcome }
{
    match outcome {
        Outcome::Valid => Word::Valid,
        Outcome::Invalid => Word::Invalid,
        Outcome::Beyond => Word::Beyond,
        Outcome::BadText | Outcome::ReadFault | Outcome::WriteFault | Outcome::NoMemory => {
            Word::Bad
        }
    }
}

// The line that sums it up.
fn summary(alloc: Global, tanks: u32, judged: &Judged) -> Result<Vec<u8>, AllocError>
    ensures { IfOk result (λ line. line.items ≡ summary_text (summary_of tanks judged.now)) }
{
    summary_text(
        alloc,
        Summary {
            tanks,
            word: word_of(judged.outcome()),
            entries: judged.entries,
            firings: judged.firings,
        },
    )
}

// The status and the line of a farm that is a pair.
fn told(alloc: Global, tanks: u32, typed: &Typed, freeing: Freeing) -> Result<Reply, AllocError>
    requires { SpellsPair farm_domain (farm_problem tanks) typed.now.domain typed.now.problem }
    ensures replies { IfOk result (λ r. IsTrial tanks r.status r.text.items) }
    ensures plain { IfOk result (λ r. IsPlain r.status) }
{
    let judged = judged(alloc, tanks, typed, freeing)?;
    let text = summary(alloc, tanks, &judged)?;
    Ok(Reply {
        status: judged.outcome().status(),
        text,
    })
}

/// `trial`: makes the texts of a farm of so many tanks, checks its plan, and sums the check up in a line. No file is read.
pub fn answer(alloc: Global, tanks: Tanks, freeing: Freeing) -> Result<Reply, Fault>
    // The status and the line are those of the check of the farm's plan, or say why its texts are no pair.
    ensures replies { IfOk result (λ r. IsTrial tanks.number r.status r.text.items) }
    ensures plain { IfOk result (λ r. IsPlain r.status) }

    // No file is read, so none fails.
    ensures memory { IfErr result (λ f. f ≡ Fault.NoMemory) }
{
    match farm(alloc, tanks.number) {
        Ok(typed) => {
            let reply = told(alloc, tanks.number, &typed, freeing);
            release(typed, freeing);
            Ok(reply?)
        }
        Err(refusal) => refused(alloc, refusal),
    }
}
