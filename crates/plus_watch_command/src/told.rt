//! What is written of a plan that was watched.

ghost use Rattle.std.specs.Prelude.{◌≡◌, ℕ, suc, length, IfOk, IfErr};
ghost use Rattle.plus_number.specs.Frac.{fraction_of};
ghost use Rattle.plus_watch.specs.Watched.{constraints_of, places_of};
ghost use Rattle.plus_watch_command.specs.Told.{is_valid, valid_status, text_by, status_by};
ghost use Rattle.plus_watch_lines.specs.Lines.{found_lines, limit_line};
ghost use Rattle.plus_watcher.specs.declared.watcher.Standing.TheVariants.{Going as GoesOn};

use plus_crossing::node::CondStop;
use plus_number::frac::Frac64;
use plus_report::{Status, Verdict};
use plus_validator::judge::outcome_of;
use plus_validator::memory::Report;
use plus_watch::place::Place;
use plus_watch::watched::Watched;
use plus_watch_lines::found::{all_hold, write_lines};
use plus_watch_lines::limit::write_limit;
use plus_watcher::watcher::Standing;
use plus_watching::findings::Findings;
use std::alloc::{AllocError, Global};

fn is_valid(verdict: &Verdict<Frac64>) -> bool
    ensures { result ≡ is_valid verdict.now }
{
    match verdict {
        Verdict::Valid => true,
        Verdict::Invalid(_) | Verdict::Beyond(_) | Verdict::Other(_) => false,
    }
}

// The status of a plan that is valid.
fn valid_status(watched: &[Watched<Frac64>], firsts: &[Option<Place<Frac64>>]) -> Status
    requires each { length firsts.now ≡ length watched.now }
    ensures { result ≡ valid_status (constraints_of fraction_of watched.now) (places_of fraction_of firsts.now) }
{
    if all_hold(watched, firsts) {
        Status::Valid
    } else {
        Status::Invalid
    }
}

/// The status of a plan that was watched.
pub fn status_of(watched: &[Watched<Frac64>], findings: &Findings) -> Status
    requires each { findings.now.standing ≡ GoesOn → length findings.now.firsts.items ≡ length watched.now }
    ensures { result ≡ status_by (constraints_of fraction_of watched.now) findings.now findings.now.standing }
{
    match findings.standing {
        Standing::Limit(_, _) => Status::Beyond,
        Standing::Lost => Status::NoMemory,
        Standing::Going => {
            if is_valid(&findings.judged.verdict) {
                valid_status(watched, &findings.firsts)
            } else {
                outcome_of(&findings.judged.verdict).status()
            }
        }
    }
}

// The line of a limit. A number that is too large is want of memory.
fn limit_text(alloc: Global, index: usize, stop: &CondStop<Frac64>) -> Result<Vec<u8>, AllocError>
    ensures { IfOk result (λ text. text.items ≡ limit_line (suc index) stop.now) }
{
    let Some(number) = (index as u64).checked_add(1) else {
        return Err(AllocError);
    };
    let mut text = Report::new(alloc);
    match write_limit(&mut text, number, stop) {
        Ok(()) => Ok(text.bytes),
        Err(_) => Err(AllocError),
    }
}

// A line for each constraint.
fn found_text(
    alloc: Global,
    watched: &[Watched<Frac64>],
    firsts: &[Option<Place<Frac64>>],
) -> Result<Vec<u8>, AllocError>
    requires each { length firsts.now ≡ length watched.now }
    ensures { IfOk result (λ text. text.items ≡ found_lines (constraints_of fraction_of watched.now) (places_of fraction_of firsts.now)) }
{
    let mut text = Report::new(alloc);
    match write_lines(&mut text, watched, firsts) {
        Ok(()) => Ok(text.bytes),
        Err(_) => Err(AllocError),
    }
}

// The line of the verdict, and what stands behind it.
fn going_text(
    alloc: Global,
    watched: &[Watched<Frac64>],
    findings: &Findings,
) -> Result<Vec<u8>, AllocError>
    requires each { length findings.now.firsts.items ≡ length watched.now }
    ensures { IfOk result (λ text. text.items ≡ text_by (constraints_of fraction_of watched.now) findings.now GoesOn) }
{
    let mut text = Vec::from_slice(alloc, &findings.judged.line)?;
    if is_valid(&findings.judged.verdict) {
        let lines = found_text(alloc, watched, &findings.firsts)?;
        text.extend_from_slice(&lines)?;
    }
    Ok(text)
}

/// The text of a plan that was watched.
pub fn text_of(
    alloc: Global,
    watched: &[Watched<Frac64>],
    findings: &Findings,
) -> Result<Vec<u8>, AllocError>
    requires each { findings.now.standing ≡ GoesOn → length findings.now.firsts.items ≡ length watched.now }
    ensures { IfOk result (λ text. text.items ≡ text_by (constraints_of fraction_of watched.now) findings.now findings.now.standing) }
{
    match findings.standing {
        Standing::Going => going_text(alloc, watched, findings),
        Standing::Limit(index, stop) => limit_text(alloc, index, &stop),
        Standing::Lost => Ok(Vec::new(alloc)),
    }
}
