//! One half of a translation, as its canonical text.

ghost use Rattle.std.specs.Prelude.{◌≡◌, map, IfOk, MatchResult, pos};
ghost use Rattle.std.specs.List.{flat_map};
ghost use Rattle.plus_fraction.specs.Fraction.{whole, ◌<ℚ◌};
ghost use Rattle.plus_number.specs.Frac.{fraction_of};
ghost use Rattle.plus_tree.specs.Cond.{conds_of};
ghost use Rattle.plus_tree.specs.Effect.{effects_of};
ghost use Rattle.plus_printer.specs.Appended.{Prints};
ghost use Rattle.plus_printer.specs.Canon.{conds_text, effects_text, happening_text, problem_text};
ghost use Rattle.plus_translation.specs.Translated.{none_hold, clears, due_by, problem_translated, translated_domain, translated_problem};
ghost use Rattle.plus_translate.specs.Dues.{due_of};
ghost use Rattle.plus_translate.specs.Translates.{NoTranslation};
ghost use Rattle.plus_translate_command.specs.Printer.Woven.{opening_text, own_parts, woven};
ghost use Rattle.plus_translate_command.specs.Printer.Frame.{frame_of, BeginsWithStep};
ghost use Rattle.plus_translate_command.specs.Printer.Printed.{half_text, IsTextOfHalf, IsPrinted};

use crate::printer::frame::frame;
use crate::printer::own::old_texts;
use crate::printer::shared::Shared;
use crate::printer::text::HalfText;
use crate::printer::within::spliced_within;
use plus_number::frac::Frac64;
use plus_printer::print_problem;
use plus_printer::sections::{declared, happening};
use plus_printer::words::{domain_opening, put, put_word};
use plus_renaming::renaming::events;
use plus_translate::TransFault;
use plus_translate::domain::problem_translated;
use plus_translate::due::{Due, dues};
use plus_translate::found::first_taken;
use plus_tree::{Domain, Problem, Schema};
use plus_types::{File, Typed};
use std::alloc::{AllocError, Global};

// How the text of a domain opens, up to its actions.
#[tactic(auto, using(plus_printer::proofs::AppendedLemmas::appending), unfolding(crate::specs::Printer::Woven::opening_text))]
fn put_opening(text: &mut Vec<u8>, frame: &Domain) -> Result<(), AllocError>
    ensures { Prints text.old.items text.new.items (opening_text frame.now) result }
{
    domain_opening(text)?;
    put(text, frame.name.name.bytes())?;
    put_word(text, b")\n")?;
    declared(text, frame)?;
    Ok(())
}

fn opening(alloc: Global, frame: &Domain) -> Result<Vec<u8>, AllocError>
    ensures { IfOk result (λ text. text.items ≡ opening_text frame.now) }
{
    let mut text = Vec::new(alloc);
    put_opening(&mut text, frame)?;
    Ok(text)
}

fn ending(alloc: Global, frame: &Domain) -> Result<Vec<u8>, AllocError>
    ensures { IfOk result (λ text. text.items ≡ happening_text frame.now) }
{
    let mut text = Vec::new(alloc);
    happening(&mut text, frame)?;
    Ok(text)
}

// The text of a translated domain, by its renamed events, its old actions and its frame.
fn domain_half(
    alloc: Global,
    events: &[Schema],
    actions: &[Schema],
    frame: &Domain,
) -> Result<HalfText, AllocError>
    requires { BeginsWithStep frame.now events.now }
    ensures { IfOk result (λ text. text
        ≡ woven (opening_text frame.now) (conds_text (conds_of (none_hold events.now))) (effects_text (effects_of (clears 1 events.now))) (map own_parts actions.now) (happening_text frame.now)) }
{
    let opening = opening(alloc, frame)?;
    let shared = Shared::of_frame(alloc, events, frame)?;
    let olds = old_texts(alloc, actions)?;
    let ending = ending(alloc, frame)?;
    Ok(HalfText::new(opening, shared, olds, ending))
}

// The text of a translated problem.
fn problem_text(
    alloc: Global,
    events: &[Schema],
    dues: &[Due<'_>],
    problem: &Problem,
) -> Result<Vec<u8>, AllocError>
    ensures { IfOk result (λ text. text.items
        ≡ problem_text (problem_translated events.now (map due_of dues.now) problem.now)) }
{
    let translated = problem_translated(alloc, events, dues, problem)?;
    let mut text = Vec::new(alloc);
    print_problem(&translated, &mut text)?;
    Ok(text)
}

// The text of one half, and none where a text is too deep.
fn printed(
    alloc: Global,
    file: File,
    interval: Frac64,
    dues: &[Due<'_>],
    domain: &Domain,
    problem: &Problem,
) -> Result<Option<HalfText>, AllocError>
    requires { map due_of dues.now ≡ flat_map (due_by (fraction_of interval)) problem.now.init }
    ensures { IfOk result (IsPrinted file (translated_domain (fraction_of interval) domain.now problem.now)
        (translated_problem (fraction_of interval) domain.now problem.now)) }
{
    let events = events(alloc, domain.events.as_slice())?;
    let frame = frame(alloc, interval, &events, dues, domain, problem)?;
    if !spliced_within(&frame, domain, problem) {
        return Ok(None);
    }
    match file {
        File::Domain => {
            let text = domain_half(alloc, &events, domain.actions.as_slice(), &frame)?;
            Ok(Some(text))
        }
        File::Problem => {
            let text = problem_text(alloc, &events, dues, problem)?;
            Ok(Some(HalfText::whole(alloc, text)))
        }
    }
}

/// The canonical text of one half of the translation of a well-typed pair in steps of this length.
pub fn translated_half(
    alloc: Global,
    file: File,
    typed: &Typed,
    interval: Frac64,
) -> Result<HalfText, TransFault>
    requires { whole (pos 0) <ℚ fraction_of interval }
    ensures { MatchResult result
        (λ text. IsTextOfHalf file (fraction_of interval) typed.now.domain typed.now.problem text)
        (NoTranslation (fraction_of interval) typed.now.domain typed.now.problem) }
{
    let domain = typed.domain();
    let problem = typed.problem();
    if let Some((place, span)) = first_taken(domain, problem) {
        return Err(TransFault::NameTaken { file: place, span });
    }
    let dues = match dues(alloc, interval, problem.init.as_slice()) {
        Ok(dues) => dues,
        Err(fault) => return Err(fault),
    };
    match printed(alloc, file, interval, &dues, domain, problem) {
        Ok(Some(text)) => Ok(text),
        Ok(None) => Err(TransFault::TooDeep),
        Err(_) => Err(TransFault::Memory),
    }
}
