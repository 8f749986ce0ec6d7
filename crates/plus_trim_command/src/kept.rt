//! What is kept of the acts of a plan, and its text.

ghost use Rattle.std.specs.Prelude.{◌≡◌, ◌<◌, ◌≤◌, ◌++◌, length, map, pos, All, IfOk, OnOk};
ghost use Rattle.plus_fraction.specs.Fraction.{whole};
ghost use Rattle.plus_number.specs.Frac.{fraction_of, IsFrac64};
ghost use Rattle.plus_report.specs.Plans.{acts_of, plan_text};
ghost use Rattle.plus_state.specs.View.{problem_of};
ghost use Rattle.plus_trim.specs.Acts.{act_of, plan_of, chosen, AreAhead, AllFit};
ghost use Rattle.plus_trim.specs.Judging.{IsInside};
ghost use Rattle.plus_trim.specs.Trimmed.{IsKept};
ghost use Rattle.plus_trim_command.specs.Trim.{labelled, note_text, trimmed_text};
ghost use Rattle.plus_words.specs.Numbers.{default_happenings};

use itoa::Buffer;
use plus_io::MemSink;
use plus_number::frac::Frac64;
use plus_report::write_plan;
use plus_state::problem::Ground;
use plus_state::{Label, TimedPlan};
use plus_trim::{TimedAction, Trimmed, trim};
use plus_words::happenings::Happenings;
use std::alloc::{AllocError, Global};

/// The places of the acts that are kept, and in how many cases a limit stands without one of them.
#[derive(Drop)]
pub struct Kept {
    pub places: Vec<u32>,
    pub beyond: u64,
}

/// Leaves acts of a valid plan out until no single one can go.
pub fn kept_of(
    alloc: Global,
    ground: &Ground<Frac64>,
    acts: &[TimedAction<Frac64>],
    end: Frac64,
) -> Result<Kept, AllocError>
    requires fit { AllFit (problem_of fraction_of ground.now).atoms (problem_of fraction_of ground.now).fluents (map (act_of fraction_of) acts.now) }
    requires few { length acts.now ≤ 200 }
    requires ahead { AreAhead (whole (pos 0)) (map (act_of fraction_of) acts.now) (fraction_of end) }
    requires valid { IsInside IsFrac64 (problem_of fraction_of ground.now) default_happenings (plan_of (map (act_of fraction_of) acts.now) (fraction_of end)) }
    ensures { IfOk result (λ k. IsKept IsFrac64 (problem_of fraction_of ground.now) default_happenings
        (map (act_of fraction_of) acts.now) (fraction_of end) k.places.items k.beyond) }
{
    match trim(alloc, ground, acts, end, Happenings::DEFAULT.number) {
        Trimmed::Kept { places, beyond } => Ok(Kept { places, beyond }),
        Trimmed::Invalid(_) => unreachable!(),
        Trimmed::Beyond(_) => unreachable!(),
        Trimmed::Memory => Err(AllocError),
    }
}

// The plan of the acts at these places.
fn plan_at(
    alloc: Global,
    acts: &[TimedAction<Frac64>],
    places: &[u32],
    end: Frac64,
) -> Result<TimedPlan<Frac64>, AllocError>
    requires inside { All (λ p. p < length acts.now) places.now }
    ensures acts { IfOk result (λ plan. acts_of fraction_of plan.acts.items ≡ labelled (chosen (map (act_of fraction_of) acts.now) places.now)) }
    ensures end { IfOk result (λ plan. plan.«end» ≡ end) }
{
    let mut kept = Vec::new(alloc);
    'each: for place in places {
        let act = &acts[*place as usize];
        let label = Label::new(alloc, act.action.label.bytes())?;
        kept.push((act.time, label))?;
    }
    Ok(TimedPlan { acts: kept, end })
}

// The lines of a plan.
fn lines_of(alloc: Global, plan: &TimedPlan<Frac64>) -> Result<Vec<u8>, AllocError>
    ensures { IfOk result (λ text. text.items ≡ plan_text (acts_of fraction_of plan.now.acts.items) (fraction_of plan.now.«end»)) }
{
    let mut text = MemSink::new(alloc, usize::MAX);
    if let Err(_) = write_plan(&mut text, plan) {
        return Err(AllocError);
    }
    Ok(Vec::from_slice(alloc, text.bytes())?)
}

// Appends how many acts are dropped, and in how many cases a limit stands.
fn put_note(text: &mut Vec<u8>, dropped: u64, beyond: u64) -> Result<(), AllocError>
    ensures { OnOk result (text.new.items ≡ text.old.items ++ note_text dropped beyond) }
{
    let mut buffer = Buffer::new();
    text.extend_from_slice(b"; dropped ")?;
    text.extend_from_slice(buffer.format(dropped).as_bytes())?;
    text.extend_from_slice(b", beyond ")?;
    text.extend_from_slice(buffer.format(beyond).as_bytes())?;
    text.push(b'\n')?;
    Ok(())
}

/// What is written of the acts that are kept.
pub fn text_of(
    alloc: Global,
    acts: &[TimedAction<Frac64>],
    kept: &Kept,
    end: Frac64,
) -> Result<Vec<u8>, AllocError>
    requires inside { All (λ p. p < length acts.now) kept.now.places.items }
    requires fewer { length kept.now.places.items ≤ length acts.now }
    ensures { IfOk result (λ text. text.items
        ≡ trimmed_text (map (act_of fraction_of) acts.now) (fraction_of end) kept.now.places.items kept.now.beyond) }
{
    let plan = plan_at(alloc, acts, &kept.places, end)?;
    let mut text = lines_of(alloc, &plan)?;
    let dropped = (acts.len() - kept.places.len()) as u64;
    put_note(&mut text, dropped, kept.beyond)?;
    Ok(text)
}
