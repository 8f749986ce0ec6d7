//! The picture of a plan, with the judgement on it.

ghost use Rattle.std.specs.Prelude.{◌≡◌, IfOk};
ghost use Rattle.plus_validator.specs.Verdicts.{JudgesText};

use plus_drawing::{Picture, draw};
use plus_io::Freeing;
use plus_number::consts::zero;
use plus_number::frac::Frac64;
use plus_picture::{Asked, Scene, Seen, see};
use plus_types::Typed;
use plus_validator::judge::{Judged, Outcome};
use std::alloc::{AllocError, Global};

/// A picture, which is empty where there is none, and the judgement on its plan.
#[derive(Drop)]
pub struct Shown {
    pub picture: Vec<u8>,
    pub judged: Judged,
}

// What is played: `DOMAIN: PROBLEM`.
fn name(alloc: Global, typed: &Typed) -> Result<Vec<u8>, AllocError> {
    let mut name = Vec::from_slice(alloc, typed.domain.name.name.bytes())?;
    name.extend_from_slice(b": ")?;
    name.extend_from_slice(typed.problem.name.name.bytes())?;
    Ok(name)
}

// The line without its end.
fn trimmed(line: &[u8]) -> &[u8] {
    match line {
        [front @ .., b'\n'] => front,
        _ => line,
    }
}

// The picture of what was seen.
fn draw_scene(
    alloc: Global,
    typed: &Typed,
    scene: &mut Scene,
    asked: &Asked<'_>,
    judged: &Judged,
) -> Result<Vec<u8>, AllocError> {
    let name = name(alloc, typed)?;
    let picture = Picture {
        name: &name,
        verdict: trimmed(&judged.line),
        is_refused: !matches!(judged.outcome(), Outcome::Valid),
        left_out: scene.chosen.left_out,
        from: asked.from.unwrap_or(zero::<Frac64>()),
        to: asked.to.unwrap_or(scene.end),
        end: scene.end,
    };
    draw(alloc, &picture, &mut scene.chosen.rows)
}

// The picture of a plan that was seen. There is none where the pair is over a limit, or where a line of the plan is none.
fn drawn(
    alloc: Global,
    typed: &Typed,
    scene: &mut Option<Scene>,
    asked: &Asked<'_>,
    judged: &Judged,
) -> Result<Vec<u8>, AllocError> {
    if matches!(judged.outcome(), Outcome::BadText) {
        return Ok(Vec::new(alloc));
    }
    match scene {
        Some(scene) => draw_scene(alloc, typed, scene, asked, judged),
        None => Ok(Vec::new(alloc)),
    }
}

// The picture and the judgement, where there was memory for the picture.
fn with_judgement(picture: Result<Vec<u8>, AllocError>, judged: Judged) -> Result<Shown, AllocError>
    ensures { IfOk result (λ shown. shown.judged ≡ judged) }
{
    match picture {
        Ok(picture) => Ok(Shown { picture, judged }),
        Err(AllocError) => {
            drop(judged);
            Err(AllocError)
        }
    }
}

/// The picture of a plan of a pair, and the judgement on it. The only error is want of memory.
pub fn picture_of(
    alloc: Global,
    typed: &Typed,
    plan: &[u8],
    asked: &Asked<'_>,
) -> Result<Shown, AllocError>
    ensures { IfOk result (λ shown.
        JudgesText typed.now.domain typed.now.problem asked.now.happenings.number plan.now shown.judged) }
{
    let Seen { judged, mut scene } = see(alloc, typed, plan, asked, Freeing::AtExit)?;
    let picture = drawn(alloc, typed, &mut scene, asked, &judged);
    Freeing::AtExit.let_go(scene);
    with_judgement(picture, judged)
}
