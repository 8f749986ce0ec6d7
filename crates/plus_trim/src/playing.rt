//! Plays some of the acts, and the end.
ghost use Rattle.std.specs.Prelude.{◌≡◌, ◌<◌, ◌≤◌, ◌+◌, ◌++◌, ◌∷◌, [], List, All, map, length, IfErr, OnOk};
ghost use Rattle.plus_model.specs.Plan.{Line, EndLine, IsInOrder};
ghost use Rattle.plus_state.specs.View.{problem_of};
ghost use Rattle.plus_indexed.specs.Knows.{Knows};
ghost use Rattle.plus_trim.specs.Acts.{act_of, lines_of, whole, chosen, AreAhead, AllFit};
ghost use Rattle.plus_trim.specs.Judging.{IsInside, Halts};
ghost use Rattle.plus_trim.specs.Standing.{StandsBehind, Rests};

use crate::acting::{act_at, close};
use crate::acts::TimedAction;
use plus_indexed::Indexed;
use plus_number::exact::Exact;
use plus_state::problem::Ground;
use plus_timeline::Stop;

/// Plays the acts at these places, one after the other, and the end. So many are done before; a breach
/// names the position of an act among all that are played, from 1.
pub fn play_on<Q: Exact>(
    line: &mut Indexed<Q>,
    ground: &Ground<Q>,
    acts: &[TimedAction<Q>],
    rest: &[u32],
    done: u32,
    end: Q,
) -> Result<(), Stop<Q>>
    requires rests { Rests (problem_of Q.value ground.now) line.old.line }
    requires knows { Knows Q.fits (problem_of Q.value ground.now) line.old }
    requires fit { AllFit (problem_of Q.value ground.now).atoms (problem_of Q.value ground.now).fluents (map (act_of Q.value) acts.now) }
    requires inside { All (λ p. p < length acts.now) rest.now }
    requires done { line.old.line.now.acted ≡ done }
    requires few { done + length rest.now ≤ 200 }
    requires ahead { AreAhead line.old.line.now.time (chosen (map (act_of Q.value) acts.now) rest.now) (Q.value end) }
    ensures valid { OnOk result ((lines : List Line) → StandsBehind Q.fits (problem_of Q.value ground.now) lines line.old.line
        → IsInOrder ((lines ++ lines_of (chosen (map (act_of Q.value) acts.now) rest.now)) ++ EndLine (Q.value end) ∷ [])
        → IsInside Q.fits (problem_of Q.value ground.now) line.old.line.most (whole (lines ++ lines_of (chosen (map (act_of Q.value) acts.now) rest.now)) (Q.value end))) }
    ensures halts { IfErr result (λ stop. (lines : List Line) → StandsBehind Q.fits (problem_of Q.value ground.now) lines line.old.line
        → IsInOrder ((lines ++ lines_of (chosen (map (act_of Q.value) acts.now) rest.now)) ++ EndLine (Q.value end) ∷ [])
        → Halts Q.value Q.fits (problem_of Q.value ground.now) line.old.line.most (whole (lines ++ lines_of (chosen (map (act_of Q.value) acts.now) rest.now)) (Q.value end)) stop) }
{
    let mut number = done;
    'each: for place in rest {
        number += 1;
        let act = &acts[*place as usize];
        match act_at(line, ground, act.time, &act.action, number) {
            Ok(()) => {}
            Err(stop) => return Err(stop),
        }
    }
    close(line, ground, end)
}
