//! One action at its time, and the end.
ghost use Rattle.std.specs.Prelude.{◌≡◌, suc, ◌++◌, ◌∷◌, [], List, IfErr, OnOk};
ghost use Rattle.plus_model.specs.Plan.{Instance, Line, ActLine, EndLine, Plan, IsInOrder};
ghost use Rattle.plus_state.specs.View.{problem_of, action_of};
ghost use Rattle.plus_state.specs.Fits.{ActionFits};
ghost use Rattle.plus_planner.specs.Standing.{CanReach};
ghost use Rattle.plus_indexed.specs.Knows.{Knows};
ghost use Rattle.plus_trim.specs.Acts.{whole};
ghost use Rattle.plus_trim.specs.Judging.{IsInside, Halts};
ghost use Rattle.plus_trim.specs.Standing.{StandsBehind, Continues, ActsAt};

use crate::reaching::reach;
use plus_indexed::Indexed;
use plus_number::exact::Exact;
use plus_state::problem::{Action, Ground};
use plus_timeline::Stop;

/// Carries a timeline to a time, and does an action there. What follows from it is left to be done. The
/// number is that of the act, from 1; a breach names it.
pub fn act_at<Q: Exact>(
    line: &mut Indexed<Q>,
    ground: &Ground<Q>,
    time: Q,
    action: &Action<Q>,
    number: u32,
) -> Result<(), Stop<Q>>
    requires reach { CanReach (problem_of Q.value ground.now) (Q.value time) line.old.line }
    requires knows { Knows Q.fits (problem_of Q.value ground.now) line.old }
    requires fits { ActionFits (problem_of Q.value ground.now).atoms (problem_of Q.value ground.now).fluents (action_of Q.value action.now) }
    requires number { number ≡ suc line.old.line.now.acted }
    ensures acts { OnOk result (ActsAt (problem_of Q.value ground.now) (Q.value time) line.old.line line.new.line) }
    ensures behind { OnOk result ((lines : List Line) → StandsBehind Q.fits (problem_of Q.value ground.now) lines line.old.line
        → StandsBehind Q.fits (problem_of Q.value ground.now) (lines ++ ActLine (Q.value time) (Instance (action_of Q.value action.now)) ∷ []) line.new.line) }
    ensures knows { OnOk result (Knows Q.fits (problem_of Q.value ground.now) line.new) }
    ensures halts { IfErr result (λ stop. (lines : List Line) (L : Plan) → StandsBehind Q.fits (problem_of Q.value ground.now) lines line.old.line
        → Continues (lines ++ ActLine (Q.value time) (Instance (action_of Q.value action.now)) ∷ []) L
        → Halts Q.value Q.fits (problem_of Q.value ground.now) line.old.line.most L stop) }
{
    match reach(line, ground, time) {
        Ok(()) => line.act(ground, action, number),
        Err(stop) => Err(stop),
    }
}

/// Carries a timeline to the end, and asks for the goal there.
pub fn close<Q: Exact>(line: &mut Indexed<Q>, ground: &Ground<Q>, end: Q) -> Result<(), Stop<Q>>
    requires reach { CanReach (problem_of Q.value ground.now) (Q.value end) line.old.line }
    requires knows { Knows Q.fits (problem_of Q.value ground.now) line.old }
    ensures inside { OnOk result ((lines : List Line) → StandsBehind Q.fits (problem_of Q.value ground.now) lines line.old.line
        → IsInOrder (lines ++ EndLine (Q.value end) ∷ [])
        → IsInside Q.fits (problem_of Q.value ground.now) line.old.line.most (whole lines (Q.value end))) }
    ensures halts { IfErr result (λ stop. (lines : List Line) → StandsBehind Q.fits (problem_of Q.value ground.now) lines line.old.line
        → IsInOrder (lines ++ EndLine (Q.value end) ∷ [])
        → Halts Q.value Q.fits (problem_of Q.value ground.now) line.old.line.most (whole lines (Q.value end)) stop) }
{
    match reach(line, ground, end) {
        Ok(()) => line.finish(ground),
        Err(stop) => Err(stop),
    }
}
