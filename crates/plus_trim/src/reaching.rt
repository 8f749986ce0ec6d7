//! Carries a timeline on to a time, and keeps why it does not come there.
ghost use Rattle.std.specs.Prelude.{◌≡◌, IfOk, IfErr, OnOk};
ghost use Rattle.plus_state.specs.View.{problem_of};
ghost use Rattle.plus_planner.specs.Standing.{CanReach};
ghost use Rattle.plus_indexed.specs.Knows.{Knows};
ghost use Rattle.plus_trim.specs.Standing.{Comes, there_by, StepTold, WayHalts};

use plus_indexed::Indexed;
use plus_number::exact::Exact;
use plus_state::problem::Ground;
use plus_timeline::{Next, Stop};

fn is_there<Q: Exact>(next: Next<Q>) -> bool
    ensures { result ≡ there_by next }
{
    match next {
        Next::Round => false,
        Next::Run => false,
        Next::Entry { .. } => false,
        Next::There => true,
    }
}

// Takes one step toward a time, and says whether it is there.
fn step<Q: Exact>(line: &mut Indexed<Q>, ground: &Ground<Q>, until: Q) -> Result<bool, Stop<Q>>
    requires reach { CanReach (problem_of Q.value ground.now) (Q.value until) line.old.line }
    requires knows { Knows Q.fits (problem_of Q.value ground.now) line.old }
    ensures told { IfOk result (StepTold Q.fits (problem_of Q.value ground.now) (Q.value until) line.old.line line.new.line) }
    ensures knows { OnOk result (Knows Q.fits (problem_of Q.value ground.now) line.new) }
    ensures halts { IfErr result (WayHalts Q.value Q.fits (problem_of Q.value ground.now) (Q.value until) line.old.line) }
{
    match line.advance(ground, until) {
        Ok(next) => Ok(is_there(next)),
        Err(stop) => Err(stop),
    }
}

/// Carries a timeline on to a time, until nothing is due there.
pub fn reach<Q: Exact>(line: &mut Indexed<Q>, ground: &Ground<Q>, until: Q) -> Result<(), Stop<Q>>
    requires reach { CanReach (problem_of Q.value ground.now) (Q.value until) line.old.line }
    requires knows { Knows Q.fits (problem_of Q.value ground.now) line.old }
    ensures comes { OnOk result (Comes Q.fits (problem_of Q.value ground.now) (Q.value until) line.old.line line.new.line) }
    ensures knows { OnOk result (Knows Q.fits (problem_of Q.value ground.now) line.new) }
    ensures halts { IfErr result (WayHalts Q.value Q.fits (problem_of Q.value ground.now) (Q.value until) line.old.line) }
{
    'steps: loop {
        match step(line, ground, until) {
            Ok(true) => return Ok(()),
            Ok(false) => {}
            Err(stop) => return Err(stop),
        }
    }
}
