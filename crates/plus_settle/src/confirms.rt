//! Whether exactly the members of a set hold just after a state.
ghost use Rattle.std.specs.Prelude.{◌≡◌, length};
ghost use Rattle.plus_model.specs.Firing.{is_in};
ghost use Rattle.plus_model.specs.Running.{IsRising};
ghost use Rattle.plus_state.specs.View.{process_of, problem_of};
ghost use Rattle.plus_state.specs.Fits.{ProcessFits, StateFits};
ghost use Rattle.plus_state.specs.Looked.{processes_looked};
ghost use Rattle.plus_settle.specs.Members.{process_numbers, AreMembers};
ghost use Rattle.plus_settle.specs.Among.{OthersConfirmed};
ghost use Rattle.plus_settle.specs.Confirms.{SoonTells, Confirms, GoAnswers, differ as differ_of};

use crate::settling::Running;
use crate::stops::GoStop;
use plus_crossing::afters::just_after;
use plus_crossing::node::CondStop;
use plus_crossing::rates::Rates;
use plus_number::exact::Exact;
use plus_state::looked::Looked;
use plus_state::problem::{Ground, Process};
use plus_state::states::State;
use plus_state::term::ProcessId;

// Whether the process holds just after the state, or the first test that fails.
pub fn runs_after<Q: Exact>(
    process: &Process<Q>,
    id: ProcessId,
    state: &State<Q>,
    rates: &Rates<Q>,
) -> Result<bool, GoStop<Q>>
    requires fits { ProcessFits (length (state.now.atoms)) (length (state.now.fluents)) (process_of Q.value process.now) }
    requires rates { length rates.now ≡ length (state.now.fluents) }
    ensures { SoonTells Q.value Q.fits id.0 (process_of Q.value process.now) state.now rates.now result }
{
    match just_after(&process.condition, state, rates) {
        Ok(truth) => Ok(truth),
        Err(CondStop::Number(overflow)) => Err(GoStop::Number(overflow)),
        Err(CondStop::Nonlinear { comparison }) => Err(GoStop::Nonlinear {
            process: id,
            comparison,
        }),
    }
}

// Whether a process is one of these members, which rise.
fn is_member(members: &[ProcessId], id: ProcessId) -> bool
    requires { IsRising 0 (process_numbers members.now) }
    ensures { result ≡ is_in (process_numbers members.now) id.0 }
{
    match members.binary_search_by_key(&id.0, |member| member.0) {
        Ok(_) => true,
        Err(_) => false,
    }
}

// One holds and the other does not.
pub fn differ(x: bool, y: bool) -> bool
    ensures { result ≡ differ_of x y }
{
    if x { !y } else { y }
}

/// The first process that differs from its membership, by a look at some processes: each other one is known
/// to hold just after exactly where it is a member, and what it asks to pass. So the refusal is the first
/// test that fails: all processes in ground order up to the first that differs.
pub fn first_other<Q: Exact>(
    ground: &Ground<Q>,
    members: &[ProcessId],
    state: &State<Q>,
    rates: &Rates<Q>,
    looked: Looked<'_, ProcessId>,
) -> Result<Option<ProcessId>, GoStop<Q>>
    requires state { StateFits (length (ground.now.atoms.items)) (length (ground.now.fluents.items)) state.now }
    requires members { AreMembers (length (ground.now.processes.items)) (process_numbers members.now) }
    requires rates { length rates.now ≡ length (state.now.fluents) }
    requires looked { AreMembers (length (ground.now.processes.items)) (processes_looked looked) }
    requires others { OthersConfirmed Q.fits (problem_of Q.value ground.now) (process_numbers members.now) state.now rates.now (processes_looked looked) }
    ensures { Confirms Q.value Q.fits (problem_of Q.value ground.now) (process_numbers members.now) state.now rates.now result }
{
    'each: for place in 0..looked.count() {
        let id = looked.member(place);
        match runs_after(&ground.processes[id.0 as usize], id, state, rates) {
            Err(stop) => return Err(stop),
            Ok(truth) => {
                if differ(truth, is_member(members, id)) {
                    return Ok(Some(id));
                }
            }
        }
    }
    Ok(None)
}

/// Whether a running set goes on in a state: exactly its members hold just after the state, at its rates.
/// The refusal is the first test that fails: processes in ground order up to the first that differs.
pub fn goes_on<Q: Exact>(
    ground: &Ground<Q>,
    running: &Running<Q>,
    state: &State<Q>,
) -> Result<bool, GoStop<Q>>
    requires state { StateFits (length (ground.now.atoms.items)) (length (ground.now.fluents.items)) state.now }
    requires members { AreMembers (length (ground.now.processes.items)) (process_numbers running.now.members.items) }
    requires rates { length (running.now.rates) ≡ length (ground.now.fluents.items) }
    ensures { GoAnswers Q.value Q.fits (problem_of Q.value ground.now) (process_numbers running.now.members.items) state.now running.now.rates result }
{
    match first_other(
        ground,
        &running.members,
        state,
        &running.rates,
        Looked::all(ground),
    ) {
        Err(stop) => Err(stop),
        Ok(None) => Ok(true),
        Ok(Some(_)) => Ok(false),
    }
}
