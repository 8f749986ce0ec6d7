//! Settling, where it is known which processes hold and who reads what.
ghost use Rattle.std.specs.Prelude.{◌≡◌, length, OnOk};
ghost use Rattle.plus_model.specs.Running.{holding as holding_of};
ghost use Rattle.plus_state.specs.View.{problem_of};
ghost use Rattle.plus_state.specs.Fits.{StateFits};
ghost use Rattle.plus_state.specs.Asked.{AllFit};
ghost use Rattle.plus_state.specs.Walk.{process_conditions};
ghost use Rattle.plus_reads.specs.Tables.{AreBelow, Covers};
ghost use Rattle.plus_settle.specs.Members.{process_numbers, AreMembers};
ghost use Rattle.plus_settle.specs.Rates.{as_given};
ghost use Rattle.plus_settle.specs.Settles.{condition_nodes, SettleAnswers};

use crate::moving::MovingReaders;
use plus_number::exact::Exact;
use plus_settle::{Running, SettleStop, own_rates, settle_rated};
use plus_state::looked::Looked;
use plus_state::problem::Ground;
use plus_state::states::State;
use std::alloc::Global;

/// Makes these the running set of a state and its net rates, as `plus_settle::settle`, where the members are the
/// processes that hold in it and what their conditions ask is known to pass. Only the processes are looked at
/// that read a fluent that moves. The rates take the place of others. After a refusal the set says nothing.
pub fn settle_by<Q: Exact>(
    alloc: Global,
    ground: &Ground<Q>,
    state: &State<Q>,
    readers: &mut MovingReaders,
    running: &mut Running<Q>,
) -> Result<(), SettleStop<Q>>
    requires state { StateFits (length (ground.now.atoms.items)) (length (ground.now.fluents.items)) state.now }
    requires pass { AllFit Q.fits (condition_nodes ((problem_of Q.value ground.now).processes) state.now) }
    requires present { process_numbers running.old.members.items ≡ holding_of (problem_of Q.value ground.now) state.now }
    requires readers { Covers (process_conditions (problem_of Q.value ground.now)) readers.old.index.processes }
    requires below { AreBelow (length (process_conditions (problem_of Q.value ground.now))) readers.old.index.processes }
    ensures told { SettleAnswers Q.value Q.fits (problem_of Q.value ground.now) state.now (as_given running.new result) }
    ensures members { OnOk result (AreMembers (length (ground.now.processes.items)) (process_numbers running.new.members.items)) }
    ensures size { OnOk result (length running.new.rates ≡ length (ground.now.fluents.items)) }
    ensures index { readers.new.index ≡ readers.old.index }
{
    own_rates(alloc, ground, &running.members, state, &mut running.rates)?;
    match readers.refresh(&running.rates) {
        Err(_) => Err(SettleStop::Memory),
        Ok(()) => {
            let looked = Looked::These(readers.processes());
            settle_rated(alloc, ground, state, looked, running)
        }
    }
}
