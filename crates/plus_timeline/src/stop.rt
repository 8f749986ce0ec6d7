//! Why a call of a timeline is refused.
ghost use Rattle.std.specs.Prelude.{◌≡◌};
ghost use Rattle.plus_timeline.specs.Stopping.{of_cascade, of_settle_stop, of_halt};

use plus_cascade::rounds::CascadeStop;
use plus_number::exact::Exact;
use plus_settle::stops::SettleStop;
use plus_state::outcome::{Breach, Limit, Owner};
use plus_stretch::halt::Halt;
use std::fmt;
use thiserror::Error;

/// Why a call is refused. After each of these the timeline has ended.
#[derive(Drop, Error)]
#[error_bound(Q: Drop)]
pub enum Stop<Q> {
    /// The plan breaks this rule.
    #[error("the plan breaks a rule")]
    Breach(Breach<Q>),
    /// The plan goes beyond this limit of the program.
    #[error("the plan goes beyond a limit")]
    Limit(Limit<Q>),
    /// An earlier call was refused, or the goal was tested.
    #[error("the timeline has ended")]
    Ended,
    /// Memory is wanting.
    #[error("out of memory")]
    Memory,
}

impl<Q: Drop> fmt::Debug for Stop<Q> {
    fn fmt<W: fmt::Write>(&self, f: &mut fmt::Formatter<W>) -> fmt::Result {
        fmt::Display::fmt(self, f)
    }
}

/// The stop of a round.
pub fn cascade_stop<Q: Exact>(stop: CascadeStop<Q>) -> Stop<Q>
    ensures { result ≡ of_cascade stop }
{
    match stop {
        CascadeStop::Repeats(event) => Stop::Breach(Breach::Repeats { event }),
        CascadeStop::Conflict(fluent) => Stop::Breach(Breach::Conflict { fluent }),
        CascadeStop::NoValue(fluent) => Stop::Breach(Breach::NoValue { fluent }),
        CascadeStop::Number(overflow) => Stop::Limit(Limit::Number(overflow)),
        CascadeStop::Memory => Stop::Memory,
    }
}

/// The stop of settling.
pub fn settle_stop<Q: Exact>(stop: SettleStop<Q>) -> Stop<Q>
    ensures { result ≡ of_settle_stop stop }
{
    match stop {
        SettleStop::Unsettled(process) => Stop::Breach(Breach::Unsettled { process }),
        SettleStop::Coupled(process, fluent) => Stop::Breach(Breach::Coupled { process, fluent }),
        SettleStop::NoValue(fluent) => Stop::Breach(Breach::NoValue { fluent }),
        SettleStop::Number(overflow) => Stop::Limit(Limit::Number(overflow)),
        SettleStop::Nonlinear {
            process,
            comparison,
        } => Stop::Limit(Limit::Nonlinear {
            owner: Owner::Process(process),
            comparison,
        }),
        SettleStop::Memory => Stop::Memory,
    }
}

/// The stop of a stretch.
pub fn halt_stop<Q: Exact>(stop: Halt<Q>) -> Stop<Q>
    ensures { result ≡ of_halt stop }
{
    match stop {
        Halt::NoFirstMoment { event, time } => Stop::Breach(Breach::NoFirstMoment { event, time }),
        Halt::Limit(limit) => Stop::Limit(limit),
        Halt::Memory => Stop::Memory,
    }
}
