//! Why a call is refused.
use plus_cascade::rounds::CascadeStop;
use plus_crossing::moves::MoveStop;
use plus_settle::stops::RateStop;
use plus_state::outcome::JointStop;
use plus_state::term::{EventId, FluentId, Overflow};
use std::alloc::AllocError;
use std::fmt::Debug;
use thiserror::Error;

/// Why a call of a plan in steps, or of one without time, is refused.
#[derive(Debug, Drop, Error)]
#[error_bound(Q: Debug)]
pub enum StepStop<Q> {
    /// The action's condition does not hold.
    #[error("the precondition does not hold")]
    Precondition,
    /// The event would fire a second time in one cascade.
    #[error("event {} would fire twice", .0.0)]
    Repeats(EventId),
    /// Two writes of one joint effect on the fluent do not go together.
    #[error("writes on fluent {} conflict", .0.0)]
    Conflict(FluentId),
    /// A write or a rate on the fluent lacks a value.
    #[error("a write or a rate on fluent {} lacks a value", .0.0)]
    NoValue(FluentId),
    #[error(transparent)]
    Number(Overflow<Q>),
    /// The goal does not hold.
    #[error("the goal does not hold")]
    GoalFails,
    #[error("out of memory")]
    Memory,
}

impl<Q> From<AllocError> for StepStop<Q> {
    ghost use Rattle.std.specs.Prelude.{◌≡◌};
    ghost use Rattle.plus_stepped.specs.declared.stop.StepStop.TheVariants.{Memory};

    ghost from_gives = { λ _ step. step ≡ Memory };

    fn from(_error: AllocError) -> StepStop<Q> {
        StepStop::Memory
    }
}

impl<Q> From<Overflow<Q>> for StepStop<Q> {
    ghost use Rattle.std.specs.Prelude.{◌≡◌};
    ghost use Rattle.plus_stepped.specs.declared.stop.StepStop.TheVariants.{Number};

    ghost from_gives = { λ overflow step. step ≡ Number overflow };

    fn from(overflow: Overflow<Q>) -> StepStop<Q> {
        StepStop::Number(overflow)
    }
}

impl<Q> From<JointStop<Q>> for StepStop<Q> {
    ghost use Rattle.std.specs.Prelude.{◌≡◌};
    ghost use Rattle.plus_stepped.specs.Stops.{of_joint};

    ghost from_gives = { λ stop step. step ≡ of_joint stop };

    fn from(stop: JointStop<Q>) -> StepStop<Q> {
        match stop {
            JointStop::Conflict(fluent) => StepStop::Conflict(fluent),
            JointStop::NoValue(fluent) => StepStop::NoValue(fluent),
            JointStop::Number(overflow) => StepStop::Number(overflow),
            JointStop::Memory => StepStop::Memory,
        }
    }
}

impl<Q> From<CascadeStop<Q>> for StepStop<Q> {
    ghost use Rattle.std.specs.Prelude.{◌≡◌};
    ghost use Rattle.plus_stepped.specs.Stops.{of_cascade};

    ghost from_gives = { λ stop step. step ≡ of_cascade stop };

    fn from(stop: CascadeStop<Q>) -> StepStop<Q> {
        match stop {
            CascadeStop::Repeats(event) => StepStop::Repeats(event),
            CascadeStop::Conflict(fluent) => StepStop::Conflict(fluent),
            CascadeStop::NoValue(fluent) => StepStop::NoValue(fluent),
            CascadeStop::Number(overflow) => StepStop::Number(overflow),
            CascadeStop::Memory => StepStop::Memory,
        }
    }
}

impl<Q> From<RateStop<Q>> for StepStop<Q> {
    ghost use Rattle.std.specs.Prelude.{◌≡◌};
    ghost use Rattle.plus_stepped.specs.Stops.{of_rate_stop};

    ghost from_gives = { λ stop step. step ≡ of_rate_stop stop };

    fn from(stop: RateStop<Q>) -> StepStop<Q> {
        match stop {
            RateStop::NoValue(fluent) => StepStop::NoValue(fluent),
            RateStop::Number(overflow) => StepStop::Number(overflow),
            RateStop::Memory => StepStop::Memory,
        }
    }
}

impl<Q> From<MoveStop<Q>> for StepStop<Q> {
    ghost use Rattle.std.specs.Prelude.{◌≡◌};
    ghost use Rattle.plus_stepped.specs.Stops.{of_move};

    ghost from_gives = { λ stop step. step ≡ of_move stop };

    fn from(stop: MoveStop<Q>) -> StepStop<Q> {
        match stop {
            MoveStop::Number(overflow) => StepStop::Number(overflow),
            MoveStop::Memory => StepStop::Memory,
        }
    }
}
