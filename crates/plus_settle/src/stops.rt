//! Why rates, or a running set, cannot be had.
use plus_state::term::{FluentId, Overflow, ProcessId};
use std::alloc::AllocError;
use std::fmt::Debug;
use thiserror::Error;

/// Why net rates cannot be had.
#[derive(Clone, Copy, Debug, Error)]
#[error_bound(Q: Debug)]
pub enum RateStop<Q> {
    /// The amount of a rate on the fluent, or the fluent, has no value.
    #[error("a rate on fluent {} lacks a value", .0.0)]
    NoValue(FluentId),
    #[error(transparent)]
    Number(Overflow<Q>),
    #[error("out of memory")]
    Memory,
}

impl<Q> From<AllocError> for RateStop<Q> {
    ghost use Rattle.std.specs.Prelude.{◌≡◌};
    ghost use Rattle.plus_settle.specs.declared.stops.RateStop.TheVariants.{Memory};

    ghost from_gives = { λ _ stop. stop ≡ Memory };

    fn from(_error: AllocError) -> RateStop<Q> {
        RateStop::Memory
    }
}

/// Why it cannot be told whether a running set goes on.
#[derive(Clone, Copy, Debug, Error)]
#[error_bound(Q: Debug)]
pub enum GoStop<Q> {
    #[error(transparent)]
    Number(Overflow<Q>),
    /// A live comparison of the process moves nonlinearly. Its number counts the comparisons of the
    /// condition, in the order of the text and from 1.
    #[error("comparison {comparison} of process {} moves nonlinearly", .process.0)]
    Nonlinear { process: ProcessId, comparison: u32 },
}

/// Why a state has no running set.
#[derive(Clone, Copy, Debug, Error)]
#[error_bound(Q: Debug)]
pub enum SettleStop<Q> {
    /// The process neither goes on nor stays off at the rates of the processes that would run.
    #[error("process {} is unsettled", .0.0)]
    Unsettled(ProcessId),
    /// A rate of the process reads the fluent, which moves.
    #[error("process {} reads fluent {}, which moves", .0.0, .1.0)]
    Coupled(ProcessId, FluentId),
    /// The amount of a rate on the fluent, or the fluent, has no value.
    #[error("a rate on fluent {} lacks a value", .0.0)]
    NoValue(FluentId),
    #[error(transparent)]
    Number(Overflow<Q>),
    /// A live comparison of the process moves nonlinearly. Its number counts the comparisons of the
    /// condition, in the order of the text and from 1.
    #[error("comparison {comparison} of process {} moves nonlinearly", .process.0)]
    Nonlinear { process: ProcessId, comparison: u32 },
    #[error("out of memory")]
    Memory,
}
