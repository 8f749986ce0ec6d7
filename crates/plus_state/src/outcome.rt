//! Why a plan is refused, and plans with times.
use crate::labels::Label;
use crate::term::{EventId, FluentId, Overflow, ProcessId};
use std::fmt::Debug;
use thiserror::Error;

/// What a comparison that moves nonlinearly belongs to.
#[derive(Clone, Copy, PartialEq, Eq, Debug)]
pub enum Owner {
    Event(EventId),
    Process(ProcessId),
}

/// A rule that a plan breaks. A `line` is the number of a line in the plan's text, from 1.
#[derive(Drop)]
pub enum Breach<Q> {
    /// No action has this name.
    UnknownAction {
        line: u32,
        name: Label,
    },
    /// The action of this name does not take these arguments.
    WrongArguments {
        line: u32,
        name: Label,
    },
    /// The action's condition does not hold.
    Precondition {
        line: u32,
        label: Label,
    },
    /// The line's time is below that of the line before.
    TimeGoesBack {
        line: u32,
    },
    /// The line stands after the end of the plan.
    AfterEnd {
        line: u32,
    },
    /// Two writes of one joint effect on the fluent do not go together.
    Conflict {
        fluent: FluentId,
    },
    /// A write or a rate on the fluent lacks a value.
    NoValue {
        fluent: FluentId,
    },
    /// The event would fire a second time in one cascade.
    Repeats {
        event: EventId,
    },
    /// The process neither goes on nor stays off just after.
    Unsettled {
        process: ProcessId,
    },
    /// A rate of the process reads the fluent, which moves.
    Coupled {
        process: ProcessId,
        fluent: FluentId,
    },
    /// The event holds just after this time and not at it.
    NoFirstMoment {
        event: EventId,
        time: Q,
    },
    /// The goal does not hold at the end.
    Goal,
}

/// A limit of the program that is reached before the plan can be judged.
#[derive(Drop)]
pub enum Limit<Q> {
    /// This many happenings are done, and the plan goes on.
    Happenings(u64),
    /// The exact result of this operation is no value of the number type.
    Number(Overflow<Q>),
    /// The comparison with this number among all comparisons of its owner's condition moves nonlinearly.
    Nonlinear { owner: Owner, comparison: u32 },
}

/// Why a joint effect cannot be had.
#[derive(Debug, Drop, Error)]
#[error_bound(Q: Debug)]
pub enum JointStop<Q> {
    /// Two writes on the fluent do not go together.
    #[error("writes on fluent {} conflict", .0.0)]
    Conflict(FluentId),
    /// An amount or a value that a write on the fluent needs is missing.
    #[error("a write on fluent {} lacks a value", .0.0)]
    NoValue(FluentId),
    #[error(transparent)]
    Number(Overflow<Q>),
    #[error("out of memory")]
    Memory,
}

/// A plan: actions by their labels, each with its time, and the time at which it ends.
#[derive(Drop)]
pub struct TimedPlan<Q> {
    pub acts: Vec<(Q, Label)>,
    pub end: Q,
}
