//! When a condition is to hold.
ghost use Rattle.std.specs.Prelude.{◌≡◌};
ghost use Rattle.plus_constraints.specs.Constraint.{is_lasting};
ghost use Rattle.plus_watch.specs.Looks.{regards};
ghost use Rattle.plus_watch.specs.View.{when_of};

use plus_crossing::crossings::is_below;
use plus_number::exact::Exact;

/// When a condition is to hold: in all states, in one, in one of a time up to this, or in all of a time from this on.
#[derive(Clone, Copy)]
pub enum RuleAt<Q> {
    Always,
    Sometime,
    Within(Q),
    HoldAfter(Q),
}

/// Whether the condition must hold in all states that are regarded, or in one.
pub fn is_lasting<Q: Exact>(rule: RuleAt<Q>) -> bool
    ensures { result ≡ is_lasting (when_of Q.value rule) }
{
    match rule {
        RuleAt::Always | RuleAt::HoldAfter(_) => true,
        RuleAt::Sometime | RuleAt::Within(_) => false,
    }
}

/// Whether a time is regarded.
pub fn regards<Q: Exact>(rule: RuleAt<Q>, time: Q) -> bool
    ensures { result ≡ regards (when_of Q.value rule) (Q.value time) }
{
    match rule {
        RuleAt::Always | RuleAt::Sometime => true,
        RuleAt::Within(until) => !is_below(until, time),
        RuleAt::HoldAfter(from) => !is_below(time, from),
    }
}
