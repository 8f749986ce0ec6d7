//! Equal parts of a timeline, for a copy of it.
ghost use Rattle.std.specs.Prelude.{◌≡◌, IfOk};

use plus_cascade::Cascade;
use plus_number::exact::Exact;
use plus_settle::settling::Running;
use plus_state::term::EventId;
use std::alloc::{AllocError, Global};

// The events that have fired in a cascade, as an equal set and in order.
pub fn copied_cascade(
    alloc: Global,
    cascade: &Cascade,
    fired: &[EventId],
) -> Result<(Cascade, Vec<EventId>), AllocError>
    ensures cascade { IfOk result (λ r. r.0 ≡ cascade.now) }
    ensures fired { IfOk result (λ r. r.1.items ≡ fired.now) }
{
    let cascade = cascade.copy(alloc)?;
    let fired = Vec::from_slice(alloc, fired)?;
    Ok((cascade, fired))
}

// The events of the last round, and an equal running set.
pub fn copied_last<Q: Exact>(
    alloc: Global,
    events: &[EventId],
    running: &Running<Q>,
) -> Result<(Vec<EventId>, Running<Q>), AllocError>
    ensures events { IfOk result (λ r. r.0.items ≡ events.now) }
    ensures members { IfOk result (λ r. r.1.members.items ≡ running.now.members.items) }
    ensures rates { IfOk result (λ r. r.1.rates ≡ running.now.rates) }
{
    let events = Vec::from_slice(alloc, events)?;
    let running = running.copy(alloc)?;
    Ok((events, running))
}
