//! The events to be looked at after a step.
ghost use Rattle.std.specs.Prelude.{◌≡◌, [], Some, option_map, IfOk, IfSome, IsSomeAnd};
ghost use Rattle.plus_state.specs.Numbers.{event_numbers};
ghost use Rattle.plus_indexed.specs.Woken.{AreWoken};

use plus_number::exact::Exact;
use plus_reads::Readers;
use plus_reads::touched::{members_into, numbers_into, touched};
use plus_state::changes::Changes;
use plus_state::term::EventId;
use std::alloc::{AllocError, Global};

// The numbers of these events and of the readers of all that is changed, in place of others.
#[inline(always)]
fn numbers_woken<Q: Exact>(
    readers: &Readers,
    changes: &Changes<Q>,
    first: &[EventId],
    numbers: &mut Vec<u32>,
) -> Result<(), AllocError>
    ensures { IfOk result (λ _. AreWoken readers.now changes.now (event_numbers first.now) numbers.new.items) }
{
    numbers_into(first, numbers)?;
    touched(readers, changes, numbers)?;
    Ok(())
}

// Puts these events, and the readers of all that is changed, in place of others.
#[inline(always)]
fn put_members<Q: Exact>(
    readers: &Readers,
    changes: &Changes<Q>,
    first: &[EventId],
    numbers: &mut Vec<u32>,
    events: &mut Vec<EventId>,
) -> Result<(), AllocError>
    ensures { IfOk result (λ _. AreWoken readers.now changes.now (event_numbers first.now) (event_numbers events.new.items)) }
{
    numbers_woken(readers, changes, first, numbers)?;
    members_into(numbers, events)?;
    Ok(())
}

// Adds the readers of all that is changed.
#[inline(always)]
fn add_readers<Q: Exact>(
    readers: &Readers,
    changes: &Changes<Q>,
    numbers: &mut Vec<u32>,
    events: &mut Vec<EventId>,
) -> Result<(), AllocError>
    ensures { IfOk result (λ _. AreWoken readers.now changes.now (event_numbers events.old.items) (event_numbers events.new.items)) }
{
    numbers_woken(readers, changes, events, numbers)?;
    members_into(numbers, events)?;
    Ok(())
}

/// These events wait, and the readers of all that is changed: in place of those that waited. All do where memory is wanting.
#[inline(always)]
pub fn put_woken<Q: Exact>(
    alloc: Global,
    readers: &Readers,
    changes: &Changes<Q>,
    first: &[EventId],
    numbers: &mut Vec<u32>,
    waiting: &mut Option<Vec<EventId>>,
)
    ensures { IfSome waiting.new (λ w. AreWoken readers.now changes.now (event_numbers first.now) (event_numbers w.items)) }
{
    if waiting.is_none() {
        *waiting = Some(Vec::new(alloc));
    }
    let all_told = match waiting {
        Some(events) => put_members(readers, changes, first, numbers, events).is_ok(),
        None => false,
    };
    if !all_told {
        *waiting = None;
    }
}

/// The readers of all that is changed wait besides. All do where all did, or where memory is wanting.
#[inline(always)]
pub fn still_woken<Q: Exact>(
    readers: &Readers,
    changes: &Changes<Q>,
    numbers: &mut Vec<u32>,
    waiting: &mut Option<Vec<EventId>>,
)
    ensures { IfSome waiting.new (λ after. IsSomeAnd waiting.old (λ before. AreWoken readers.now changes.now (event_numbers before.items) (event_numbers after.items))) }
{
    let all_told = match waiting {
        Some(events) => add_readers(readers, changes, numbers, events).is_ok(),
        None => false,
    };
    if !all_told {
        *waiting = None;
    }
}

/// No event waits.
pub fn none_woken(alloc: Global, waiting: &mut Option<Vec<EventId>>)
    ensures { option_map (λ w. event_numbers w.items) waiting.new ≡ Some [] }
{
    match waiting {
        Some(events) => events.clear(),
        None => *waiting = Some(Vec::new(alloc)),
    }
}
