//! The members to be looked at after a step.
ghost use Rattle.std.specs.Prelude.{◌≡◌, ◌<◌, ℕ, [], ◌++◌, map, ◌↔◌, true, All, IfOk};
ghost use Rattle.plus_model.specs.Firing.{is_in};
ghost use Rattle.plus_model.specs.Running.{IsRising};
ghost use Rattle.plus_state.specs.Numbers.{AreMembers, event_numbers};
ghost use Rattle.plus_reads.specs.Tables.{AreBelow, ReadAny, Wakes};

use crate::readers::Readers;
use crate::table::Table;
use plus_number::exact::Exact;
use plus_state::changes::Changes;
use plus_state::term::{EventId, FluentId};
use plus_state::walk::Conditional;
use std::alloc::{AllocError, Global};

// In order, each once. The numbers are a few lists that rise, one behind the other, and this sort merges such.
#[inline(always)]
fn sort_once(numbers: &mut Vec<u32>) -> Result<(), AllocError>
    ensures rises { IfOk result (λ _. IsRising 0 numbers.new.items) }
    ensures same { IfOk result (λ _. (k : ℕ) → is_in numbers.new.items k ≡ true ↔ is_in numbers.old.items k ≡ true) }
{
    numbers.sort()?;
    numbers.dedup();
    Ok(())
}

/// Adds to these numbers those of the readers of all that is changed, and puts them in ground order, each
/// once.
#[inline(always)]
pub fn touched<Q: Exact>(
    readers: &Readers,
    changes: &Changes<Q>,
    numbers: &mut Vec<u32>,
) -> Result<(), AllocError>
    ensures wakes { IfOk result (λ _. Wakes readers.now changes.now numbers.old.items numbers.new.items) }
    ensures members { IfOk result (λ _. (n : ℕ) → AreBelow n readers.now
        → All (λ k. k < n) numbers.old.items → AreMembers n numbers.new.items) }
{
    'atoms: for change in &changes.atoms {
        readers.atoms.append_readers(change.atom.0, numbers)?;
    }
    'fluents: for change in &changes.fluents {
        readers.fluents.append_readers(change.fluent.0, numbers)?;
    }
    sort_once(numbers)?;
    Ok(())
}

// Puts the numbers of the readers of these fluents in place of others, whose memory they take.
fn numbers_by(
    readers: &Readers,
    fluents: &[FluentId],
    numbers: &mut Vec<u32>,
) -> Result<(), AllocError>
    ensures { IfOk result (λ _. ReadAny readers.now (map (λ f. f.0) fluents.now) numbers.new.items) }
{
    numbers.clear();
    'fluents: for fluent in fluents {
        readers.fluents.append_readers(fluent.0, numbers)?;
    }
    sort_once(numbers)?;
    Ok(())
}

/// Puts the readers of these fluents, in ground order and without repeats, in place of others, whose
/// memory they take. So do their numbers.
pub fn readers_into<I: Conditional>(
    readers: &Readers,
    fluents: &[FluentId],
    numbers: &mut Vec<u32>,
    members: &mut Vec<I>,
) -> Result<(), AllocError>
    ensures { IfOk result (λ _. ReadAny readers.now (map (λ f. f.0) fluents.now) (map I.number members.new.items)) }
{
    numbers_by(readers, fluents, numbers)?;
    members_into(numbers, members)?;
    Ok(())
}

/// Puts the numbers of these events in place of others, whose memory they take.
#[inline(always)]
pub fn numbers_into(events: &[EventId], numbers: &mut Vec<u32>) -> Result<(), AllocError>
    ensures { IfOk result (λ _. numbers.new.items ≡ event_numbers events.now) }
{
    numbers.clear();
    'each: for event in events {
        numbers.push(event.0)?;
    }
    Ok(())
}

/// Puts the members with these numbers in place of others, whose memory they take.
pub fn members_into<I: Conditional>(numbers: &[u32], members: &mut Vec<I>) -> Result<(), AllocError>
    ensures { IfOk result (λ _. map I.number members.new.items ≡ numbers.now) }
{
    members.clear();
    'each: for number in numbers {
        members.push(I::with_number(*number))?;
    }
    Ok(())
}

/// The members with these numbers.
pub fn members_of<I: Conditional>(alloc: Global, numbers: &[u32]) -> Result<Vec<I>, AllocError>
    ensures { IfOk result (λ members. map I.number members.items ≡ numbers.now) }
{
    let mut members = Vec::with_capacity(alloc, numbers.len())?;
    'each: for number in numbers {
        members.push(I::with_number(*number))?;
    }
    Ok(members)
}
