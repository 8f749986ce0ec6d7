//! The processes to be looked at where an entry is closed.
ghost use Rattle.std.specs.Prelude.{◌≡◌, ◌↔◌, [], ℕ, true, IfOk, IfSome, IsSomeAnd};
ghost use Rattle.plus_model.specs.Firing.{is_in};
ghost use Rattle.plus_model.specs.Running.{IsRising};
ghost use Rattle.plus_state.specs.Numbers.{process_numbers};
ghost use Rattle.plus_indexed.specs.Woken.{AddsReaders};

use plus_number::exact::Exact;
use plus_reads::Readers;
use plus_reads::touched::members_into;
use plus_state::changes::Changes;
use plus_state::term::ProcessId;
use std::alloc::{AllocError, Global};
use std::marker::Model;

/// The numbers of processes, in any order, each maybe more than once. So many steps take the time of what
/// they add, and of putting all in order now and then.
#[derive(Drop)]
pub struct Waiting {
    numbers: Vec<u32>,
    // how many they were when they were last put in order
    different: usize,
}

impl Model for Waiting {
    ghost use Rattle.std.specs.Prelude.{ℕ, List};

    ghost Value = { List ℕ };

    ghost view = { λ w. w.numbers.items };
}

// In order, each once. The numbers are a few lists that rise, one behind the other, and this sort merges such.
#[inline(always)]
fn sort_once(numbers: &mut Vec<u32>) -> Result<(), AllocError>
    ensures rises { IfOk result (λ _. IsRising 0 numbers.new.items) }
    ensures same { IfOk result (λ _. (k : ℕ) → is_in numbers.new.items k ≡ true ↔ is_in numbers.old.items k ≡ true) }
{
    numbers.sort()?;
    numbers.dedup();
    Ok(())
}

// Puts the numbers of these processes in place of others.
#[inline(always)]
fn put_numbers(processes: &[ProcessId], numbers: &mut Vec<u32>) -> Result<(), AllocError>
    ensures { IfOk result (λ _. numbers.new.items ≡ process_numbers processes.now) }
{
    numbers.clear();
    'each: for process in processes {
        numbers.push(process.0)?;
    }
    Ok(())
}

// Where these numbers have become twice as many, they are put in order, each once.
#[inline(always)]
fn thin(numbers: &mut Vec<u32>, different: &mut usize) -> Result<(), AllocError>
    ensures { IfOk result (λ _. (k : ℕ) → is_in numbers.new.items k ≡ true ↔ is_in numbers.old.items k ≡ true) }
{
    if numbers.len() / 2 <= *different {
        return Ok(());
    }
    sort_once(numbers)?;
    *different = numbers.len();
    Ok(())
}

// Appends the readers of all that is changed.
#[inline(always)]
fn append_readers<Q: Exact>(
    readers: &Readers,
    changes: &Changes<Q>,
    numbers: &mut Vec<u32>,
) -> Result<(), AllocError>
    ensures { IfOk result (λ _. AddsReaders readers.now changes.now numbers.old.items numbers.new.items) }
{
    'atoms: for change in &changes.atoms {
        readers.atoms.append_readers(change.atom.0, numbers)?;
    }
    'fluents: for change in &changes.fluents {
        readers.fluents.append_readers(change.fluent.0, numbers)?;
    }
    Ok(())
}

impl Waiting {
    /// None.
    pub fn none(alloc: Global) -> Waiting
        ensures { result ≡ [] }
    {
        Waiting {
            numbers: Vec::new(alloc),
            different: 0,
        }
    }

    /// These processes, in place of others.
    #[inline(always)]
    pub fn put(&mut self, processes: &[ProcessId]) -> Result<(), AllocError>
        ensures { IfOk result (λ _. self.new ≡ process_numbers processes.now) }
    {
        put_numbers(processes, &mut self.numbers)?;
        self.different = self.numbers.len();
        Ok(())
    }

    /// Adds the readers of all that is changed.
    #[inline(always)]
    pub fn add_readers<Q: Exact>(
        &mut self,
        readers: &Readers,
        changes: &Changes<Q>,
    ) -> Result<(), AllocError>
        ensures { IfOk result (λ _. AddsReaders readers.now changes.now self.old self.new) }
    {
        append_readers(readers, changes, &mut self.numbers)?;
        thin(&mut self.numbers, &mut self.different)?;
        Ok(())
    }

    /// They in ground order, each once: in place of others, whose memory they take. So do their numbers.
    pub fn in_order(
        &self,
        numbers: &mut Vec<u32>,
        listed: &mut Vec<ProcessId>,
    ) -> Result<(), AllocError>
        ensures rising { IfOk result (λ _. IsRising 0 (process_numbers listed.new.items)) }
        ensures same { IfOk result (λ _. (k : ℕ) → is_in (process_numbers listed.new.items) k ≡ true ↔ is_in self.now k ≡ true) }
    {
        numbers.clear();
        numbers.extend_from_slice(&self.numbers)?;
        sort_once(numbers)?;
        members_into(numbers, listed)?;
        Ok(())
    }

    /// The same.
    pub fn copy(&self, alloc: Global) -> Result<Waiting, AllocError>
        ensures { IfOk result (λ w. w ≡ self.now) }
    {
        Ok(Waiting {
            numbers: Vec::from_slice(alloc, &self.numbers)?,
            different: self.different,
        })
    }
}

/// These processes wait, in place of others. All do where memory is wanting.
#[inline(always)]
pub fn put_waiting(alloc: Global, processes: &[ProcessId], waiting: &mut Option<Waiting>)
    ensures { IfSome waiting.new (λ w. w ≡ process_numbers processes.now) }
{
    if waiting.is_none() {
        *waiting = Some(Waiting::none(alloc));
    }
    let all_told = match waiting {
        Some(those) => those.put(processes).is_ok(),
        None => false,
    };
    if !all_told {
        *waiting = None;
    }
}

/// The readers of all that is changed wait besides. All do where all did, or where memory is wanting.
#[inline(always)]
pub fn still_waiting<Q: Exact>(
    readers: &Readers,
    changes: &Changes<Q>,
    waiting: &mut Option<Waiting>,
)
    ensures { IfSome waiting.new (λ after. IsSomeAnd waiting.old (λ before. AddsReaders readers.now changes.now before after)) }
{
    let all_told = match waiting {
        Some(those) => those.add_readers(readers, changes).is_ok(),
        None => false,
    };
    if !all_told {
        *waiting = None;
    }
}
