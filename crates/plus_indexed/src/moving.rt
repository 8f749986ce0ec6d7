//! The readers of what moves, kept from moment to moment.
ghost use Rattle.std.specs.Prelude.{◌≡◌, [], IfOk};
ghost use Rattle.plus_state.specs.Numbers.{event_numbers, process_numbers};
ghost use Rattle.plus_reads.specs.Tables.{ReadAny};
ghost use Rattle.plus_crossing.specs.Rated.{fluent_numbers, moving_of};
ghost use Rattle.plus_indexed.specs.Moving.{AreRead};

use plus_crossing::rates::Rates;
use plus_number::exact::Exact;
use plus_reads::Index;
use plus_reads::touched::readers_into;
use plus_state::term::{EventId, FluentId, ProcessId};
use std::alloc::{AllocError, Global};
use std::marker::Model;
use std::rc::Rc;

// Fluents, their readers among the events and among the processes, and room for numbers.
#[derive(Drop)]
struct Lists {
    moving: Vec<FluentId>,
    events: Vec<EventId>,
    processes: Vec<ProcessId>,
    numbers: Vec<u32>,
}

/// An index, with the fluents that moved when it was last asked and their readers. From moment to moment
/// mostly the same fluents move: then nothing is read anew.
#[derive(Drop)]
pub struct MovingReaders {
    index: Rc<Index>,
    lists: Lists,
}

impl Model for MovingReaders {
    ghost use Rattle.plus_state.specs.Numbers.{event_numbers, process_numbers};
    ghost use Rattle.plus_crossing.specs.Rated.{fluent_numbers};
    ghost use Rattle.plus_indexed.specs.Moving.{MovingView, AreRead};

    ghost Value = { MovingView };

    ghost view = { λ r. record { index = r.index.value; moving = fluent_numbers r.lists.moving.items } };

    ghost invariant = { λ r. AreRead r.index.value (fluent_numbers r.lists.moving.items)
        (event_numbers r.lists.events.items) (process_numbers r.lists.processes.items) };
}

// Reads anew which fluents move at these rates, and who reads them.
fn fill<Q: Exact>(lists: &mut Lists, index: &Index, rates: &Rates<Q>) -> Result<(), AllocError>
    ensures moving { IfOk result (λ _. fluent_numbers lists.new.moving.items ≡ moving_of rates.now) }
    ensures read { IfOk result (λ _. AreRead index.now (fluent_numbers lists.new.moving.items)
        (event_numbers lists.new.events.items) (process_numbers lists.new.processes.items)) }
{
    rates.moving_into(&mut lists.moving)?;
    let numbers = &mut lists.numbers;
    readers_into(&index.events, &lists.moving, numbers, &mut lists.events)?;
    readers_into(
        &index.processes,
        &lists.moving,
        numbers,
        &mut lists.processes,
    )?;
    Ok(())
}

// Nothing moves, and nothing is read.
fn forget(lists: &mut Lists)
    ensures moving { lists.new.moving.items ≡ [] }
    ensures events { lists.new.events.items ≡ [] }
    ensures processes { lists.new.processes.items ≡ [] }
{
    lists.moving.clear();
    lists.events.clear();
    lists.processes.clear();
}

impl MovingReaders {
    /// Over this index, where nothing moves.
    pub fn new(alloc: Global, index: Rc<Index>) -> MovingReaders
        ensures { result ≡ record { index = index.value; moving = [] } }
    {
        MovingReaders {
            index,
            lists: Lists {
                moving: Vec::new(alloc),
                events: Vec::new(alloc),
                processes: Vec::new(alloc),
                numbers: Vec::new(alloc),
            },
        }
    }

    /// Over the same index, where nothing moves.
    pub fn copy(&self, alloc: Global) -> Result<MovingReaders, AllocError>
        ensures { IfOk result (λ r. r ≡ record { index = self.now.index; moving = [] }) }
    {
        Ok(MovingReaders::new(alloc, self.index.clone()?))
    }

    /// The index.
    #[inline(always)]
    pub fn index(&self) -> &Index
        ensures { result.now ≡ self.now.index }
    {
        &self.index
    }

    /// Takes the fluents that move at these rates. Where they are not those that it has, their readers are
    /// read anew.
    #[inline(always)]
    pub fn refresh<Q: Exact>(&mut self, rates: &Rates<Q>) -> Result<(), AllocError>
        ensures index { self.new.index ≡ self.old.index }
        ensures moving { IfOk result (λ _. self.new.moving ≡ moving_of rates.now) }
    {
        if rates.moves_just(&self.lists.moving) {
            return Ok(());
        }
        self.read_anew(rates)
    }

    fn read_anew<Q: Exact>(&mut self, rates: &Rates<Q>) -> Result<(), AllocError>
        ensures index { self.new.index ≡ self.old.index }
        ensures moving { IfOk result (λ _. self.new.moving ≡ moving_of rates.now) }
    {
        match fill(&mut self.lists, &self.index, rates) {
            Ok(()) => Ok(()),
            Err(lack) => {
                forget(&mut self.lists);
                Err(lack)
            }
        }
    }

    /// The events that read a fluent that moves.
    #[inline(always)]
    pub fn events(&self) -> &[EventId]
        ensures { ReadAny self.now.index.events self.now.moving (event_numbers result.now) }
    {
        &self.lists.events
    }

    /// The processes that read a fluent that moves.
    #[inline(always)]
    pub fn processes(&self) -> &[ProcessId]
        ensures { ReadAny self.now.index.processes self.now.moving (process_numbers result.now) }
    {
        &self.lists.processes
    }
}
