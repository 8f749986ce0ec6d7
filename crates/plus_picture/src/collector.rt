//! The rows of a plan, as they grow while it is played.

use crate::slots::{Slot, Slots};
use plus_number::consts::zero;
use plus_number::exact::Exact;
use plus_number::frac::Frac64;
use plus_rows::{Kind, Row};
use plus_state::{AtomId, Ground, State};
use plus_types::{Names, Typed};
use std::alloc::{AllocError, Global};
use std::cmp::Ordering;

/// Which part of a plan is wanted.
#[derive(Clone, Copy)]
pub struct Wanted<'a> {
    pub from: Option<Frac64>,
    pub to: Option<Frac64>,
    /// The names of the rows; all are wanted where there is none.
    pub only: &'a [String],
}

fn is_before(time: Frac64, other: Frac64) -> bool {
    time.order(other) == Ordering::Less
}

/// The name in a label `(name argument ..)`.
pub fn name_in(label: &[u8]) -> &[u8] {
    let inner = match label {
        [b'(', inner @ .., b')'] => inner,
        _ => label,
    };
    match inner.iter().position(|byte| *byte == b' ') {
        Some(place) => inner.get(..place).unwrap_or(inner),
        None => inner,
    }
}

/// Whether an atom holds, where the state has it.
pub fn holds_in(state: &State<Frac64>, atom: AtomId) -> bool {
    atom.0 < state.atoms() && state.atom(atom)
}

impl Wanted<'_> {
    /// Whether something from one time to another is, in part.
    pub fn spans(&self, from: Frac64, to: Frac64) -> bool {
        let is_over = match self.from {
            Some(first) => is_before(to, first),
            None => false,
        };
        let is_later = match self.to {
            Some(last) => is_before(last, from),
            None => false,
        };
        !is_over && !is_later
    }

    /// Whether something that lasts from one time to another is, in part: of what has a length its end alone is none.
    pub fn lasts(&self, from: Frac64, to: Frac64) -> bool {
        if !is_before(from, to) {
            return self.spans(from, to);
        }
        let is_over = match self.from {
            Some(first) => !is_before(first, to),
            None => false,
        };
        let is_later = match self.to {
            Some(last) => !is_before(from, last),
            None => false,
        };
        !is_over && !is_later
    }

    /// Whether a time comes before the first one.
    pub fn is_early(&self, time: Frac64) -> bool {
        match self.from {
            Some(first) => is_before(time, first),
            None => false,
        }
    }

    // Whether a row is.
    fn has(&self, label: &[u8]) -> bool {
        if self.only.is_empty() {
            return true;
        }
        for name in self.only {
            let name = name.as_bytes();
            if name.eq_ignore_ascii_case(label) || name.eq_ignore_ascii_case(name_in(label)) {
                return true;
            }
        }
        false
    }
}

/// The rows of all ground things of each kind.
#[derive(Drop)]
pub struct Tables {
    pub actions: Slots,
    pub events: Slots,
    pub processes: Slots,
    pub atoms: Slots,
    pub fluents: Slots,
    /// Which events are instances of which event of the domain, by a number of its own.
    pub schemas: Vec<usize>,
}

// The events of the domain, numbered as their instances follow one another.
fn schemas(alloc: Global, ground: &Ground<Frac64>) -> Result<Vec<usize>, AllocError> {
    let mut schemas = Vec::with_capacity(alloc, ground.events.len())?;
    let mut number = 0usize;
    let mut last: &[u8] = b"";
    for event in &ground.events {
        let name = name_in(event.label.bytes());
        if name != last {
            number = number.saturating_add(1);
            last = name;
        }
        schemas.push(number)?;
    }
    Ok(schemas)
}

impl Tables {
    /// No rows yet.
    pub fn new(
        alloc: Global,
        typed: &Typed,
        ground: &Ground<Frac64>,
    ) -> Result<Tables, AllocError> {
        let actions = typed.domain.actions.as_slice().len();
        let schemas = schemas(alloc, ground)?;
        let events = ground.events.len().saturating_add(1);
        Ok(Tables {
            actions: Slots::new(alloc, actions)?,
            events: Slots::new(alloc, events)?,
            processes: Slots::new(alloc, ground.processes.len())?,
            atoms: Slots::new(alloc, ground.atoms.len())?,
            fluents: Slots::new(alloc, ground.fluents.len())?,
            schemas,
        })
    }

    fn get(&self, kind: Kind, number: usize) -> Slot {
        match kind {
            Kind::Action => self.actions.get(number),
            Kind::Event => self.events.get(number),
            Kind::Process => self.processes.get(number),
            Kind::Atom => self.atoms.get(number),
            Kind::Fluent => self.fluents.get(number),
        }
    }

    fn set(&mut self, kind: Kind, number: usize, slot: Slot) {
        match kind {
            Kind::Action => self.actions.set(number, slot),
            Kind::Event => self.events.set(number, slot),
            Kind::Process => self.processes.set(number, slot),
            Kind::Atom => self.atoms.set(number, slot),
            Kind::Fluent => self.fluents.set(number, slot),
        }
    }
}

/// The rows of a plan that is played.
#[derive(Drop)]
pub struct Collector<'t, 'g, 'w> {
    pub alloc: Global,
    /// The actions of the domain, by which their rows are numbered.
    pub actions: &'t Names,
    pub ground: &'g Ground<Frac64>,
    pub wanted: Wanted<'w>,
    pub tables: Tables,
    pub rows: Vec<Row>,
    /// The time of the present moment, and how many actions and rounds it had.
    pub moment: Frac64,
    pub step: u64,
    /// The timed literals before this one have come.
    pub literal: usize,
}

impl<'t, 'g, 'w> Collector<'t, 'g, 'w> {
    /// No rows yet, for plans of a pair over its ground form.
    pub fn new(
        alloc: Global,
        typed: &'t Typed,
        ground: &'g Ground<Frac64>,
        wanted: Wanted<'w>,
    ) -> Result<Collector<'t, 'g, 'w>, AllocError> {
        Ok(Collector {
            alloc,
            actions: &typed.actions,
            ground,
            wanted,
            tables: Tables::new(alloc, typed, ground)?,
            rows: Vec::new(alloc),
            moment: zero::<Frac64>(),
            step: 0,
            literal: 0,
        })
    }

    // Begins the row of a thing, where it is wanted.
    fn begin(&mut self, kind: Kind, number: usize, label: &[u8]) -> Result<Slot, AllocError> {
        if !self.wanted.has(label) {
            return Ok(Slot::Unwanted);
        }
        let place = self.rows.len();
        let mut row = Row::new(self.alloc, kind, number as u64, label)?;
        if kind == Kind::Atom && self.holds_first(number) {
            row.since = Some(zero::<Frac64>());
        }
        self.rows.push(row)?;
        Ok(Slot::At(place))
    }

    // Whether the atom of this number holds in the beginning.
    fn holds_first(&self, number: usize) -> bool {
        match u32::try_from(number) {
            Ok(number) => holds_in(&self.ground.initial, AtomId(number)),
            Err(_) => false,
        }
    }

    /// The place of the row of a thing, where it is wanted.
    pub fn row(
        &mut self,
        kind: Kind,
        number: usize,
        label: &[u8],
    ) -> Result<Option<usize>, AllocError> {
        let mut slot = self.tables.get(kind, number);
        if let Slot::New = slot {
            slot = self.begin(kind, number, label)?;
            self.tables.set(kind, number, slot);
        }
        match slot {
            Slot::At(place) => Ok(Some(place)),
            _ => Ok(None),
        }
    }
}
