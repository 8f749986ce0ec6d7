//! What is drawn: rows over time.

use crate::thinning::{thin_bars, thin_marks, thin_points};
use plus_number::exact::Exact;
use plus_number::frac::Frac64;
use std::alloc::{AllocError, Global};
use std::cmp::Ordering;

/// From how many points, bars or marks on a row is thinned while it grows.
const MANY: usize = 4096;

/// In how many groups it is thinned then. A group keeps at most four points.
const GROUPS: u64 = 512;

/// How many points, bars or marks of a row are drawn at most: more cannot be told apart, and those that were thinned while
/// the row grew would look like others than the rest.
const DRAWN: usize = 1024;

/// In how many groups they are thinned then.
const DRAWN_GROUPS: u64 = 256;

/// What a row is of, in the order in which rows are drawn.
#[derive(Clone, Copy, PartialEq, Eq, Debug)]
pub enum Kind {
    Action,
    Event,
    Process,
    Atom,
    Fluent,
}

impl Kind {
    /// All kinds, in their order.
    pub const ALL: [Kind; 5] = [
        Kind::Action,
        Kind::Event,
        Kind::Process,
        Kind::Atom,
        Kind::Fluent,
    ];
}

/// A fluent has this value at this time.
#[derive(Clone, Copy)]
pub struct Point {
    pub time: Frac64,
    pub value: Frac64,
}

/// A process runs, or an atom holds, from one time to another; or so often between them.
#[derive(Clone, Copy)]
pub struct Bar {
    pub from: Frac64,
    pub to: Frac64,
    pub count: u64,
}

/// Something happens: at this step of its moment, and by this name. Or so much happens between two times, and this is the first of it.
#[derive(Drop)]
pub struct Mark {
    pub from: Frac64,
    pub to: Frac64,
    pub count: u64,
    pub step: u64,
    pub name: Vec<u8>,
}

/// A number that the goal compares a fluent with, and the text of that comparison.
#[derive(Drop)]
pub struct Goal {
    pub value: Frac64,
    pub text: Vec<u8>,
}

/// A row of the picture.
#[derive(Drop)]
pub struct Row {
    pub kind: Kind,
    /// Its place among the rows of its kind.
    pub number: u64,
    pub label: Vec<u8>,
    /// How often something changed on it.
    pub changes: u64,
    pub points: Vec<Point>,
    pub bars: Vec<Bar>,
    pub marks: Vec<Mark>,
    pub goals: Vec<Goal>,
    /// Since when an atom holds.
    pub since: Option<Frac64>,
}

fn is_before(time: Frac64, other: Frac64) -> bool {
    time.order(other) == Ordering::Less
}

impl Row {
    /// A row on which nothing is yet.
    pub fn new(alloc: Global, kind: Kind, number: u64, label: &[u8]) -> Result<Row, AllocError> {
        Ok(Row {
            kind,
            number,
            label: Vec::from_slice(alloc, label)?,
            changes: 0,
            points: Vec::new(alloc),
            bars: Vec::new(alloc),
            marks: Vec::new(alloc),
            goals: Vec::new(alloc),
            since: None,
        })
    }

    /// Puts a mark behind the others.
    pub fn mark(&mut self, mark: Mark) -> Result<(), AllocError> {
        self.changes = self.changes.saturating_add(1);
        if self.marks.len() >= MANY {
            thin_marks(&mut self.marks, GROUPS)?;
        }
        self.marks.push(mark)?;
        Ok(())
    }

    /// Puts a bar behind the others, or makes the last one longer where it begins at its end.
    pub fn bar(&mut self, from: Frac64, to: Frac64) -> Result<(), AllocError> {
        if let Some(last) = self.bars.last_mut() {
            if !is_before(last.to, from) {
                last.to = to;
                return Ok(());
            }
        }
        self.changes = self.changes.saturating_add(2);
        if self.bars.len() >= MANY {
            thin_bars(&mut self.bars, GROUPS)?;
        }
        self.bars.push(Bar { from, to, count: 1 })?;
        Ok(())
    }

    /// The value is this from here on. What was before is forgotten.
    pub fn begin_at(&mut self, point: Point) -> Result<(), AllocError> {
        self.points.clear();
        self.points.push(point)?;
        Ok(())
    }

    /// The value goes from one to another between two times, and stays the same before.
    pub fn move_to(&mut self, before: Point, after: Point) -> Result<(), AllocError> {
        self.changes = self.changes.saturating_add(1);
        if self.points.len() >= MANY {
            thin_points(&mut self.points, GROUPS)?;
        }
        let stood = match self.points.last() {
            Some(last) => is_before(last.time, before.time),
            None => true,
        };
        if stood {
            self.points.push(before)?;
        }
        self.points.push(after)?;
        Ok(())
    }

    /// Leaves as many points, and at most about so many marks and bars, as can be told apart.
    pub fn thin(&mut self, most: usize) -> Result<(), AllocError> {
        let most = most.min(DRAWN);
        let groups = (most as u64).min(GROUPS);
        if self.marks.len() > most {
            thin_marks(&mut self.marks, groups)?;
        }
        if self.bars.len() > most {
            thin_bars(&mut self.bars, groups)?;
        }
        if self.points.len() > DRAWN {
            thin_points(&mut self.points, DRAWN_GROUPS)?;
        }
        Ok(())
    }
}
