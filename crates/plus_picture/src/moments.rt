//! What each step of a timeline adds to the rows.

ghost use Rattle.std.specs.Prelude.{◌≡◌, Some, IfSome};
ghost use Rattle.plus_number.specs.Frac.{fraction_of};
ghost use Rattle.plus_model.specs.Value.{fluent_of};

use crate::collector::{Collector, holds_in, name_in};
use plus_indexed::Indexed;
use plus_number::consts::zero;
use plus_number::exact::Exact;
use plus_number::frac::Frac64;
use plus_rows::{Kind, Mark, Point};
use plus_state::{AtomChange, FluentId, State};
use plus_timeline::Next;
use std::alloc::AllocError;
use std::cmp::Ordering;

// The value of a fluent in a state, where it has one.
fn value_in(state: &State<Frac64>, fluent: FluentId) -> Option<Frac64>
    ensures { IfSome result (λ v. fluent_of state.now fluent.0 ≡ Some (fraction_of v)) }
{
    if fluent.0 < state.fluents() {
        state.fluent(fluent)
    } else {
        None
    }
}

// The present value of a fluent at the present time, where it has one.
fn point_now(timeline: &Indexed<Frac64>, fluent: FluentId) -> Option<Point>
    ensures time { IfSome result (λ p. fraction_of p.time ≡ timeline.now.line.now.time) }
    ensures value { IfSome result (λ p. fluent_of timeline.now.line.now.state fluent.0 ≡ Some (fraction_of p.value)) }
{
    match value_in(timeline.state(), fluent) {
        Some(value) => Some(Point {
            time: timeline.time(),
            value,
        }),
        None => None,
    }
}

impl Collector<'_, '_, '_> {
    // A fluent goes to its present value, from a time on.
    fn moved(
        &mut self,
        timeline: &Indexed<Frac64>,
        fluent: FluentId,
        since: Frac64,
    ) -> Result<(), AllocError> {
        let Some(point) = point_now(timeline, fluent) else {
            return Ok(());
        };
        match value_in(timeline.before(), fluent) {
            Some(old) if old.order(point.value) == Ordering::Equal => Ok(()),
            old => self.point(fluent, old, since, point),
        }
    }

    // A fluent goes from a value, if it had one, to a point.
    fn point(
        &mut self,
        fluent: FluentId,
        old: Option<Frac64>,
        since: Frac64,
        point: Point,
    ) -> Result<(), AllocError> {
        let ground = self.ground;
        let number = fluent.0 as usize;
        let Some(label) = ground.fluents.get(number) else {
            return Ok(());
        };
        let is_early = self.wanted.is_early(point.time);
        let is_wanted = self.wanted.spans(since, point.time);
        let Some(place) = self.row(Kind::Fluent, number, label.bytes())? else {
            return Ok(());
        };
        let Some(row) = self.rows.get_mut(place) else {
            return Ok(());
        };
        let before = match old {
            Some(value) => Point { time: since, value },
            None => point,
        };
        if row.points.is_empty() {
            let time = if old.is_some() {
                zero::<Frac64>()
            } else {
                point.time
            };
            row.begin_at(Point {
                time,
                value: before.value,
            })?;
        }
        if is_early {
            return row.begin_at(point);
        }
        if is_wanted {
            return row.move_to(before, point);
        }
        Ok(())
    }

    // An atom becomes true or false at the present moment.
    fn turned(&mut self, change: &AtomChange, before: &State<Frac64>) -> Result<(), AllocError> {
        let held = holds_in(before, change.atom);
        if held == change.truth {
            return Ok(());
        }
        let ground = self.ground;
        let number = change.atom.0 as usize;
        let Some(label) = ground.atoms.get(number) else {
            return Ok(());
        };
        let Some(place) = self.row(Kind::Atom, number, label.bytes())? else {
            return Ok(());
        };
        self.turn(place, change.truth)
    }

    // The atom of a row becomes true or false at the present moment.
    fn turn(&mut self, place: usize, truth: bool) -> Result<(), AllocError> {
        let now = self.moment;
        let Some(row) = self.rows.get_mut(place) else {
            return Ok(());
        };
        if truth {
            row.since = Some(now);
            return Ok(());
        }
        let Some(since) = row.since else {
            return Ok(());
        };
        row.since = None;
        if self.wanted.lasts(since, now) {
            return row.bar(since, now);
        }
        Ok(())
    }

    // The present step changes this.
    fn changed(&mut self, timeline: &Indexed<Frac64>, since: Frac64) -> Result<(), AllocError> {
        for change in &timeline.changes().atoms {
            self.turned(change, timeline.before())?;
        }
        for change in &timeline.changes().fluents {
            self.moved(timeline, change.fluent, since)?;
        }
        Ok(())
    }

    // Something happens at the present step, in the row of this number.
    fn happens(
        &mut self,
        kind: Kind,
        number: usize,
        row: &[u8],
        label: &[u8],
    ) -> Result<(), AllocError> {
        let now = self.moment;
        if !self.wanted.spans(now, now) {
            return Ok(());
        }
        let name = Vec::from_slice(self.alloc, label)?;
        let step = self.step;
        let Some(place) = self.row(kind, number, row)? else {
            return Ok(());
        };
        match self.rows.get_mut(place) {
            Some(row) => row.mark(Mark {
                from: now,
                to: now,
                count: 1,
                step,
                name,
            }),
            None => Ok(()),
        }
    }

    /// An action of this label is done.
    pub fn acted(&mut self, timeline: &Indexed<Frac64>, label: &[u8]) -> Result<(), AllocError> {
        self.step = self.step.saturating_add(1);
        let name = name_in(label);
        if let Some(number) = self.actions.number(name) {
            self.happens(Kind::Action, number, name, label)?;
        }
        self.changed(timeline, self.moment)
    }

    // A round of events fires.
    fn fired(&mut self, timeline: &Indexed<Frac64>) -> Result<(), AllocError> {
        self.step = self.step.saturating_add(1);
        for event in timeline.events() {
            self.event(event.0 as usize)?;
        }
        self.changed(timeline, self.moment)
    }

    fn event(&mut self, number: usize) -> Result<(), AllocError> {
        let schema = match self.tables.schemas.get(number) {
            Some(schema) => *schema,
            None => return Ok(()),
        };
        let ground = self.ground;
        let Some(event) = ground.events.get(number) else {
            return Ok(());
        };
        let label = event.label.bytes();
        self.happens(Kind::Event, schema, name_in(label), label)
    }

    // The running set ran from a time to the present one.
    fn ran(&mut self, timeline: &Indexed<Frac64>, since: Frac64) -> Result<(), AllocError> {
        if !self.wanted.lasts(since, self.moment) {
            return Ok(());
        }
        for process in timeline.running() {
            self.process(process.0 as usize, since)?;
        }
        Ok(())
    }

    fn process(&mut self, number: usize, since: Frac64) -> Result<(), AllocError> {
        let now = self.moment;
        let ground = self.ground;
        let Some(process) = ground.processes.get(number) else {
            return Ok(());
        };
        let Some(place) = self.row(Kind::Process, number, process.label.bytes())? else {
            return Ok(());
        };
        match self.rows.get_mut(place) {
            Some(row) => row.bar(since, now),
            None => Ok(()),
        }
    }

    // Marks the timed literals that have come, up to the present moment.
    fn literals(&mut self) -> Result<(), AllocError> {
        let ground = self.ground;
        let now = self.moment;
        'literals: for number in self.literal..ground.timed.len() {
            let Some(literal) = ground.timed.get(number) else {
                return Ok(());
            };
            if now.order(literal.time) == Ordering::Less {
                return Ok(());
            }
            self.literal = number.saturating_add(1);
            self.literal_at(literal.atom.0 as usize, literal.positive)?;
        }
        Ok(())
    }

    fn literal_at(&mut self, number: usize, positive: bool) -> Result<(), AllocError> {
        let ground = self.ground;
        let Some(label) = ground.atoms.get(number) else {
            return Ok(());
        };
        let mut text = Vec::from_slice(self.alloc, label.bytes())?;
        text.extend_from_slice(if positive {
            b" becomes true by a timed literal"
        } else {
            b" becomes false by a timed literal"
        })?;
        self.happens(Kind::Atom, number, label.bytes(), &text)
    }

    /// The timeline has begun a moment.
    pub fn entered(&mut self, timeline: &Indexed<Frac64>) -> Result<(), AllocError> {
        let since = self.moment;
        self.moment = timeline.time();
        self.step = 0;
        self.ran(timeline, since)?;
        if timeline.has_literals() {
            self.literals()?;
        }
        self.changed(timeline, since)
    }

    /// The timeline has done this.
    pub fn noted(
        &mut self,
        timeline: &Indexed<Frac64>,
        next: Next<Frac64>,
    ) -> Result<(), AllocError> {
        match next {
            Next::Round => self.fired(timeline),
            Next::Entry { .. } => self.entered(timeline),
            Next::Run | Next::There => Ok(()),
        }
    }

    /// The plan has come to its end, or to where it is refused: what holds there has held up to there.
    pub fn close(&mut self) -> Result<(), AllocError> {
        let now = self.moment;
        for row in self.rows.iter_mut() {
            if let Some(since) = row.since {
                if self.wanted.lasts(since, now) {
                    row.bar(since, now)?;
                }
            }
        }
        Ok(())
    }
}
