//! Fewer points, bars or marks, where there are more than can be told apart. What is kept of points are points that were there.

use crate::rows::{Bar, Mark, Point};
use crate::scale::level;
use plus_number::exact::Exact;
use plus_number::frac::Frac64;
use std::alloc::AllocError;
use std::cmp::Ordering;
use std::mem;

// How many levels a group has, where there are at most so many groups between two times.
fn width(first: Frac64, last: Frac64, groups: u64) -> u128 {
    let all = level(last).saturating_sub(level(first));
    (all / (groups as u128).max(1)).saturating_add(1)
}

fn is_below(value: Frac64, other: Frac64) -> bool {
    value.order(other) == Ordering::Less
}

/// Points that follow one another within a short time: the first, the last, the least and the greatest.
#[derive(Clone, Copy)]
struct Group {
    from: u128,
    first: Point,
    last: Point,
    least: Point,
    greatest: Point,
    // how many points came, and which of them was the least and which the greatest
    count: u64,
    least_at: u64,
    greatest_at: u64,
}

impl Group {
    fn new(point: Point) -> Group {
        Group {
            from: level(point.time),
            first: point,
            last: point,
            least: point,
            greatest: point,
            count: 1,
            least_at: 0,
            greatest_at: 0,
        }
    }

    // Whether a point follows within so many levels.
    fn takes(&self, point: Point, width: u128) -> bool {
        level(point.time).saturating_sub(self.from) < width
    }

    fn add(&mut self, point: Point) {
        if is_below(point.value, self.least.value) {
            self.least = point;
            self.least_at = self.count;
        }
        if is_below(self.greatest.value, point.value) {
            self.greatest = point;
            self.greatest_at = self.count;
        }
        self.last = point;
        self.count = self.count.saturating_add(1);
    }

    // Whether the point of this number is neither the first nor the last.
    fn is_between(&self, at: u64) -> bool {
        at > 0 && at.saturating_add(1) < self.count
    }

    // The least and the greatest point, the earlier one first.
    fn extremes(&self) -> [(u64, Point); 2] {
        let least = (self.least_at, self.least);
        let greatest = (self.greatest_at, self.greatest);
        if self.least_at < self.greatest_at {
            [least, greatest]
        } else {
            [greatest, least]
        }
    }

    // Puts its points behind others.
    fn put(&self, into: &mut Vec<Point>) -> Result<(), AllocError> {
        into.push(self.first)?;
        for (at, point) in self.extremes() {
            if self.is_between(at) {
                into.push(point)?;
            }
        }
        if self.count > 1 {
            into.push(self.last)?;
        }
        Ok(())
    }
}

/// Keeps of the points of each of so many groups the first, the last, the least and the greatest.
pub fn thin_points(points: &mut Vec<Point>, groups: u64) -> Result<(), AllocError> {
    let (Some(first), Some(last)) = (points.first(), points.last()) else {
        return Ok(());
    };
    let width = width(first.time, last.time, groups);
    let mut group = Group::new(*first);
    let mut kept = Vec::new(*points.allocator());
    for point in points.iter().skip(1) {
        if group.takes(*point, width) {
            group.add(*point);
        } else {
            group.put(&mut kept)?;
            group = Group::new(*point);
        }
    }
    group.put(&mut kept)?;
    *points = kept;
    Ok(())
}

/// Makes one of the bars of each of so many groups.
pub fn thin_bars(bars: &mut Vec<Bar>, groups: u64) -> Result<(), AllocError> {
    let (Some(first), Some(last)) = (bars.first(), bars.last()) else {
        return Ok(());
    };
    let width = width(first.from, last.to, groups);
    let mut group = *first;
    let mut kept = Vec::new(*bars.allocator());
    for bar in bars.iter().skip(1) {
        if level(bar.to).saturating_sub(level(group.from)) < width {
            group.to = bar.to;
            group.count = group.count.saturating_add(bar.count);
        } else {
            kept.push(group)?;
            group = *bar;
        }
    }
    kept.push(group)?;
    *bars = kept;
    Ok(())
}

/// Keeps of the marks of each of so many groups the first, and counts the others.
pub fn thin_marks(marks: &mut Vec<Mark>, groups: u64) -> Result<(), AllocError> {
    let (Some(first), Some(last)) = (marks.first(), marks.last()) else {
        return Ok(());
    };
    let width = width(first.from, last.to, groups);
    let mut kept: Vec<Mark> = Vec::new(*marks.allocator());
    let all = mem::replace(marks, Vec::new(*marks.allocator()));
    for mark in all {
        match kept.last_mut() {
            Some(group) if level(mark.to).saturating_sub(level(group.from)) < width => {
                group.to = mark.to;
                group.count = group.count.saturating_add(mark.count);
            }
            _ => kept.push(mark)?,
        }
    }
    *marks = kept;
    Ok(())
}
