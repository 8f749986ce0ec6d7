//! Lines: the value of a fluent, which is piecewise linear.

use crate::markup::Attribute::{Named, Tenths};
use crate::markup::Tag;
use crate::page::{LEFT, Page, RIGHT};
use plus_number::exact::Exact;
use plus_number::frac::Frac64;
use plus_rows::scale::{Scale, level};
use plus_rows::thinning::thin_points;
use plus_rows::titles::{append_extreme, append_point_title};
use plus_rows::words::{append_short, append_tenths};
use plus_rows::{Goal, Point, Row};
use std::alloc::{AllocError, Global};
use std::cmp::Ordering;

/// How far a line stays from the edges of its row.
const PAD: i64 = 120;

/// How long the text of a value beside a line may be.
const VALUE: usize = 12;

/// How far the texts of two values are from one another at least.
const APART: i64 = 110;

/// How long the text of a goal may be, how far apart goals are written, and how many beside one another.
const WANTED: usize = 35;

const WANTED_WIDTH: i64 = 2200;

const ABREAST: usize = 4;

/// How wide a dot is, from its middle.
const DOT: i64 = 21;

/// The values of a row on the page.
#[derive(Clone, Copy)]
struct Values {
    scale: Scale,
    bottom: i64,
}

impl Values {
    // The scale of all values of a row and of its goals, between two heights.
    fn of(row: &Row, top: i64, bottom: i64) -> Values {
        let length = bottom.saturating_sub(top).saturating_sub(2 * PAD);
        let mut scale = Scale::empty(length);
        for point in &row.points {
            scale.take(level(point.value));
        }
        for goal in &row.goals {
            scale.take(level(goal.value));
        }
        Values {
            scale,
            bottom: bottom.saturating_sub(PAD),
        }
    }

    fn at(&self, value: Frac64) -> i64 {
        self.bottom.saturating_sub(self.scale.place(level(value)))
    }
}

// A place on the page.
type Spot = (i64, i64);

fn spot(page: &Page, values: &Values, point: Point) -> Spot {
    (page.at(point.time), values.at(point.value))
}

fn append_spot(path: &mut Vec<u8>, spot: Spot) -> Result<(), AllocError> {
    path.push(if path.is_empty() { b'M' } else { b' ' })?;
    append_tenths(path, spot.0)?;
    path.push(b' ')?;
    append_tenths(path, spot.1)
}

// The path through all points of a row, up to the end. Points that fall on one another are one.
fn path(page: &Page, values: &Values, points: &[Point]) -> Result<Vec<u8>, AllocError> {
    let mut path = Vec::new(page.alloc);
    let mut last = None;
    for point in points {
        let spot = spot(page, values, *point);
        if last != Some(spot) {
            append_spot(&mut path, spot)?;
        }
        last = Some(spot);
    }
    match last {
        Some((x, y)) if x < page.at_stop() => append_spot(&mut path, (page.at_stop(), y))?,
        _ => {}
    }
    Ok(path)
}

fn point_title(alloc: Global, point: Point) -> Result<Vec<u8>, AllocError> {
    let mut text = Vec::new(alloc);
    append_point_title(&mut text, point)?;
    Ok(text)
}

fn draw_dot(page: &mut Page, spot: Spot, point: Point) {
    page.markup.open(
        Tag::Circle,
        &[
            Named("class", b"dot"),
            Tenths("cx", spot.0),
            Tenths("cy", spot.1),
            Tenths("r", DOT),
        ],
    );
    page.title(point_title(page.alloc, point));
    page.markup.close();
}

// Draws a dot at each point that the times of the page hold, or at some of them where they are many.
fn draw_dots(page: &mut Page, values: &Values, points: &[Point]) -> Result<(), AllocError> {
    let mut some = Vec::from_slice(page.alloc, points)?;
    if some.len() > page.most {
        thin_points(&mut some, (page.most / 4) as u64)?;
    }
    let mut last = None;
    for point in &some {
        let spot = spot(page, values, *point);
        if last != Some(spot) && page.times.holds(level(point.time)) {
            draw_dot(page, spot, *point);
        }
        last = Some(spot);
    }
    Ok(())
}

fn draw_path(page: &mut Page, values: &Values, points: &[Point]) -> Result<(), AllocError> {
    let path = path(page, values, points)?;
    page.markup.lone(
        Tag::Path,
        &[
            Named("class", b"line"),
            Named("clip-path", b"url(#times)"),
            Named("d", &path),
        ],
    );
    draw_dots(page, values, points)
}

// The text of a goal, or its number alone where that is long.
fn wanted(alloc: Global, goal: &Goal) -> Result<Vec<u8>, AllocError> {
    if goal.text.len() <= WANTED {
        return Vec::from_slice(alloc, &goal.text);
    }
    let mut text = Vec::from_slice(alloc, b"goal: ")?;
    append_short(&mut text, goal.value, VALUE)?;
    Ok(text)
}

// Draws a line for a goal, with its text above it in one of the places that stand abreast.
fn draw_goal(page: &mut Page, values: &Values, goal: &Goal, place: i64) {
    let y = values.at(goal.value);
    page.markup.open(
        Tag::Line,
        &[
            Named("class", b"goal"),
            Tenths("x1", LEFT),
            Tenths("y1", y),
            Tenths("x2", RIGHT),
            Tenths("y2", y),
        ],
    );
    page.title(Vec::from_slice(page.alloc, &goal.text));
    page.markup.close();
    let x = (LEFT + 60).saturating_add(place.saturating_mul(WANTED_WIDTH));
    match wanted(page.alloc, goal) {
        Ok(text) => page.say("wanted", x, y.saturating_sub(40), &text, Some(&goal.text)),
        Err(_) => page.lack(),
    }
}

// Writes a value beside the line at a height, with what it is as its title.
fn draw_value(page: &mut Page, word: &[u8], point: Point, y: i64) -> Result<(), AllocError> {
    let mut text = Vec::new(page.alloc);
    append_short(&mut text, point.value, VALUE)?;
    let mut title = Vec::new(page.alloc);
    append_extreme(&mut title, word, point)?;
    page.say("value", LEFT - 80, y, &text, Some(&title));
    Ok(())
}

fn is_below(value: Frac64, other: Frac64) -> bool {
    value.order(other) == Ordering::Less
}

// The least and the greatest of the points.
fn extremes(points: &[Point]) -> Option<(Point, Point)> {
    let first = points.first()?;
    let mut least = *first;
    let mut greatest = *first;
    for point in points {
        if is_below(point.value, least.value) {
            least = *point;
        }
        if is_below(greatest.value, point.value) {
            greatest = *point;
        }
    }
    Some((least, greatest))
}

fn draw_extremes(page: &mut Page, values: &Values, points: &[Point]) -> Result<(), AllocError> {
    let Some((least, greatest)) = extremes(points) else {
        return Ok(());
    };
    let high = values.at(greatest.value).saturating_add(35);
    let low = values.at(least.value).saturating_add(35);
    if !is_below(least.value, greatest.value) {
        return draw_value(page, b"", greatest, high);
    }
    // (two values that are near one another are written apart)
    let apart = APART.saturating_sub(low.saturating_sub(high)).max(0) / 2;
    draw_value(page, b"greatest ", greatest, high.saturating_sub(apart))?;
    draw_value(page, b"least ", least, low.saturating_add(apart))
}

fn draw_all(page: &mut Page, row: &Row, values: &Values) -> Result<(), AllocError> {
    for (number, goal) in row.goals.iter().enumerate() {
        draw_goal(page, values, goal, (number % ABREAST) as i64);
    }
    draw_path(page, values, &row.points)?;
    draw_extremes(page, values, &row.points)
}

/// Draws the line of a row between two heights.
pub fn draw_line(page: &mut Page, row: &Row, top: i64, bottom: i64) {
    let values = Values::of(row, top, bottom);
    if draw_all(page, row, &values).is_err() {
        page.lack();
    }
}
