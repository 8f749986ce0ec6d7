//! The axis of time, and where the plan ends.

use crate::page::{LEFT, MARGIN, Page, Picture, RIGHT, TOP};
use crate::ticks::Tick;
use plus_rows::scale::level;
use plus_rows::titles::append_moment;
use plus_rows::words::append_tenths;
use std::alloc::{AllocError, Global};

/// The middle of the times.
const MIDDLE: i64 = (LEFT + RIGHT) / 2;

/// Draws a line down the rows at each tick.
pub fn draw_grid(page: &mut Page, ticks: &[Tick], bottom: i64) {
    for tick in ticks {
        let x = LEFT.saturating_add(tick.place);
        page.rule("grid", (x, TOP - 100), (x, bottom.saturating_add(60)));
        page.say("tick", x, TOP - 150, &tick.text, None);
    }
}

/// Draws the axis below the rows.
pub fn draw_axis(page: &mut Page, ticks: &[Tick], bottom: i64) {
    page.rule("axis", (LEFT, bottom), (RIGHT, bottom));
    for tick in ticks {
        let x = LEFT.saturating_add(tick.place);
        page.rule("axis", (x, bottom), (x, bottom.saturating_add(60)));
        page.say("tick", x, bottom.saturating_add(210), &tick.text, None);
    }
    page.say("note", MARGIN, bottom.saturating_add(210), b"time", None);
}

// What the end is called on the page.
fn end_note(alloc: Global, picture: &Picture<'_>) -> Result<Vec<u8>, AllocError> {
    let words: &[u8] = if picture.is_refused {
        b"refused at "
    } else {
        b"ends at "
    };
    let mut text = Vec::new(alloc);
    append_moment(&mut text, words, picture.end)?;
    Ok(text)
}

// How it is written: towards the middle of the page.
fn note_class(is_refused: bool, is_late: bool) -> &'static str {
    match (is_refused, is_late) {
        (false, false) => "at",
        (false, true) => "at before",
        (true, false) => "at lost",
        (true, true) => "at lost before",
    }
}

fn draw_end_note(page: &mut Page, picture: &Picture<'_>, x: i64, bottom: i64) {
    let class = note_class(picture.is_refused, x > MIDDLE);
    match end_note(page.alloc, picture) {
        Ok(text) => page.say(class, x, bottom.saturating_add(380), &text, None),
        Err(_) => page.lack(),
    }
}

fn end_title(alloc: Global, picture: &Picture<'_>) -> Result<Vec<u8>, AllocError> {
    let mut text = Vec::new(alloc);
    if picture.is_refused {
        append_moment(&mut text, b"at ", picture.end)?;
        text.extend_from_slice(b": ")?;
        text.extend_from_slice(picture.verdict)?;
    } else {
        append_moment(&mut text, b"the plan ends at ", picture.end)?;
    }
    Ok(text)
}

// A line from the top to the bottom, with a cross on it where the plan is refused.
fn end_path(alloc: Global, x: i64, bottom: i64, is_refused: bool) -> Result<Vec<u8>, AllocError> {
    let mut path = Vec::from_slice(alloc, b"M")?;
    append_tenths(&mut path, x)?;
    path.push(b' ')?;
    append_tenths(&mut path, TOP - 60)?;
    path.push(b'V')?;
    append_tenths(&mut path, bottom)?;
    if is_refused {
        path.extend_from_slice(b"m-6-6l12 12m0-12l-12 12")?;
    }
    Ok(path)
}

/// Draws where the plan ends, or where it is refused.
pub fn draw_end(page: &mut Page, picture: &Picture<'_>, bottom: i64) {
    if !page.times.holds(level(picture.end)) {
        return;
    }
    let x = page.at(picture.end);
    let Ok(path) = end_path(page.alloc, x, bottom, picture.is_refused) else {
        page.lack();
        return;
    };
    let class: &[u8] = if picture.is_refused {
        b"refused"
    } else {
        b"end"
    };
    page.open_path(class, &path);
    page.title(end_title(page.alloc, picture));
    page.markup.close();
    draw_end_note(page, picture, x, bottom);
}
