//! Marks: actions, events and timed literals.

use crate::markup::Attribute::{Named, Tenths};
use crate::markup::Tag;
use crate::page::{LEFT, Page, WIDTH};
use plus_rows::titles::append_mark_title;
use plus_rows::words::{append_number, append_tenths};
use plus_rows::{Kind, Mark, Row};
use std::alloc::{AllocError, Global};

/// How many of the things at one place its title lists.
const LISTED: usize = 12;

/// How wide a letter of a name is.
const LETTER: i64 = 61;

/// How far behind its mark a name stands.
const BEHIND: i64 = 80;

/// How far two ends of a mark are apart, so that it stands for a stretch.
const WIDE: i64 = 20;

/// The marks of a row that are at one place, and what is beside it: how far names reach, and where the next place is.
#[derive(Clone, Copy)]
struct Place<'a> {
    marks: &'a [Mark],
    before: i64,
    next: i64,
}

fn class(kind: Kind) -> &'static [u8] {
    match kind {
        Kind::Action => b"action",
        Kind::Event => b"event",
        _ => b"literal",
    }
}

fn many_class(kind: Kind) -> &'static [u8] {
    match kind {
        Kind::Action => b"action many",
        Kind::Event => b"event many",
        _ => b"literal many",
    }
}

// The outline of a mark: where it begins, beside its place, and how it goes on.
fn outline(kind: Kind) -> (i64, i64, &'static [u8]) {
    match kind {
        Kind::Action => (-50, -50, b"h10l-5 10z"),
        Kind::Event => (0, -60, b"l6 6l-6 6l-6-6z"),
        _ => (-30, -30, b"h6v6h-6z"),
    }
}

// The path of a mark at a place.
fn path(alloc: Global, kind: Kind, x: i64, y: i64) -> Result<Vec<u8>, AllocError> {
    let (left, up, rest) = outline(kind);
    let mut path = Vec::from_slice(alloc, b"M")?;
    append_tenths(&mut path, x.saturating_add(left))?;
    path.push(b' ')?;
    append_tenths(&mut path, y.saturating_add(up))?;
    path.extend_from_slice(rest)?;
    Ok(path)
}

// The lines of the title of the marks at one place.
fn title(alloc: Global, marks: &[Mark]) -> Result<Vec<u8>, AllocError> {
    let mut text = Vec::new(alloc);
    for (number, mark) in marks.iter().enumerate() {
        if number > 0 {
            text.push(b'\n')?;
        }
        if number >= LISTED {
            text.extend_from_slice(b"..")?;
            break;
        }
        append_mark_title(&mut text, mark)?;
    }
    Ok(text)
}

// The arguments in a label.
fn arguments(label: &[u8]) -> &[u8] {
    let behind = match label.iter().position(|byte| *byte == b' ') {
        Some(place) => label.get(place..).unwrap_or(b""),
        None => b"",
    };
    match behind {
        [b' ', text @ .., b')'] => text,
        _ => b"",
    }
}

// What stands beside a mark: which step of its moment it is, but of the first, and its arguments.
fn beside(alloc: Global, mark: &Mark) -> Result<Vec<u8>, AllocError> {
    let mut text = Vec::new(alloc);
    let arguments = arguments(&mark.name);
    if mark.step > 1 {
        append_number(&mut text, mark.step)?;
        text.push(b'.')?;
    }
    if mark.step > 1 && !arguments.is_empty() {
        text.push(b' ')?;
    }
    text.extend_from_slice(arguments)?;
    Ok(text)
}

impl Place<'_> {
    // Draws the marks as one: at their place, or over the stretch for which they stand. Answers how far they reach, with
    // their name.
    fn draw(&self, page: &mut Page, kind: Kind, y: i64) -> i64 {
        let (Some(first), Some(last)) = (self.marks.first(), self.marks.last()) else {
            return self.before;
        };
        let from = page.at(first.from);
        let to = page.at(last.to);
        let wide = to.saturating_sub(from);
        if wide > WIDE {
            self.draw_wide(page, kind, from, wide, y);
        } else {
            self.draw_one(page, kind, from, y);
        }
        if self.marks.len() == 1 && first.count == 1 {
            return self.name(page, first, from, y);
        }
        to.saturating_add(BEHIND)
    }

    fn draw_one(&self, page: &mut Page, kind: Kind, x: i64, y: i64) {
        let Ok(path) = path(page.alloc, kind, x, y) else {
            page.lack();
            return;
        };
        page.open_path(class(kind), &path);
        page.title(title(page.alloc, self.marks));
        page.markup.close();
    }

    fn draw_wide(&self, page: &mut Page, kind: Kind, x: i64, wide: i64, y: i64) {
        page.markup.open(
            Tag::Rectangle,
            &[
                Named("class", many_class(kind)),
                Tenths("x", x),
                Tenths("y", y.saturating_sub(50)),
                Tenths("width", wide),
                Tenths("height", 100),
            ],
        );
        page.title(title(page.alloc, self.marks));
        page.markup.close();
    }

    // Writes what is said of a mark behind it, or before it, where there is room. Answers how far it reaches.
    fn name(&self, page: &mut Page, mark: &Mark, x: i64, y: i64) -> i64 {
        match beside(page.alloc, mark) {
            Ok(text) => self.say(page, &text, x, y),
            Err(_) => {
                page.lack();
                x
            }
        }
    }

    fn say(&self, page: &mut Page, text: &[u8], x: i64, y: i64) -> i64 {
        let width = (text.len().min(1000) as i64).saturating_mul(LETTER);
        let right = x.saturating_add(BEHIND);
        let left = x.saturating_sub(BEHIND);
        let y = y.saturating_add(35);
        if text.is_empty() {
            return right;
        }
        if right.saturating_add(width) <= self.next.saturating_sub(BEHIND) {
            page.say("says", right, y, text, None);
            return right.saturating_add(width);
        }
        if self.before.saturating_add(width) <= left {
            page.say("says before", left, y, text, None);
        }
        right
    }
}

/// Draws the marks of a row, at a height. Those that fall on one another are drawn once.
pub fn draw_marks(page: &mut Page, row: &Row, y: i64) {
    let mut first = 0;
    let mut before = LEFT;
    for (number, mark) in row.marks.iter().enumerate() {
        let behind = number.saturating_add(1);
        let next = match row.marks.get(behind) {
            Some(next) => page.at(next.from),
            None => WIDTH,
        };
        if row.marks.get(behind).is_some() && next == page.at(mark.from) {
            continue;
        }
        let place = Place {
            marks: row.marks.get(first..behind).unwrap_or(&[]),
            before,
            next,
        };
        before = place.draw(page, row.kind, y);
        first = behind;
    }
}
