//! Bars: when a process runs, and when an atom holds.

use crate::markup::Attribute::{Named, Tenths};
use crate::markup::Tag;
use crate::page::{LEFT, Page, RIGHT};
use plus_rows::titles::append_bar_title;
use plus_rows::{Bar, Kind, Row};
use std::alloc::AllocError;

/// How wide a bar is at least.
const LEAST: i64 = 30;

fn class(kind: Kind, count: u64) -> &'static [u8] {
    match (kind, count) {
        (Kind::Process, 1) => b"process",
        (Kind::Process, _) => b"process many",
        (_, 1) => b"atom",
        _ => b"atom many",
    }
}

fn thickness(kind: Kind) -> i64 {
    match kind {
        Kind::Process => 130,
        _ => 80,
    }
}

fn title(page: &Page, bar: Bar) -> Result<Vec<u8>, AllocError> {
    let mut text = Vec::new(page.alloc);
    append_bar_title(&mut text, bar)?;
    Ok(text)
}

fn draw_bar(page: &mut Page, kind: Kind, bar: Bar, middle: i64) {
    let from = page.at(bar.from).max(LEFT);
    let to = page.at(bar.to).min(RIGHT);
    let height = thickness(kind);
    page.markup.open(
        Tag::Rectangle,
        &[
            Named("class", class(kind, bar.count)),
            Tenths("x", from),
            Tenths("y", middle.saturating_sub(height / 2)),
            Tenths("width", to.saturating_sub(from).max(LEAST)),
            Tenths("height", height),
            Named("rx", b"2"),
        ],
    );
    let text = title(page, bar);
    page.title(text);
    page.markup.close();
}

/// Draws the bars of a row, around a height.
pub fn draw_bars(page: &mut Page, row: &Row, middle: i64) {
    for bar in &row.bars {
        draw_bar(page, row.kind, *bar, middle);
    }
}
