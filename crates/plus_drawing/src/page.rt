//! The page: where everything stands on it, in tenths of a pixel.

ghost use Rattle.std.specs.Prelude.{[], IfOk};
ghost use Rattle.plus_drawing.specs.Markup.{Written};

use crate::axis::{draw_axis, draw_end, draw_grid};
use crate::bars::draw_bars;
use crate::lines::draw_line;
use crate::marks::draw_marks;
use crate::markup::Attribute::{Named, Tenths};
use crate::markup::{Markup, Tag};
use crate::style::STYLE;
use crate::ticks::{Tick, ticks};
use plus_number::exact::Exact;
use plus_number::frac::Frac64;
use plus_rows::scale::{Scale, level};
use plus_rows::words::append_number;
use plus_rows::{Kind, Row};
use std::alloc::{AllocError, Global};
use std::cmp::Ordering;

/// How wide the page is.
pub const WIDTH: i64 = 12000;

/// Where the times begin and where they end.
pub const LEFT: i64 = 2800;

pub const RIGHT: i64 = 11760;

/// Where labels begin.
pub const MARGIN: i64 = 160;

/// Where the rows begin.
pub const TOP: i64 = 860;

/// How much is below the rows: the axis and a note.
const FOOT: i64 = 640;

/// How high the name of a group is.
const HEADING: i64 = 300;

/// How many bytes of a line at the top are shown.
const HEAD: usize = 120;

/// What stands in place of rows where there are none.
const NOTHING: &[u8] = b"nothing happens or changes here";

/// How high the page is where there are no rows.
const EMPTY: i64 = 300;

/// How many titles a picture has at most, about.
const TITLES: usize = 12_000;

/// What a picture shows beside its rows: the times from one to another, and what is said of the plan that is played.
#[derive(Clone, Copy)]
pub struct Picture<'a> {
    pub name: &'a [u8],
    pub verdict: &'a [u8],
    /// Whether the plan is refused.
    pub is_refused: bool,
    /// How many rows are left out.
    pub left_out: u64,
    pub from: Frac64,
    pub to: Frac64,
    /// When the plan ends, or is refused.
    pub end: Frac64,
}

/// A page that is drawn.
#[derive(Drop)]
pub struct Page {
    pub alloc: Global,
    pub markup: Markup,
    pub times: Scale,
    /// How many marks a row may have.
    pub most: usize,
    // where the plan ends, or the times of the page do before that
    stop: Frac64,
    is_whole: bool,
}

fn height(kind: Kind) -> i64 {
    match kind {
        Kind::Action | Kind::Event => 260,
        Kind::Process | Kind::Atom => 230,
        Kind::Fluent => 780,
    }
}

fn heading(kind: Kind) -> &'static [u8] {
    match kind {
        Kind::Action => b"ACTIONS",
        Kind::Event => b"EVENTS",
        Kind::Process => b"PROCESSES",
        Kind::Atom => b"ATOMS",
        Kind::Fluent => b"FLUENTS",
    }
}

// How many bytes of a label are shown: beside a line stand values.
fn shown(kind: Kind) -> usize {
    match kind {
        Kind::Fluent => 25,
        _ => 34,
    }
}

// A text of which the end is left out.
fn clipped(alloc: Global, text: &[u8], most: usize) -> Result<Vec<u8>, AllocError> {
    let mut short = Vec::from_slice(alloc, text.get(..most).unwrap_or(text))?;
    short.extend_from_slice(b"..")?;
    Ok(short)
}

// How many rows are left out.
fn left_out_text(alloc: Global, left_out: u64) -> Result<Vec<u8>, AllocError> {
    let words: &[u8] = if left_out == 1 {
        b" more row is left out, on which less changes (--only NAME .. shows it)"
    } else {
        b" more rows are left out, on which less changes (--only NAME .. shows some)"
    };
    let mut text = Vec::new(alloc);
    append_number(&mut text, left_out)?;
    text.extend_from_slice(words)?;
    Ok(text)
}

// How high all rows are together, with the names of their groups.
fn rows_height(rows: &[Row]) -> i64 {
    let mut all = 0i64;
    for kind in Kind::ALL {
        let mut is_there = false;
        for row in rows {
            if row.kind == kind {
                is_there = true;
                all = all.saturating_add(height(kind));
            }
        }
        if is_there {
            all = all.saturating_add(HEADING);
        }
    }
    all.max(EMPTY)
}

// The scale of the times from one to another; of no time it is that of one unit.
fn times(from: Frac64, to: Frac64) -> Scale {
    let low = level(from);
    let high = level(to);
    if low < high {
        Scale::new(low, high, RIGHT - LEFT)
    } else {
        Scale::new(low, low.saturating_add(1 << 40), RIGHT - LEFT)
    }
}

impl Page {
    /// Where a time is.
    pub fn at(&self, time: Frac64) -> i64 {
        LEFT.saturating_add(self.times.place(level(time)))
    }

    /// Where the plan ends, or where the times of the page do before that.
    pub fn at_stop(&self) -> i64 {
        self.at(self.stop)
    }

    /// Notes that memory is wanting.
    pub fn lack(&mut self) {
        self.is_whole = false;
    }

    /// Writes a title, where its text could be made.
    pub fn title(&mut self, text: Result<Vec<u8>, AllocError>) {
        match text {
            Ok(text) => {
                self.markup.open(Tag::Title, &[]);
                self.markup.text(&text);
                self.markup.close();
            }
            Err(_) => self.is_whole = false,
        }
    }

    /// Writes a text at a place, and a title on it where there is one.
    pub fn say(&mut self, class: &'static str, x: i64, y: i64, text: &[u8], title: Option<&[u8]>) {
        self.markup.open(
            Tag::Text,
            &[
                Named("class", class.as_bytes()),
                Tenths("x", x),
                Tenths("y", y),
            ],
        );
        if let Some(title) = title {
            self.title(Vec::from_slice(self.alloc, title));
        }
        self.markup.text(text);
        self.markup.close();
    }

    /// Writes a text, or its front where it is longer than this, with the whole of it as a title.
    pub fn say_short(&mut self, class: &'static str, x: i64, y: i64, text: &[u8], most: usize) {
        if text.len() <= most {
            self.say(class, x, y, text, None);
            return;
        }
        match clipped(self.alloc, text, most) {
            Ok(short) => self.say(class, x, y, &short, Some(text)),
            Err(_) => self.is_whole = false,
        }
    }

    /// Opens a path.
    pub fn open_path<'t>(&mut self, class: &'t [u8], path: &'t [u8]) {
        self.markup
            .open(Tag::Path, &[Named("class", class), Named("d", path)]);
    }

    /// Draws a line from one place to another.
    pub fn rule(&mut self, class: &'static str, from: (i64, i64), to: (i64, i64)) {
        self.markup.lone(
            Tag::Line,
            &[
                Named("class", class.as_bytes()),
                Tenths("x1", from.0),
                Tenths("y1", from.1),
                Tenths("x2", to.0),
                Tenths("y2", to.1),
            ],
        );
    }

    /// Fills a rectangle.
    pub fn fill(&mut self, class: &'static str, corner: (i64, i64), width: i64, height: i64) {
        self.markup.lone(
            Tag::Rectangle,
            &[
                Named("class", class.as_bytes()),
                Tenths("x", corner.0),
                Tenths("y", corner.1),
                Tenths("width", width),
                Tenths("height", height),
            ],
        );
    }

    // Draws a row between two heights.
    fn row(&mut self, row: &mut Row, top: i64, is_even: bool) {
        let height = height(row.kind);
        let bottom = top.saturating_add(height);
        if is_even {
            self.fill("band", (0, top), WIDTH, height);
        }
        let middle = top.saturating_add(height / 2);
        let below = middle.saturating_add(40);
        self.say_short("label", MARGIN, below, &row.label, shown(row.kind));
        if row.thin(self.most).is_err() {
            self.is_whole = false;
        }
        match row.kind {
            Kind::Action | Kind::Event => draw_marks(self, row, middle),
            Kind::Process => draw_bars(self, row, middle),
            Kind::Atom => {
                draw_bars(self, row, middle);
                draw_marks(self, row, middle);
            }
            Kind::Fluent => draw_line(self, row, top, bottom),
        }
    }

    // Draws the rows of a kind below a height, and answers how far down they go.
    fn rows(&mut self, rows: &mut [Row], kind: Kind, from: i64) -> i64 {
        let mut top = from;
        let mut number = 0u64;
        for row in rows.iter_mut() {
            if row.kind != kind {
                continue;
            }
            if number == 0 {
                self.say(
                    "group",
                    MARGIN,
                    top.saturating_add(200),
                    heading(kind),
                    None,
                );
                top = top.saturating_add(HEADING);
            }
            self.row(row, top, number % 2 == 0);
            top = top.saturating_add(height(kind));
            number = number.saturating_add(1);
        }
        top
    }

    // Opens the page: its size, its name, its style and what is behind all.
    fn begin(&mut self, name: &[u8], height: i64) {
        let mut view = Vec::new(self.alloc);
        let sizes = view.extend_from_slice(b"0 0 1200 ").is_err()
            || append_number(&mut view, height.unsigned_abs() / 10).is_err();
        if sizes {
            self.is_whole = false;
        }
        self.markup.open(
            Tag::Svg,
            &[
                Named("xmlns", b"http://www.w3.org/2000/svg"),
                Named("viewBox", &view),
                Tenths("width", WIDTH),
                Tenths("height", height),
                Named("role", b"img"),
            ],
        );
        self.title(Vec::from_slice(self.alloc, name));
        self.markup.open(Tag::Style, &[]);
        self.markup.text(STYLE);
        self.markup.close();
        self.fill("paper", (0, 0), WIDTH, height);
    }

    // The rectangle outside of which no line is seen.
    fn clip(&mut self, height: i64) {
        self.markup.open(Tag::Definitions, &[]);
        self.markup.open(Tag::Clip, &[Named("id", b"times")]);
        self.fill("paper", (LEFT, 0), RIGHT - LEFT, height);
        self.markup.close();
        self.markup.close();
    }

    // The name of what is played, and what is said of it.
    fn head(&mut self, picture: &Picture<'_>) {
        self.say_short("name", MARGIN, 340, picture.name, HEAD);
        let class = if picture.is_refused {
            "broken"
        } else {
            "verdict"
        };
        self.say_short(class, MARGIN, 560, picture.verdict, HEAD);
    }

    // How many rows are left out, if any are.
    fn note(&mut self, left_out: u64, y: i64) {
        if left_out == 0 {
            return;
        }
        match left_out_text(self.alloc, left_out) {
            Ok(text) => self.say("note", MARGIN, y, &text, None),
            Err(_) => self.is_whole = false,
        }
    }

    // Draws all of a picture, of which the rows end at this height.
    fn all(&mut self, picture: &Picture<'_>, rows: &mut [Row], ticks: &[Tick], bottom: i64) {
        let height = bottom.saturating_add(FOOT);
        self.begin(picture.name, height);
        self.clip(height);
        self.head(picture);
        draw_grid(self, ticks, bottom);
        let mut top = TOP;
        for kind in Kind::ALL {
            top = self.rows(rows, kind, top);
        }
        if rows.is_empty() {
            self.say("note", LEFT + 80, TOP + 180, NOTHING, None);
        }
        draw_axis(self, ticks, bottom);
        draw_end(self, picture, bottom);
        self.note(picture.left_out, bottom.saturating_add(520));
    }

    fn finish(self) -> Result<Vec<u8>, AllocError>
        ensures { IfOk result (λ bytes. ∥ Written [] bytes.items ∥₁) }
    {
        let Page {
            markup,
            is_whole,
            ..
        } = self;
        match markup.finish() {
            Some(bytes) if is_whole => Ok(bytes),
            _ => Err(AllocError),
        }
    }
}

fn earlier(time: Frac64, other: Frac64) -> Frac64 {
    match time.order(other) {
        Ordering::Less => time,
        Ordering::Equal => time,
        Ordering::Greater => other,
    }
}

/// The text of a picture with these rows, which are thinned. Its only error is want of memory.
pub fn draw(alloc: Global, picture: &Picture<'_>, rows: &mut [Row]) -> Result<Vec<u8>, AllocError>
    ensures { IfOk result (λ bytes. ∥ Written [] bytes.items ∥₁) }
{
    let times = times(picture.from, picture.to);
    let ticks = ticks(alloc, &times)?;
    let bottom = TOP.saturating_add(rows_height(rows));
    let mut page = Page {
        alloc,
        markup: Markup::new(alloc),
        times,
        most: TITLES / rows.len().max(1),
        stop: earlier(picture.end, picture.to),
        is_whole: true,
    };
    page.all(picture, rows, &ticks, bottom);
    page.finish()
}
