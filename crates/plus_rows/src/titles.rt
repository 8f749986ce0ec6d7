//! What the titles of marks say. The times and the values in them are exact.
ghost use Rattle.std.specs.Prelude.{◌≡◌, ◌++◌, codes, decimal, OnOk};
ghost use Rattle.plus_number.specs.Frac.{fraction_of};
ghost use Rattle.plus_report.specs.Text.{fraction_text};
ghost use Rattle.plus_rows.specs.Titles.{point_title, times_text, span_text, bar_title, step_text, mark_title};

use crate::rows::{Bar, Mark, Point};
use crate::words::{append_fraction, append_number};
use plus_number::frac::Frac64;
use std::alloc::AllocError;

// Appends a text and a fraction.
#[tactic(auto, using(std::proofs::lemmas::List::append_assoc))]
fn append_with(into: &mut Vec<u8>, text: &[u8], x: Frac64) -> Result<(), AllocError>
    ensures { OnOk result (into.new.items ≡ into.old.items ++ (text.now ++ fraction_text (fraction_of x))) }
{
    into.extend_from_slice(text)?;
    append_fraction(into, x)
}

// Appends a text and a number.
#[tactic(auto, using(std::proofs::lemmas::List::append_assoc))]
fn append_counted(into: &mut Vec<u8>, text: &[u8], number: u64) -> Result<(), AllocError>
    ensures { OnOk result (into.new.items ≡ into.old.items ++ (text.now ++ decimal number)) }
{
    into.extend_from_slice(text)?;
    append_number(into, number)
}

// Appends two texts.
#[tactic(auto, using(std::proofs::lemmas::List::append_assoc))]
fn append_both(into: &mut Vec<u8>, text: &[u8], other: &[u8]) -> Result<(), AllocError>
    ensures { OnOk result (into.new.items ≡ into.old.items ++ (text.now ++ other.now)) }
{
    into.extend_from_slice(text)?;
    into.extend_from_slice(other)
}

/// Appends the title of a point.
#[tactic(auto, using(std::proofs::lemmas::List::append_assoc), unfolding(crate::specs::Titles::point_title))]
pub fn append_point_title(into: &mut Vec<u8>, point: Point) -> Result<(), AllocError>
    ensures { OnOk result (into.new.items ≡ into.old.items ++ point_title (fraction_of point.time) (fraction_of point.value)) }
{
    append_with(into, b"at ", point.time)?;
    append_with(into, b": ", point.value)
}

#[tactic(auto, using(std::proofs::lemmas::List::append_assoc), unfolding(crate::specs::Titles::span_text))]
fn append_span(into: &mut Vec<u8>, from: Frac64, to: Frac64) -> Result<(), AllocError>
    ensures { OnOk result (into.new.items ≡ into.old.items ++ span_text (fraction_of from) (fraction_of to)) }
{
    append_with(into, b"from ", from)?;
    append_with(into, b" to ", to)
}

#[tactic(auto, using(std::proofs::lemmas::List::append_assoc), unfolding(crate::specs::Titles::times_text))]
fn append_times(into: &mut Vec<u8>, count: u64) -> Result<(), AllocError>
    ensures { OnOk result (into.new.items ≡ into.old.items ++ times_text count) }
{
    if count == 1 {
        return Ok(());
    }
    append_number(into, count)?;
    into.extend_from_slice(b" times ")
}

/// Appends the title of a bar.
#[tactic(auto, using(std::proofs::lemmas::List::append_assoc), unfolding(crate::specs::Titles::bar_title))]
pub fn append_bar_title(into: &mut Vec<u8>, bar: Bar) -> Result<(), AllocError>
    ensures { OnOk result (into.new.items ≡ into.old.items ++ bar_title bar.count (fraction_of bar.from) (fraction_of bar.to)) }
{
    append_times(into, bar.count)?;
    append_span(into, bar.from, bar.to)
}

#[tactic(auto, using(std::proofs::lemmas::List::append_assoc), unfolding(crate::specs::Titles::step_text))]
fn append_step(into: &mut Vec<u8>, step: u64) -> Result<(), AllocError>
    ensures { OnOk result (into.new.items ≡ into.old.items ++ step_text step) }
{
    if step == 0 {
        return Ok(());
    }
    append_counted(into, b", step ", step)
}

// Appends the title of a mark of one thing.
#[tactic(auto, using(std::proofs::lemmas::List::append_assoc), unfolding(crate::specs::Titles::mark_title))]
fn append_single(into: &mut Vec<u8>, mark: &Mark) -> Result<(), AllocError>
    ensures { OnOk result (into.new.items ≡ into.old.items ++ mark_title (fraction_of mark.now.from) mark.now.step mark.now.name.items) }
{
    append_with(into, b"at ", mark.from)?;
    append_step(into, mark.step)?;
    append_both(into, b": ", &mark.name)
}

/// Appends the title of a mark: of one thing its time, its step and its name, or of several how many there are and from when to when.
#[tactic(auto, using(std::proofs::lemmas::List::append_assoc))]
pub fn append_mark_title(into: &mut Vec<u8>, mark: &Mark) -> Result<(), AllocError>
    ensures one { mark.now.count ≡ 1 → OnOk result (into.new.items ≡ into.old.items ++ mark_title (fraction_of mark.now.from) mark.now.step mark.now.name.items) }
    ensures several { (mark.now.count ≡ 1 → ⊥) → OnOk result (into.new.items ≡ into.old.items ++ (bar_title mark.now.count (fraction_of mark.now.from) (fraction_of mark.now.to) ++ (codes ", first " ++ mark.now.name.items))) }
{
    if mark.count == 1 {
        return append_single(into, mark);
    }
    let bar = Bar {
        from: mark.from,
        to: mark.to,
        count: mark.count,
    };
    append_bar_title(into, bar)?;
    append_both(into, b", first ", &mark.name)
}

/// Appends a word and a point: `greatest 100 at 23/6`.
#[tactic(auto, using(std::proofs::lemmas::List::append_assoc))]
pub fn append_extreme(into: &mut Vec<u8>, word: &[u8], point: Point) -> Result<(), AllocError>
    ensures { OnOk result (into.new.items ≡ into.old.items ++ (word.now ++ (fraction_text (fraction_of point.value) ++ (codes " at " ++ fraction_text (fraction_of point.time))))) }
{
    append_with(into, word, point.value)?;
    append_with(into, b" at ", point.time)
}

/// Appends a text and a time.
pub fn append_moment(into: &mut Vec<u8>, text: &[u8], time: Frac64) -> Result<(), AllocError>
    ensures { OnOk result (into.new.items ≡ into.old.items ++ (text.now ++ fraction_text (fraction_of time))) }
{
    append_with(into, text, time)
}
