//! The line that a place stands in, and a mark under it.

ghost use Rattle.std.specs.Prelude.{◌≡◌, ◌+◌, ◌^◌, ◌<◌, ◌≤◌, ◌++◌, length, map, replicate, OnOk};
ghost use Rattle.plus_explain.specs.Marked.{shown_from, shown_to, shown_byte, dots, mark_width, columns_before, line_text, mark_text, marked_text};

use std::alloc::AllocError;

/// The most bytes of a line that are shown.
const WIDTH: usize = 100;

/// How much is shown before the mark of a line that is not shown whole.
const LEAD: usize = 40;

// The bytes of a line that are shown.
#[derive(Clone, Copy)]
struct Window {
    from: usize,
    to: usize,
}

// What is shown of a line of this length where the place `at` is marked.
fn window_at(length: usize, at: usize) -> Window
    requires { at ≤ length }
    ensures from { result.from ≡ shown_from length at }
    ensures to { result.to ≡ shown_to length at }
    ensures before { result.from ≤ at }
    ensures behind { at ≤ result.to }
    ensures within { result.to ≤ length }
    ensures few { result.to ≤ result.from + 100 }
{
    let from = if length <= WIDTH || at < WIDTH - LEAD {
        0
    } else {
        at - LEAD
    };
    let to = if length - from <= WIDTH {
        length
    } else {
        from + WIDTH
    };
    Window { from, to }
}

// How a byte is shown, in one column: a tab as a blank, and what is no printable ASCII as `?`.
fn shown(byte: u8) -> u8
    ensures { result ≡ shown_byte byte }
{
    match byte {
        b' '..=b'~' => byte,
        b'\t' => b' ',
        _ => b'?',
    }
}

fn append_shown(into: &mut Vec<u8>, bytes: &[u8]) -> Result<(), AllocError>
    ensures { OnOk result (into.new.items ≡ into.old.items ++ map shown_byte bytes.now) }
{
    for byte in bytes {
        into.push(shown(*byte))?;
    }
    Ok(())
}

fn append_times(into: &mut Vec<u8>, byte: u8, count: usize) -> Result<(), AllocError>
    ensures { OnOk result (into.new.items ≡ into.old.items ++ replicate count byte) }
{
    for _column in 0..count {
        into.push(byte)?;
    }
    Ok(())
}

// Three points where a line is cut.
fn append_dots(into: &mut Vec<u8>, is_cut: bool) -> Result<(), AllocError>
    ensures { OnOk result (into.new.items ≡ into.old.items ++ dots is_cut) }
{
    if is_cut {
        into.extend_from_slice(b"...")
    } else {
        Ok(())
    }
}

// How many columns are marked, of which there is one at least.
fn mark_width(at: usize, end: usize, to: usize) -> usize
    ensures { result ≡ mark_width at «end» to }
{
    let width = end.min(to).saturating_sub(at);
    width.max(1)
}

// Appends what is shown of a line.
#[tactic(auto, using(std::proofs::lemmas::List::append_assoc))]
fn append_line(into: &mut Vec<u8>, line: &[u8], from: usize, to: usize) -> Result<(), AllocError>
    requires order { from ≤ to }
    requires within { to ≤ length line.now }
    ensures { OnOk result (into.new.items ≡ into.old.items ++ line_text line.now from to) }
{
    append_dots(into, from > 0)?;
    append_shown(into, &line[from..to])?;
    append_dots(into, to < line.len())?;
    into.push(b'\n')?;
    Ok(())
}

// Appends a mark of this width behind so many blanks.
#[tactic(auto, using(std::proofs::lemmas::List::append_assoc))]
fn append_mark(into: &mut Vec<u8>, before: usize, width: usize) -> Result<(), AllocError>
    ensures { OnOk result (into.new.items ≡ into.old.items ++ mark_text before width) }
{
    append_times(into, b' ', before)?;
    append_times(into, b'^', width)?;
    into.push(b'\n')?;
    Ok(())
}

// How many columns stand before the mark.
fn columns_before(from: usize, at: usize) -> usize
    requires order { from ≤ at }
    requires small { at < 2 ^ 63 }
    ensures { result ≡ columns_before from at }
{
    if from > 0 { 3 + (at - from) } else { at }
}

/// Appends the line, or what is shown of it, and below it a mark under its bytes from `at` to `end`, or
/// under as many of them as are shown.
#[tactic(auto, using(std::proofs::lemmas::List::append_assoc))]
pub fn append_marked(
    into: &mut Vec<u8>,
    line: &[u8],
    at: usize,
    end: usize,
) -> Result<(), AllocError>
    requires { at ≤ length line.now }
    ensures { OnOk result (into.new.items ≡ into.old.items ++ marked_text line.now at «end») }
{
    let Window { from, to } = window_at(line.len(), at);
    append_line(into, line, from, to)?;
    append_mark(into, columns_before(from, at), mark_width(at, end, to))
}
