//! Numbers as texts: exact ones for titles, rounded ones for places on the page.
ghost use Rattle.std.specs.Prelude.{◌≡◌, ◌<◌, ◌++◌, codes, decimal, OnOk};
ghost use Rattle.std.specs.Fmt.{signed_decimal};
ghost use Rattle.plus_number.specs.Frac.{fraction_of};
ghost use Rattle.plus_report.specs.Text.{bottom_text, fraction_text};

use itoa::Buffer;
use plus_number::exact::Exact;
use plus_number::frac::Frac64;
use std::alloc::AllocError;

/// Appends a number.
pub fn append_number(into: &mut Vec<u8>, number: u64) -> Result<(), AllocError>
    ensures { OnOk result (into.new.items ≡ into.old.items ++ decimal number) }
{
    let mut buffer = Buffer::new();
    into.extend_from_slice(buffer.format(number).as_bytes())
}

fn append_top(into: &mut Vec<u8>, top: i64) -> Result<(), AllocError>
    ensures { OnOk result (into.new.items ≡ into.old.items ++ signed_decimal top) }
{
    let mut buffer = Buffer::new();
    into.extend_from_slice(buffer.format(top).as_bytes())
}

#[tactic(auto, using(std::proofs::lemmas::List::append_assoc))]
fn append_over(into: &mut Vec<u8>, bottom: u64) -> Result<(), AllocError>
    ensures { OnOk result (into.new.items ≡ into.old.items ++ (codes "/" ++ decimal bottom)) }
{
    into.extend_from_slice(b"/")?;
    append_number(into, bottom)
}

fn append_bottom(into: &mut Vec<u8>, bottom: u64) -> Result<(), AllocError>
    ensures { OnOk result (into.new.items ≡ into.old.items ++ bottom_text bottom) }
{
    if bottom == 1 {
        return Ok(());
    }
    append_over(into, bottom)
}

#[tactic(auto, using(std::proofs::lemmas::List::append_assoc))]
fn append_parts(into: &mut Vec<u8>, top: i64, bottom: u64) -> Result<(), AllocError>
    ensures { OnOk result (into.new.items ≡ into.old.items ++ (signed_decimal top ++ bottom_text bottom)) }
{
    append_top(into, top)?;
    append_bottom(into, bottom)
}

/// Appends a fraction, exactly as a report writes it.
pub fn append_fraction(into: &mut Vec<u8>, x: Frac64) -> Result<(), AllocError>
    ensures { OnOk result (into.new.items ≡ into.old.items ++ fraction_text (fraction_of x)) }
{
    let (top, bottom) = x.parts();
    append_parts(into, top, bottom as u64)
}

/// Appends tenths as a number with at most one place behind its point.
pub fn append_tenths(into: &mut Vec<u8>, tenths: i64) -> Result<(), AllocError> {
    let size = tenths.unsigned_abs();
    if tenths < 0 {
        into.push(b'-')?;
    }
    append_number(into, size / 10)?;
    append_point(into, size % 10)
}

// Appends a point and a digit, unless that is 0.
fn append_point(into: &mut Vec<u8>, digit: u64) -> Result<(), AllocError> {
    if digit == 0 {
        return Ok(());
    }
    into.push(b'.')?;
    append_number(into, digit)
}

/// Appends a whole number of units, of which so many digits stand behind the point.
pub fn append_decimal(into: &mut Vec<u8>, units: u128, digits: u32) -> Result<(), AllocError> {
    let scale = power_of_ten(digits);
    let mut buffer = Buffer::new();
    into.extend_from_slice(buffer.format(units / scale).as_bytes())?;
    if digits == 0 {
        return Ok(());
    }
    into.push(b'.')?;
    append_padded(into, units % scale, digits)
}

/// 10 to this power, for powers up to 38.
pub fn power_of_ten(digits: u32) -> u128
    ensures { 0 < result }
{
    let mut power = 1u128;
    'digits: for _digit in 0..digits.min(38) {
        power = power.saturating_mul(10);
    }
    power.max(1)
}

// Appends a number with zeros before it, so that it has so many digits.
fn append_padded(into: &mut Vec<u8>, number: u128, digits: u32) -> Result<(), AllocError> {
    let mut buffer = Buffer::new();
    let text = buffer.format(number).as_bytes();
    'zeros: for _zero in text.len()..digits as usize {
        into.push(b'0')?;
    }
    into.extend_from_slice(text)
}

/// Appends a value for a label: exactly where that is short, or else rounded to thousandths, behind `~`.
pub fn append_short(into: &mut Vec<u8>, x: Frac64, most: usize) -> Result<(), AllocError> {
    let mut exact = Vec::new(*into.allocator());
    append_fraction(&mut exact, x)?;
    if exact.len() <= most {
        return into.extend_from_slice(&exact);
    }
    append_rounded(into, x)
}

fn append_rounded(into: &mut Vec<u8>, x: Frac64) -> Result<(), AllocError> {
    let (top, bottom) = x.parts();
    let size = top.unsigned_abs() as u128;
    let bottom = (bottom.unsigned_abs() as u128).max(1);
    let thousandths = size.saturating_mul(1000).saturating_add(bottom / 2) / bottom;
    into.push(b'~')?;
    if top < 0 {
        into.push(b'-')?;
    }
    append_decimal(into, thousandths, 3)
}
