//! Bytes that wait before a sink, so that it is handed few and long pieces.
//! Each call here puts one text behind them.
ghost use Rattle.std.specs.Prelude.{◌≡◌, ◌<◌, ℕ, [], ◌++◌, decimal, OnOk, pos};
ghost use Rattle.std.specs.Fmt.{signed_decimal};
ghost use Rattle.plus_report.specs.Puts.{Puts};
ghost use Rattle.plus_report.specs.Text.{newline, bottom_text, fraction_text};

use arrayvec::ArrayVec;
use itoa::Buffer;
use plus_io::{Failed, Sink, write_all};
use plus_number::exact::Exact;

/// What is put and not yet handed to the sink.
pub type Waiting = ArrayVec<u8, 128>;

/// Hands all that waits to the sink.
pub fn flush<O: Sink>(out: &mut O, waiting: &mut Waiting) -> Result<(), Failed>
    ensures puts { Puts O.taken O.faults out.old out.new waiting.old.items waiting.new.items
        [] result }
    ensures empty { OnOk result (waiting.new.items ≡ []) }
{
    write_all(out, waiting.as_slice())?;
    waiting.clear();
    Ok(())
}

#[inline(always)]
pub fn put<O: Sink>(out: &mut O, waiting: &mut Waiting, text: &[u8]) -> Result<(), Failed>
    ensures { Puts O.taken O.faults out.old out.new waiting.old.items waiting.new.items
        text.now result }
{
    if let Err(_) = waiting.try_extend_from_slice(text) {
        flush(out, waiting)?;
        return write_all(out, text);
    }
    Ok(())
}

pub fn put_natural<O: Sink>(out: &mut O, waiting: &mut Waiting, n: u64) -> Result<(), Failed>
    ensures { Puts O.taken O.faults out.old out.new waiting.old.items waiting.new.items
        (decimal n) result }
{
    let mut buffer = Buffer::new();
    put(out, waiting, buffer.format(n).as_bytes())
}

pub fn put_integer<O: Sink>(out: &mut O, waiting: &mut Waiting, n: i64) -> Result<(), Failed>
    ensures { Puts O.taken O.faults out.old out.new waiting.old.items waiting.new.items
        (signed_decimal n) result }
{
    let mut buffer = Buffer::new();
    put(out, waiting, buffer.format(n).as_bytes())
}

/// Puts a text and the end of its line.
pub fn put_end<O: Sink>(out: &mut O, waiting: &mut Waiting, text: &[u8]) -> Result<(), Failed>
    ensures { Puts O.taken O.faults out.old out.new waiting.old.items waiting.new.items
        (text.now ++ newline) result }
{
    put(out, waiting, text)?;
    put(out, waiting, b"\n")
}

/// Puts three texts, one after the other.
#[inline(always)]
pub fn put_three<O: Sink>(
    out: &mut O,
    waiting: &mut Waiting,
    first: &[u8],
    second: &[u8],
    third: &[u8],
) -> Result<(), Failed>
    ensures { Puts O.taken O.faults out.old out.new waiting.old.items waiting.new.items
        (first.now ++ second.now ++ third.now) result }
{
    put(out, waiting, first)?;
    put(out, waiting, second)?;
    put(out, waiting, third)
}

/// Puts a number between two texts.
pub fn put_numbered<O: Sink>(
    out: &mut O,
    waiting: &mut Waiting,
    before: &[u8],
    n: u64,
    after: &[u8],
) -> Result<(), Failed>
    ensures { Puts O.taken O.faults out.old out.new waiting.old.items waiting.new.items
        (before.now ++ decimal n ++ after.now) result }
{
    put(out, waiting, before)?;
    put_natural(out, waiting, n)?;
    put(out, waiting, after)
}

#[inline(always)]
fn put_bottom<O: Sink>(out: &mut O, waiting: &mut Waiting, bottom: u64) -> Result<(), Failed>
    ensures { Puts O.taken O.faults out.old out.new waiting.old.items waiting.new.items
        (bottom_text bottom) result }
{
    if bottom == 1 {
        return Ok(());
    }
    put(out, waiting, b"/")?;
    put_natural(out, waiting, bottom)
}

#[inline(always)]
pub fn put_fraction<Q: Exact, O: Sink>(
    out: &mut O,
    waiting: &mut Waiting,
    x: Q,
) -> Result<(), Failed>
    ensures { Puts O.taken O.faults out.old out.new waiting.old.items waiting.new.items
        (fraction_text (Q.value x)) result }
{
    let (top, bottom) = x.parts();
    put_integer(out, waiting, top)?;
    put_bottom(out, waiting, bottom as u64)
}

/// Puts a fraction and the end of its line.
#[inline(always)]
pub fn put_fraction_end<Q: Exact, O: Sink>(
    out: &mut O,
    waiting: &mut Waiting,
    x: Q,
) -> Result<(), Failed>
    ensures { Puts O.taken O.faults out.old out.new waiting.old.items waiting.new.items
        (fraction_text (Q.value x) ++ newline) result }
{
    put_fraction(out, waiting, x)?;
    put(out, waiting, b"\n")
}
