//! The line that tells of a time that is no value.

ghost use Rattle.std.specs.Prelude.{◌≡◌, ◌++◌, decimal, codes, IfOk, OnOk};
ghost use Rattle.plus_number.specs.Frac.{fraction_of};
ghost use Rattle.plus_report.specs.Text.{bottom_text, fraction_text};
ghost use Rattle.plus_report.specs.Verdicts.{sign_text, operation_text};

use itoa::Buffer;
use plus_number::exact::Exact;
use plus_number::frac::Frac64;
use plus_state::term::{Overflow, Sign};
use std::alloc::{AllocError, Global};

// Puts the bottom of a fraction, where it is not 1.
fn put_bottom(text: &mut Vec<u8>, bottom: u64) -> Result<(), AllocError>
    ensures { OnOk result (text.new.items ≡ text.old.items ++ bottom_text bottom) }
{
    if bottom == 1 {
        return Ok(());
    }
    let mut buffer = Buffer::new();
    text.push(b'/')?;
    text.extend_from_slice(buffer.format(bottom).as_bytes())?;
    Ok(())
}

fn put_fraction(text: &mut Vec<u8>, value: Frac64) -> Result<(), AllocError>
    ensures { OnOk result (text.new.items ≡ text.old.items ++ fraction_text (fraction_of value)) }
{
    let (top, bottom) = value.parts();
    let mut buffer = Buffer::new();
    text.extend_from_slice(buffer.format(top).as_bytes())?;
    put_bottom(text, bottom as u64)
}

fn sign_text(sign: Sign) -> &'static [u8]
    ensures { result.now ≡ sign_text sign }
{
    match sign {
        Sign::Plus => b" + ",
        Sign::Minus => b" - ",
        Sign::Times => b" * ",
        Sign::Divide => b" / ",
    }
}

/// The line of a verdict that names an operation whose result is no value.
pub fn overflow_line(alloc: Global, overflow: &Overflow<Frac64>) -> Result<Vec<u8>, AllocError>
    ensures { IfOk result (λ line. line.items ≡ codes "beyond: number " ++ operation_text fraction_of overflow.now) }
{
    let mut line = Vec::new(alloc);
    line.extend_from_slice(b"beyond: number ")?;
    put_fraction(&mut line, overflow.left)?;
    line.extend_from_slice(sign_text(overflow.sign))?;
    put_fraction(&mut line, overflow.right)?;
    line.push(b'\n')?;
    Ok(line)
}
