//! A text that grows.
ghost use Rattle.std.specs.Prelude.{◌≡◌, ◌++◌, OnOk};
ghost use Rattle.plus_trial.specs.Farm.{numbered};

use itoa::Buffer;
use std::alloc::AllocError;

// Appends these bytes.
#[inline(always)]
pub fn put(text: &mut Vec<u8>, bytes: &[u8]) -> Result<(), AllocError>
    ensures { OnOk result (text.new.items ≡ text.old.items ++ bytes.now) }
{
    text.extend_from_slice(bytes)?;
    Ok(())
}

// Appends a number between two texts.
pub fn put_numbered(
    text: &mut Vec<u8>,
    front: &[u8],
    number: u64,
    back: &[u8],
) -> Result<(), AllocError>
    ensures { OnOk result (text.new.items ≡ text.old.items ++ numbered front.now number back.now) }
{
    let mut buffer = Buffer::new();
    put(text, front)?;
    put(text, buffer.format(number).as_bytes())?;
    put(text, back)
}
