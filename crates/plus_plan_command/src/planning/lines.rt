//! What is written where no plan is found.
ghost use Rattle.std.specs.Prelude.{◌≡◌, ◌++◌, IfOk, OnOk};
ghost use Rattle.plus_plan_command.specs.Planning.Lines.{numbered, none_text, spent_text};

use itoa::Buffer;
use std::alloc::{AllocError, Global};

// Appends a number between two texts.
fn put_numbered(
    text: &mut Vec<u8>,
    front: &[u8],
    number: u64,
    back: &[u8],
) -> Result<(), AllocError>
    ensures { OnOk result (text.new.items ≡ text.old.items ++ numbered front.now number back.now) }
{
    let mut buffer = Buffer::new();
    text.extend_from_slice(front)?;
    text.extend_from_slice(buffer.format(number).as_bytes())?;
    text.extend_from_slice(back)?;
    Ok(())
}

/// No list of so many decisions is a plan, and so many are beyond a limit.
pub fn none_line(alloc: Global, decisions: u32, beyond: u64) -> Result<Vec<u8>, AllocError>
    ensures { IfOk result (λ text. text.items ≡ none_text decisions beyond) }
{
    let mut text = Vec::new(alloc);
    put_numbered(&mut text, b"none: ", u64::from(decisions), b" decisions")?;
    put_numbered(&mut text, b", ", beyond, b" beyond\n")?;
    Ok(text)
}

/// So many tries do not suffice.
pub fn spent_line(alloc: Global, tried: u64) -> Result<Vec<u8>, AllocError>
    ensures { IfOk result (λ text. text.items ≡ spent_text tried) }
{
    let mut text = Vec::new(alloc);
    put_numbered(&mut text, b"spent: ", tried, b" tried\n")?;
    Ok(text)
}
