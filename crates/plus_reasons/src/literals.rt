//! Where the numbers of an operation stand that is beyond the numbers of the program.

use plus_expected::{File, Outline};
use plus_tokens::Kind;
use std::alloc::{AllocError, Global};

/// The fewest bytes of a number that is looked for: a shorter one stands in many places by chance.
const FEWEST: usize = 5;

// The operands of an operation, as a verdict writes them.
fn operands(verdict: &str) -> Option<(&str, &str)> {
    let operation = verdict.strip_prefix("beyond: number ")?;
    let (left, _) = operation.split_once(' ')?;
    let (_, right) = operation.rsplit_once(' ')?;
    Some((left, right))
}

// Appends the first place of a number in a text. Answers whether it stands there.
fn append_in(into: &mut Vec<u8>, file: File<'_>, number: &str) -> Result<bool, AllocError> {
    let alloc: Global = *into.allocator();
    let outline = Outline::read(alloc, file.text)?;
    for place in 0..outline.len() {
        if outline.has_kind(place, Kind::Number) && outline.is(place, number) {
            let why = format!(in alloc; "{number} stands here")?;
            file.append_place(into, outline.start(place), outline.end(place), &why)?;
            return Ok(true);
        }
    }
    Ok(false)
}

// Appends the first place of a number in the texts.
fn append_number(
    into: &mut Vec<u8>,
    files: &[Option<File<'_>>],
    number: &str,
) -> Result<(), AllocError> {
    if number.len() < FEWEST {
        return Ok(());
    }
    for file in files {
        if let Some(file) = file {
            if append_in(into, *file, number)? {
                return Ok(());
            }
        }
    }
    Ok(())
}

/// Appends where the operands of an operation stand in the texts, as they are written in its verdict: the first place of
/// each. A number that is worked out stands nowhere.
pub fn append_literals(
    into: &mut Vec<u8>,
    files: &[Option<File<'_>>],
    verdict: &str,
) -> Result<(), AllocError> {
    let Some((left, right)) = operands(verdict) else {
        return Ok(());
    };
    append_number(into, files, left)?;
    if left == right {
        return Ok(());
    }
    append_number(into, files, right)
}
