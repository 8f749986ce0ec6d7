//! Reads tokens that have no meaning here.

ghost use Rattle.std.specs.Prelude.{◌≡◌, ◌<◌, length, OnOk};
ghost use Rattle.plus_parser.specs.Phrases.Reading.{Gives};
ghost use Rattle.plus_parser.specs.Balanced.{skipped};

use crate::phrases::reader::Reader;
use crate::phrases::words::{is_close, is_open};
use plus_tree::{Span, TextFault};

/// The tokens up to the closing parenthesis, in which each parenthesis has its other one.
pub fn skip(reader: &mut Reader<'_>, room: u8) -> Result<Span, TextFault>
    ensures gives { Gives (λ s. s) reader.new result (skipped room reader.old) }
    ensures shorter { OnOk result (length reader.new < length reader.old) }
{
    let mut left = room;
    let mut inside: u8 = 0;
    'token: loop {
        let token = reader.next(left)?;
        if is_open(token.kind) {
            left -= 1;
            inside += 1;
            continue;
        }
        if !is_close(token.kind) {
            continue;
        }
        if inside == 0 {
            return Ok(token.span);
        }
        left += 1;
        inside -= 1;
    }
}
