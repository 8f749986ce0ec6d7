//! The names that a translation adds.

ghost use Rattle.std.specs.Prelude.{◌≡◌, ◌++◌, codes, IfOk, OnOk};
ghost use Rattle.plus_translation.specs.Renamed.{numeral, fresh_name};

use itoa::Buffer;
use plus_tree::Name;
use std::alloc::{AllocError, Global};

/// Appends the digits of a number, and none of 0.
#[tactic(auto, using(crate::proofs::NumeralLemmas::numeral_is))]
pub fn put_numeral(bytes: &mut Vec<u8>, number: u64) -> Result<(), AllocError>
    ensures { OnOk result (bytes.new.items ≡ bytes.old.items ++ numeral number) }
{
    if number == 0 {
        return Ok(());
    }
    let mut buffer = Buffer::new();
    bytes.extend_from_slice(buffer.format(number).as_bytes())
}

/// The name of the binding with this number in the event with that number.
pub fn fresh_name(alloc: Global, event: u64, number: u64) -> Result<Name, AllocError>
    ensures { IfOk result (λ name. name ≡ fresh_name event number) }
{
    let mut bytes = Vec::with_capacity(alloc, 16)?;
    bytes.extend_from_slice(b"pp-")?;
    put_numeral(&mut bytes, event)?;
    bytes.extend_from_slice(b"-")?;
    put_numeral(&mut bytes, number)?;
    Name::new(alloc, &bytes)
}
