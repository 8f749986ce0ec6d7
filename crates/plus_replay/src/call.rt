//! What is wrong with the arguments of a call.

use itoa::Buffer;
use plus_numbering::Numbering;
use plus_tree::{Call, Name, TypedName};
use std::alloc::AllocError;

fn append_count(into: &mut Vec<u8>, count: usize) -> Result<(), AllocError> {
    let mut buffer = Buffer::new();
    into.extend_from_slice(buffer.format(count).as_bytes())
}

// Appends that an action takes more arguments than are given, or fewer.
fn append_counts(
    into: &mut Vec<u8>,
    action: &Name,
    wanted: usize,
    given: usize,
) -> Result<(), AllocError> {
    into.extend_from_slice(action.bytes())?;
    into.extend_from_slice(b" wants ")?;
    append_count(into, wanted)?;
    into.extend_from_slice(b" arguments and is given ")?;
    append_count(into, given)?;
    into.push(b'\n')?;
    Ok(())
}

// Appends that an argument is no object.
fn append_unknown(into: &mut Vec<u8>, argument: &Name) -> Result<(), AllocError> {
    into.extend_from_slice(b"no object is named ")?;
    into.extend_from_slice(argument.bytes())?;
    into.push(b'\n')?;
    Ok(())
}

// Appends that an argument is no object of its parameter's type.
fn append_argument(
    into: &mut Vec<u8>,
    argument: &Name,
    param: &TypedName,
) -> Result<(), AllocError> {
    into.extend_from_slice(b"no object of the type ")?;
    into.extend_from_slice(param.kind.name.bytes())?;
    into.extend_from_slice(b": ")?;
    into.extend_from_slice(argument.bytes())?;
    into.push(b'\n')?;
    Ok(())
}

// The parameters of the action of this name.
fn params<'a>(numbering: &Numbering<'a>, name: &[u8]) -> Option<&'a [TypedName]> {
    let place = numbering.typed.actions.number(name)?;
    let schema = numbering.typed.domain.actions.as_slice().get(place)?;
    Some(schema.params.as_slice())
}

/// Appends the first thing that is wrong with the arguments of a call, where its action has a name of the domain:
/// that there are too many or too few, or which one is no object of its parameter's type.
pub fn append_wrong(
    into: &mut Vec<u8>,
    numbering: &Numbering<'_>,
    call: &Call,
) -> Result<(), AllocError> {
    let Some(params) = params(numbering, call.name.bytes()) else {
        return Ok(());
    };
    let arguments = call.args.as_slice();
    if params.len() != arguments.len() {
        return append_counts(into, &call.name, params.len(), arguments.len());
    }
    for (param, argument) in params.iter().zip(arguments) {
        if numbering.typed.objects.number(argument.bytes()).is_none() {
            return append_unknown(into, argument);
        }
        let object = numbering.object(argument.bytes());
        if !numbering.members(param.kind.name.bytes()).contains(&object) {
            return append_argument(into, argument, param);
        }
    }
    Ok(())
}
