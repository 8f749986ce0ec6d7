//! Bytes that wait before a sink, so that it is not handed short pieces one by one.

ghost use Rattle.std.specs.Prelude.{◌≡◌, [], ◌++◌, OnOk};
ghost use Rattle.plus_report.specs.Puts.{Puts};

use arrayvec::ArrayVec;
use plus_io::{Failed, Sink, write_all};

/// What is put and not yet handed to the sink.
pub type Waiting = ArrayVec<u8, 512>;

/// Hands all that waits to the sink.
pub fn flush<O: Sink>(out: &mut O, waiting: &mut Waiting) -> Result<(), Failed>
    ensures puts { Puts O.taken O.faults out.old out.new waiting.old.items waiting.new.items
        [] result }
    ensures empty { OnOk result (waiting.new.items ≡ []) }
{
    write_all(out, waiting.as_slice())?;
    waiting.clear();
    Ok(())
}

/// Puts a text behind those that wait. One that is too long to wait is handed to the sink.
pub fn put<O: Sink>(out: &mut O, waiting: &mut Waiting, text: &[u8]) -> Result<(), Failed>
    ensures { Puts O.taken O.faults out.old out.new waiting.old.items waiting.new.items
        text.now result }
{
    if let Err(_) = waiting.try_extend_from_slice(text) {
        flush(out, waiting)?;
        return write_all(out, text);
    }
    Ok(())
}

/// Puts two texts, one after the other.
pub fn put_both<O: Sink>(
    out: &mut O,
    waiting: &mut Waiting,
    first: &[u8],
    second: &[u8],
) -> Result<(), Failed>
    ensures { Puts O.taken O.faults out.old out.new waiting.old.items waiting.new.items
        (first.now ++ second.now) result }
{
    put(out, waiting, first)?;
    put(out, waiting, second)
}
