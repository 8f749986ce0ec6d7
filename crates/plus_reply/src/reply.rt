//! What a command replies: a text, and the status that goes with it.

ghost use Rattle.std.specs.Prelude.{◌≡◌, ◌≤◌};
ghost use Rattle.plus_report.specs.Refusals.{early_text};
ghost use Rattle.plus_reply.specs.Reply.{TellsRefusal, Gives};

use crate::pair::pair::Refusal;
use crate::status::{status_for, tell};
use plus_io::{MemSink, Sink};
use plus_report::{Early, Status, write_early};
use std::alloc::{AllocError, Global};

/// A text that a command writes, and its status.
#[derive(Drop)]
pub struct Reply {
    pub status: Status,
    pub text: Vec<u8>,
}

/// Why a command has nothing to write.
#[derive(Drop)]
pub enum Fault {
    /// A file was not read.
    ReadFault,
    /// Memory was wanting.
    NoMemory,
}

impl From<AllocError> for Fault {
    ghost use Rattle.plus_reply.specs.declared.reply.Fault.TheVariants.{NoMemory};

    ghost from_gives = { λ _ fault. fault ≡ NoMemory };

    fn from(_: AllocError) -> Fault {
        Fault::NoMemory
    }
}

// The line of a refusal, with its status.
fn line(alloc: Global, early: &Early) -> Result<Reply, Fault>
    ensures { TellsRefusal (Refusal.Early early.now) result }
{
    let mut text = MemSink::new(alloc, usize::MAX);
    if let Err(_) = write_early(&mut text, early) {
        return Err(Fault::NoMemory);
    }
    match Vec::from_slice(alloc, text.bytes()) {
        Ok(text) => Ok(Reply {
            status: status_for(early),
            text,
        }),
        Err(_) => Err(Fault::NoMemory),
    }
}

/// Tells a refusal.
pub fn refused(alloc: Global, refusal: Refusal) -> Result<Reply, Fault>
    ensures { TellsRefusal refusal result }
{
    match refusal {
        Refusal::Early(early) => line(alloc, &early),
        Refusal::ReadFault => Err(Fault::ReadFault),
        Refusal::NoMemory => Err(Fault::NoMemory),
    }
}

/// Writes a reply, and answers its status.
pub fn give<O: Sink>(out: &mut O, reply: &Result<Reply, Fault>) -> Status
    ensures gives { Gives reply.now (O.taken out.old) (O.taken out.new) (O.faults out.old) (O.faults out.new) result }
    ensures no_fall { O.faults out.old ≤ O.faults out.new }
{
    match reply {
        Ok(reply) => tell(out, &reply.text, reply.status),
        Err(Fault::ReadFault) => Status::ReadFault,
        Err(Fault::NoMemory) => Status::NoMemory,
    }
}
