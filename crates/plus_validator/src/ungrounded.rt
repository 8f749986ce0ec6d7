//! Why a pair is not grounded, as it is told.
ghost use Rattle.std.specs.Prelude.{◌≡◌};
ghost use Rattle.plus_validator.specs.Validates.{kind_meant, file_meant, fault_meant};

use plus_expansion::Count;
use plus_numbering::GroundFault;
use plus_report::{Early, Kinds, Text};
use plus_types::File;

fn kind_of(count: Count) -> Kinds
    ensures { result ≡ kind_meant count }
{
    match count {
        Count::Objects => Kinds::Objects,
        Count::Atoms => Kinds::Atoms,
        Count::Fluents => Kinds::Fluents,
        Count::Processes => Kinds::Processes,
        Count::Events => Kinds::Events,
        Count::Actions => Kinds::Actions,
        Count::Nodes => Kinds::Nodes,
    }
}

fn text_of(file: File) -> Text
    ensures { result ≡ file_meant file }
{
    match file {
        File::Domain => Text::Domain,
        File::Problem => Text::Problem,
    }
}

/// What is told of a fault, where it is no want of memory.
pub fn early_of(fault: GroundFault) -> Option<Early>
    ensures { result ≡ fault_meant fault }
{
    match fault {
        GroundFault::TooMany { kind, most } => Some(Early::TooMany {
            kind: kind_of(kind),
            most,
        }),
        GroundFault::Literal { file, span } => Some(Early::Literal {
            text: text_of(file),
            start: span.start,
            end: span.end,
        }),
        GroundFault::Memory => None,
    }
}
