//! How many ground atoms or fluents there are, and where those of each predicate or function begin.

ghost use Rattle.std.specs.Prelude.{◌≡◌, ◌+◌, ◌<◌, ◌≤◌, ◌^◌, min, length, MatchResult};
ghost use Rattle.plus_expansion.specs.Objects.{extents_of, tuples};
ghost use Rattle.plus_expansion.specs.Numbers.{ground_names};
ghost use Rattle.plus_numbering.specs.Refusals.{IsOver};
ghost use Rattle.plus_numbering.specs.Tables.{context, starts_from};

use crate::extents::Extents;
use crate::faults::GroundFault;
use plus_expansion::Count;
use plus_tree::{Head, TypedName};
use std::alloc::Global;

// How many lists there are that take one object of each parameter's type, held at one more than `most`.
fn size(extents: &Extents<'_>, params: &[TypedName], most: u32) -> u32
    requires { most < 2 ^ 31 }
    ensures { result ≡ min (length (tuples (extents_of (context extents.now.typed.now) params.now))) (most + 1) }
{
    let mut size = 1;
    'params: for param in params {
        let len = extents.of_type(param.kind.name.bytes()).len() as u32;
        size = len.saturating_mul(size).min(most + 1);
    }
    size
}

/// Where the ground atoms or fluents of each of these predicates or functions begin among all, and
/// at the end how many there are. `TooMany` comes where there are more than `most`.
pub fn starts(
    alloc: Global,
    extents: &Extents<'_>,
    heads: &[Head],
    kind: Count,
    most: u32,
) -> Result<Vec<u32>, GroundFault>
    requires { most < 2 ^ 31 }
    ensures { MatchResult result
        (λ s. (s.items ≡ starts_from (context extents.now.typed.now) 0 heads.now)
        × (length (ground_names (context extents.now.typed.now) heads.now) ≤ most))
        (IsOver kind most (length (ground_names (context extents.now.typed.now) heads.now))) }
{
    let mut starts = Vec::new(alloc);
    let mut start = 0;
    'heads: for head in heads {
        starts.push(start)?;
        start += size(extents, head.params.as_slice(), most);
        if start > most {
            return Err(GroundFault::TooMany { kind, most });
        }
    }
    starts.push(start)?;
    Ok(starts)
}
