//! The numbers of ground atoms and fluents.

ghost use Rattle.std.specs.Prelude.{◌≡◌, ℕ, ◌<◌, ◌≤◌, ◌^◌, map, length, get_or, nat_eq, MatchOption, IfOk};
ghost use Rattle.std.specs.List.{position_or_len};
ghost use Rattle.std.specs.Str.{bytes_eq};
ghost use Rattle.plus_expansion.specs.Objects.{extents_of, tuples};
ghost use Rattle.plus_expansion.specs.Numbers.{ground_names, number_of};
ghost use Rattle.plus_numbering.specs.Tables.{context, starts_from, list_numbers};

use crate::extents::Extents;
use plus_tree::{Head, TypedName};
use plus_types::known::Declared;
use std::alloc::{AllocError, Global};

// The numbers of the lists of the types of parameters.
fn params_kinds(
    alloc: Global,
    extents: &Extents<'_>,
    params: &[TypedName],
) -> Result<Vec<usize>, AllocError>
    ensures { IfOk result (λ ks. ks.items ≡ list_numbers extents.now.names params.now) }
{
    let mut kinds = Vec::new(alloc);
    'params: for param in params {
        kinds.push(extents.number(param.kind.name.bytes()))?;
    }
    Ok(kinds)
}

/// The numbers of the lists of the types of the parameters of each of these predicates or functions.
pub fn kinds(
    alloc: Global,
    extents: &Extents<'_>,
    heads: &[Head],
) -> Result<Vec<Vec<usize>>, AllocError>
    ensures { IfOk result (λ ks. map (λ k. k.items) ks.items
        ≡ map (λ h. list_numbers extents.now.names h.params) heads.now) }
{
    let mut kinds = Vec::new(alloc);
    'heads: for head in heads {
        kinds.push(params_kinds(alloc, extents, head.params.as_slice())?)?;
    }
    Ok(kinds)
}

// The place of an object in a list of objects that rise. In a list of all objects it is the object's own number.
fn place_in(list: &[u32], object: u32) -> Option<usize>
    requires { (i j : ℕ) → i ≤ j → j < length list.now → get_or list.now i 0 ≤ get_or list.now j 0 }
    ensures { MatchOption result (position_or_len (nat_eq object) list.now ≡ length list.now)
        (λ i. (i < length list.now) × (get_or list.now i 0 ≡ object)) }
{
    let own = object as usize;
    if own < list.len() {
        if list[own] == object {
            return Some(own);
        }
    }
    match list.binary_search(&object) {
        Ok(place) => Some(place),
        Err(_) => None,
    }
}

// The place of these objects among the lists that take one object of each parameter's type, of which
// there are `size`; where they are none of these, `size`.
#[inline(always)]
fn rank(
    extents: &Extents<'_>,
    params: &[TypedName],
    kinds: &[usize],
    size: u32,
    objects: &[u32],
) -> u32
    requires kinds { kinds.now ≡ list_numbers extents.now.names params.now }
    requires size { size ≡ length (tuples (extents_of (context extents.now.typed.now) params.now)) }
    ensures { result ≡ position_or_len (bytes_eq objects.now) (tuples (extents_of (context extents.now.typed.now) params.now)) }
{
    let mut rank = 0;
    if size == 0 || objects.len() != params.len() {
        return size;
    }
    'params: for (i, param) in params.iter().enumerate() {
        let extent = extents.numbered(kinds[i], param.kind.name.bytes());
        match place_in(extent, objects[i]) {
            Some(place) => rank = rank * extent.len() as u32 + place as u32,
            None => return size,
        }
    }
    rank
}

/// The number of the ground atom or fluent of the predicate or function with a name, and of these
/// objects. Where there is none, how many there are.
#[inline(always)]
pub fn number(
    extents: &Extents<'_>,
    declared: &Declared<'_>,
    starts: &[u32],
    kinds: &[Vec<usize>],
    name: &[u8],
    objects: &[u32],
) -> u32
    requires starts { starts.now ≡ starts_from (context extents.now.typed.now) 0 declared.now.heads.now }
    requires kinds { map (λ ks. ks.items) kinds.now ≡ map (λ h. list_numbers extents.now.names h.params) declared.now.heads.now }
    requires few { length (ground_names (context extents.now.typed.now) declared.now.heads.now) < 2 ^ 31 }
    ensures { result ≡ number_of (context extents.now.typed.now)
        declared.now.heads.now name.now objects.now }
{
    let all = starts[declared.heads.len()];
    match declared.names.number(name) {
        None => all,
        Some(place) => {
            let first = starts[place];
            let size = starts[place + 1] - first;
            let rank = rank(
                extents,
                declared.heads[place].params.as_slice(),
                &kinds[place],
                size,
                objects,
            );
            if rank < size { first + rank } else { all }
        }
    }
}
