//! The labels of ground atoms and fluents.

ghost use Rattle.std.specs.Prelude.{◌≡◌, ◌<◌, ◌∷◌, ◌++◌, [], map, length, slice_index_or, IfOk, OnOk};
ghost use Rattle.plus_expansion.specs.Objects.{extents_of, tuples, object_names};
ghost use Rattle.plus_expansion.specs.Numbers.{spaced, label_of, ground_labels};
ghost use Rattle.plus_numbering.specs.Tables.{context, starts_from, list_numbers};

use crate::extents::Extents;
use plus_state::Label;
use plus_tree::{Head, TypedName};
use smallvec::SmallVec;
use std::alloc::{AllocError, Global};

// How the labels of this name begin.
#[inline(always)]
fn opening(alloc: Global, name: &[u8]) -> Result<SmallVec<u8, 24>, AllocError>
    ensures { IfOk result (λ text. text.items ≡ 40 ∷ name.now) }
{
    let mut text = SmallVec::new(alloc);
    text.push(b'(')?;
    text.extend_from_slice(name)?;
    Ok(text)
}

// The label that begins so, with the names of these objects.
#[inline(always)]
fn spell(
    extents: &Extents<'_>,
    mut text: SmallVec<u8, 24>,
    objects: &[u32],
) -> Result<Label, AllocError>
    ensures { IfOk result (λ l. l ≡ text.items
        ++ (spaced (object_names (context extents.now.typed.now) objects.now) ++ 41 ∷ [])) }
{
    'objects: for object in objects {
        text.push(b' ')?;
        text.extend_from_slice(extents.name(*object))?;
    }
    text.push(b')')?;
    Ok(Label::of_text(text))
}

/// The label of a ground form: the name, and the names of these objects.
pub fn label(
    alloc: Global,
    extents: &Extents<'_>,
    name: &[u8],
    objects: &[u32],
) -> Result<Label, AllocError>
    ensures { IfOk result (λ l. l ≡ label_of name.now
        (object_names (context extents.now.typed.now) objects.now)) }
{
    spell(extents, opening(alloc, name)?, objects)
}

// Makes `objects` the list at a place among those that take one object of each parameter's type, of which
// there are `size`.
fn objects_at(
    extents: &Extents<'_>,
    params: &[TypedName],
    kinds: &[usize],
    size: u32,
    place: u32,
    objects: &mut Vec<u32>,
) -> Result<(), AllocError>
    requires kinds { kinds.now ≡ list_numbers extents.now.names params.now }
    requires size { size ≡ length (tuples (extents_of (context extents.now.typed.now) params.now)) }
    requires within { place < size }
    ensures { OnOk result (objects.new.items
        ≡ slice_index_or (tuples (extents_of (context extents.now.typed.now) params.now)) place []) }
{
    let mut step = size;
    let mut left = place;
    objects.clear();
    'params: for (i, param) in params.iter().enumerate() {
        let extent = extents.numbered(kinds[i], param.kind.name.bytes());
        step /= extent.len() as u32;
        objects.push(extent[(left / step) as usize])?;
        left %= step;
    }
    Ok(())
}

// Adds the labels of the ground atoms or fluents of one predicate or function, of which there are `size`.
fn add_labels(
    alloc: Global,
    extents: &Extents<'_>,
    head: &Head,
    kinds: &[usize],
    size: u32,
    labels: &mut Vec<Label>,
) -> Result<(), AllocError>
    requires kinds { kinds.now ≡ list_numbers extents.now.names head.now.params }
    requires size { size ≡ length (tuples (extents_of (context extents.now.typed.now) head.now.params)) }
    ensures { OnOk result (labels.new.items ≡ labels.old.items
        ++ map (λ t. label_of head.now.name.name (object_names (context extents.now.typed.now) t))
        (tuples (extents_of (context extents.now.typed.now) head.now.params))) }
{
    let mut objects = Vec::new(alloc);
    let begun = opening(alloc, head.name.name.bytes())?;
    'places: for place in 0..size {
        let params = head.params.as_slice();
        objects_at(extents, params, kinds, size, place, &mut objects)?;
        let text = SmallVec::from_slice(alloc, begun.as_slice())?;
        labels.push(spell(extents, text, &objects)?)?;
    }
    Ok(())
}

/// The labels of the ground atoms or fluents of these predicates or functions, by their numbers.
pub fn labels(
    alloc: Global,
    extents: &Extents<'_>,
    heads: &[Head],
    starts: &[u32],
    kinds: &[Vec<usize>],
) -> Result<Vec<Label>, AllocError>
    requires kinds { map (λ ks. ks.items) kinds.now ≡ map (λ h. list_numbers extents.now.names h.params) heads.now }
    requires starts { starts.now ≡ starts_from (context extents.now.typed.now) 0 heads.now }
    ensures { IfOk result (λ ls. ls.items ≡ ground_labels (context extents.now.typed.now) heads.now) }
{
    let all = starts.last().copied().unwrap_or(0);
    let mut labels = Vec::with_capacity(alloc, all as usize)?;
    'heads: for (i, head) in heads.iter().enumerate() {
        let size = starts[i + 1] - starts[i];
        add_labels(alloc, extents, head, &kinds[i], size, &mut labels)?;
    }
    Ok(labels)
}
