//! The least root, and the marks at it.
ghost use Rattle.std.specs.Prelude.{◌≡◌, IfOk, option_map};
ghost use Rattle.plus_fraction.specs.Fraction.{compared};
ghost use Rattle.plus_stretch.specs.Marked.{mark_of, marks_of};
ghost use Rattle.plus_stretch.specs.Least.{lesser, at_lesser, LeastBelow};

use crate::mark::Mark;
use plus_crossing::crossings::is_below;
use plus_number::exact::Exact;
use std::alloc::AllocError;
use std::cmp::Ordering;

// The lesser of a moment and the root of a mark; the marks at the moment become those at the lesser of both.
fn lesser_with<Q: Exact>(mark: Mark<Q>, least: Q, here: &mut Vec<Mark<Q>>) -> Result<Q, AllocError>
    ensures least { IfOk result (λ found. Q.value found ≡ lesser (compared (Q.value mark.at) (Q.value least)) (Q.value mark.at) (Q.value least)) }
    ensures here { IfOk result (λ _. marks_of Q.value here.new.items ≡ at_lesser (compared (Q.value mark.at) (Q.value least)) (mark_of Q.value mark) (marks_of Q.value here.old.items)) }
{
    match mark.at.order(least) {
        Ordering::Less => {
            here.clear();
            here.push(mark)?;
            Ok(mark.at)
        }
        Ordering::Equal => {
            here.push(mark)?;
            Ok(least)
        }
        Ordering::Greater => Ok(least),
    }
}

/// The least root of marks, if it is below the bound: the marks at it stand in place of others then. That takes one
/// walk, where it would take many to put all marks in order.
pub fn least_below<Q: Exact>(
    marks: &[Mark<Q>],
    bound: Q,
    here: &mut Vec<Mark<Q>>,
) -> Result<Option<Q>, AllocError>
    ensures { IfOk result (λ found. LeastBelow (Q.value bound) (marks_of Q.value marks.now) (marks_of Q.value here.new.items) (option_map Q.value found)) }
{
    here.clear();
    let mut least = bound;
    'each: for mark in marks {
        least = lesser_with(*mark, least, here)?;
    }
    if is_below(least, bound) {
        Ok(Some(least))
    } else {
        Ok(None)
    }
}
