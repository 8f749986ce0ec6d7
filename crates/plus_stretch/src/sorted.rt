//! Roots in order.
ghost use Rattle.std.specs.Prelude.{◌≡◌, ◌≤◌, [], ◌∷◌, ◌++◌, length, map, None, option_map, IfOk, if◌then◌else◌};
ghost use Rattle.plus_fraction.specs.Fraction.{Fraction};
ghost use Rattle.plus_stretch.specs.Tests.{Whose};
ghost use Rattle.plus_stretch.specs.Crossings.{rising_below};
ghost use Rattle.plus_stretch.specs.Marked.{roots_of, marks_of, IsMarked, AreAscending, UpTo};
ghost use Rattle.plus_stretch.specs.Thinned.{is_kept as is_kept_of, thinned};

use crate::mark::Mark;
use plus_crossing::crossings::is_below;
use plus_number::exact::Exact;
use std::alloc::AllocError;

/// Whether a root is below the bound and not the one before it, of roots that do not fall.
pub fn is_kept<Q: Exact>(before: Option<Q>, root: Q, bound: Q) -> bool
    ensures { result ≡ is_kept_of (Q.value bound) (option_map Q.value before) (Q.value root) }
{
    match before {
        None => is_below(root, bound),
        Some(b) => is_below(b, root) && is_below(root, bound),
    }
}

/// Appends a root, if it is kept.
pub fn append_if<Q: Exact>(into: &mut Vec<Q>, root: Q, keep: bool) -> Result<(), AllocError>
    ensures { IfOk result (λ _. map Q.value into.new.items
        ≡ map Q.value into.old.items ++ (if keep then Q.value root ∷ [] else [])) }
{
    if keep {
        into.push(root)?;
    }
    Ok(())
}

// Puts the roots below the bound, of roots that do not fall, each once, in place of others.
fn thin<Q: Exact>(sorted: &[Mark<Q>], bound: Q, roots: &mut Vec<Q>) -> Result<(), AllocError>
    ensures { IfOk result (λ _. map Q.value roots.new.items ≡ thinned (Q.value bound) None (map (λ m. Q.value m.at) sorted.now)) }
{
    roots.clear();
    let mut before: Option<Q> = None;
    'each: for mark in sorted {
        append_if(roots, mark.at, is_kept(before, mark.at, bound))?;
        before = Some(mark.at);
    }
    Ok(())
}

/// Sorts marks by their roots, and puts the different roots below a bound, from the least, in place of others.
pub fn rising<Q: Exact>(
    marks: &mut Vec<Mark<Q>>,
    bound: Q,
    different: &mut Vec<Q>,
) -> Result<(), AllocError>
    ensures different { IfOk result (λ _. map Q.value different.new.items ≡ rising_below (Q.value bound) (roots_of (marks_of Q.value marks.old.items))) }
    ensures kept { (x : Fraction) (w : Whose) → IsMarked x w (marks_of Q.value marks.old.items) → IsMarked x w (marks_of Q.value marks.new.items) }
    ensures no_other { (x : Fraction) (w : Whose) → IsMarked x w (marks_of Q.value marks.new.items) → IsMarked x w (marks_of Q.value marks.old.items) }
    ensures ascending { AreAscending (roots_of (marks_of Q.value marks.new.items)) }
{
    marks.sort_unstable_by(|a, b| a.at.order(b.at));
    thin(marks, bound, different)
}

/// How many of these marks, whose roots do not fall, have a root that is not above this one.
pub fn up_to<Q: Exact>(marks: &[Mark<Q>], root: Q) -> usize
    ensures first { UpTo (Q.value root) (roots_of (marks_of Q.value marks.now)) result }
    ensures within { result ≤ length marks.now }
{
    let mut count = 0;
    'each: for mark in marks {
        if is_below(root, mark.at) {
            return count;
        }
        count += 1;
    }
    count
}
