//! The roots of a condition in order.
ghost use Rattle.std.specs.Prelude.{◌≡◌, ◌<◌, ◌^◌, length, map, None, IfOk};
ghost use Rattle.plus_state.specs.View.{condition_of};
ghost use Rattle.plus_state.specs.Fits.{Fits, comparisons};
ghost use Rattle.plus_crossing.specs.Next.{cross_asks};
ghost use Rattle.plus_crossing.specs.Listed.{live_roots};
ghost use Rattle.plus_stretch.specs.Crossings.{rising_below};
ghost use Rattle.plus_stretch.specs.Thinned.{thinned};
ghost use Rattle.plus_watch.specs.Told.{AskTold};

use crate::place::WatchStop;
use plus_crossing::listing::{RootsStop, roots_into};
use plus_crossing::rates::Rates;
use plus_number::exact::Exact;
use plus_state::states::State;
use plus_state::term::Cond;
use plus_stretch::sorted::{append_if, is_kept};
use std::alloc::{AllocError, Global};

// Puts the roots below the bound, of roots that do not fall, each once, in place of others.
fn thin<Q: Exact>(sorted: &[Q], bound: Q, roots: &mut Vec<Q>) -> Result<(), AllocError>
    ensures { IfOk result (λ _. map Q.value roots.new.items ≡ thinned (Q.value bound) None (map Q.value sorted.now)) }
{
    roots.clear();
    let mut before: Option<Q> = None;
    'each: for root in sorted {
        append_if(roots, *root, is_kept(before, *root, bound))?;
        before = Some(*root);
    }
    Ok(())
}

// Sorts roots, and puts the different ones below a bound, from the least, in place of others.
fn rising<Q: Exact>(roots: &mut Vec<Q>, bound: Q, different: &mut Vec<Q>) -> Result<(), AllocError>
    ensures { IfOk result (λ _. map Q.value different.new.items ≡ rising_below (Q.value bound) (map Q.value roots.old.items)) }
{
    roots.sort_unstable_by(|a, b| a.order(*b));
    thin(roots, bound, different)
}

/// The different roots of a condition's live comparisons below a bound, from the least.
pub fn roots_below<Q: Exact>(
    alloc: Global,
    cond: &Cond<Q>,
    state: &State<Q>,
    rates: &Rates<Q>,
    bound: Q,
) -> Result<Vec<Q>, WatchStop<Q>>
    requires fits { Fits (length (state.now.atoms)) (length (state.now.fluents)) (condition_of Q.value cond.now) }
    requires rates { length rates.now ≡ length (state.now.fluents) }
    requires few { comparisons (condition_of Q.value cond.now) < 2 ^ 32 }
    ensures { AskTold Q.value Q.fits (cross_asks 0 (condition_of Q.value cond.now) state.now rates.now)
        (λ roots. map Q.value roots.items ≡ rising_below (Q.value bound) (live_roots (condition_of Q.value cond.now) state.now rates.now)) result }
{
    let mut roots = Vec::new(alloc);
    match roots_into(cond, state, rates, &mut roots) {
        Err(RootsStop::Condition(stop)) => Err(WatchStop::Condition(stop)),
        Err(RootsStop::Memory) => Err(WatchStop::Memory),
        Ok(()) => {
            let mut different = Vec::new(alloc);
            match rising(&mut roots, bound, &mut different) {
                Err(_) => Err(WatchStop::Memory),
                Ok(()) => Ok(different),
            }
        }
    }
}
