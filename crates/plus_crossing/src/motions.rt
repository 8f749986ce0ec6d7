//! Motions: fluents that are on their way, where it is known beforehand that they stay values of the type.
ghost use Rattle.std.specs.Prelude.{◌≡◌, ◌<◌, ◌≤◌, true, length, option_map, IfSome};
ghost use Rattle.plus_fraction.specs.Fraction.{Fraction};
ghost use Rattle.plus_model.specs.Running.{moved};
ghost use Rattle.plus_state.specs.Asked.{AllFit};
ghost use Rattle.plus_state.specs.Changes.{patched_list};
ghost use Rattle.plus_state.specs.Fits.{StateFits};
ghost use Rattle.plus_crossing.specs.Moves.{fluent_nodes, moved_nodes, change_if};
ghost use Rattle.plus_crossing.specs.Motions.{Spans, Extends, MayDrift};

use crate::rates::Rates;
use plus_number::consts::size;
use plus_number::exact::Exact;
use plus_state::evaluation::is_zero;
use plus_state::states::State;
use plus_state::term::FluentId;

// How far one fluent goes; none where that takes more than 64 bits.
fn span<Q: Exact>(value: Option<Q>, rate: Q) -> Option<u64>
    ensures { IfSome result (Spans (option_map Q.value value) (Q.value rate)) }
{
    match value {
        None => Some(0),
        Some(from) => {
            if is_zero(rate) {
                return Some(0);
            }
            size(from).checked_mul(size(rate))
        }
    }
}

fn wider(x: u64, y: u64) -> u64
    ensures first { x ≤ result }
    ensures second { y ≤ result }
{
    if x < y { y } else { x }
}

/// How far the fluents go that move: the greatest product of the sizes of a value and its rate; none where
/// that takes more than 64 bits. No fluent that stands still is visited.
pub fn extent<Q: Exact>(state: &State<Q>, rates: &Rates<Q>) -> Option<u64>
    requires { length rates.now ≡ length (state.now.fluents) }
    ensures { IfSome result (Extends state.now.fluents rates.now) }
{
    let given = rates.given();
    let mut greatest: u64 = 0;
    'each: for entry in given {
        match span(state.fluent(FluentId(entry.0)), entry.1) {
            None => return None,
            Some(one) => greatest = wider(greatest, one),
        }
    }
    Some(greatest)
}

/// Whether all that goes no further than this is sure to stay a value of the type after so much time.
#[inline(always)]
pub fn may_drift<Q: Exact>(extent: u64, delay: Q) -> bool
    ensures { result ≡ true → MayDrift Q.fits extent (Q.value delay) }
{
    match extent.checked_mul(size(delay)) {
        None => false,
        Some(product) => product <= Q::room(),
    }
}

// Sets a fluent on its way, if it moves.
#[inline(always)]
fn drift<Q: Exact>(ahead: &mut State<Q>, fluent: FluentId, from: Option<Q>, rate: Q, delay: Q)
    requires fluent { fluent.0 < length (ahead.old.fluents) }
    requires fit { AllFit Q.fits (fluent_nodes (option_map Q.value from) (Q.value rate) (Q.value delay)) }
    ensures { ahead.new ≡ record (ahead.old) { fluents = patched_list (change_if fluent.0 (option_map Q.value from) (Q.value rate) (Q.value delay)) (ahead.old.fluents) } }
{
    if is_zero(rate) {
        return;
    }
    match from {
        None => ahead.give(fluent, None),
        Some(value) => ahead.set_motion(fluent, value, rate, delay),
    }
}

/// Moves a state to so much time after another one at these rates, from whatever time it is at: each
/// fluent that moves is set on its way, and worked where it is read. No fluent that stands still is
/// visited, and it takes no memory.
#[inline(always)]
pub fn set_motions<Q: Exact>(state: &State<Q>, ahead: &mut State<Q>, rates: &Rates<Q>, delay: Q)
    requires rates { length rates.now ≡ length (state.now.fluents) }
    requires fit { AllFit Q.fits (moved_nodes (state.now.fluents) rates.now (Q.value delay)) }
    requires ahead { StateFits (length (state.now.atoms)) (length (state.now.fluents)) ahead.old }
    ensures { (from : Fraction) → ahead.old ≡ moved state.now rates.now from → ahead.new ≡ moved state.now rates.now (Q.value delay) }
{
    let given = rates.given();
    'each: for entry in given {
        let fluent = FluentId(entry.0);
        drift(ahead, fluent, state.fluent(fluent), entry.1, delay);
    }
}
