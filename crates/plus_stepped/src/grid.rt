//! Times on the grid of an interval.
ghost use Rattle.std.specs.Prelude.{◌≡◌, ℕ, ◌*◌, ◌<◌, ◌^◌, ◌↔◌, IsTrue, pos, unsigned_abs, MatchOption};
ghost use Rattle.plus_fraction.specs.Fraction.{whole, ◌<ℚ◌};
ghost use Rattle.plus_state.specs.View.{problem_of};
ghost use Rattle.plus_steps.specs.Stepped.{time_of_step};
ghost use Rattle.plus_stepped.specs.Grid.{OnGrid, AllOnGrid};

use plus_number::exact::Exact;
use plus_state::problem::Ground;

/// The greatest number of steps.
pub const MOST_STEPS: u128 = 9_223_372_036_854_775_807;

fn product(x: i64, y: i64) -> u128
    ensures { result ≡ unsigned_abs x * unsigned_abs y }
{
    u128::from(x.unsigned_abs()) * u128::from(y.unsigned_abs())
}

// How many times the divisor is the dividend, where it is that so many times.
fn whole_quotient(dividend: u128, divisor: u128) -> Option<u64>
    requires { 0 < divisor }
    ensures { MatchOption result ((k : ℕ) → k < 2 ^ 63 → dividend ≡ k * divisor → ⊥)
        (λ k. (k < 2 ^ 63) × (dividend ≡ k * divisor)) }
{
    let quotient = dividend / divisor;
    if dividend % divisor == 0 && quotient <= MOST_STEPS {
        Some(quotient as u64)
    } else {
        None
    }
}

/// How many intervals this time is, where it is a whole number of them, of 63 bits.
pub fn steps_of<Q: Exact>(time: Q, interval: Q) -> Option<u64>
    requires { whole (pos 0) <ℚ Q.value interval }
    ensures { MatchOption result (OnGrid (Q.value interval) (Q.value time) → ⊥)
        (λ steps. (steps < 2 ^ 63) × (Q.value time ≡ time_of_step (Q.value interval) steps)) }
{
    let (top, bottom) = time.parts();
    let (interval_top, interval_bottom) = interval.parts();
    if top < 0 {
        return None;
    }
    whole_quotient(product(top, interval_bottom), product(bottom, interval_top))
}

/// Whether the time of each timed literal is a whole number of intervals, of 63 bits. It takes no
/// memory.
pub fn on_grid<Q: Exact>(ground: &Ground<Q>, interval: Q) -> bool
    requires { whole (pos 0) <ℚ Q.value interval }
    ensures { IsTrue result ↔ AllOnGrid (Q.value interval) (problem_of Q.value ground.now).timed }
{
    'each: for literal in &ground.timed {
        match steps_of(literal.time, interval) {
            None => return false,
            Some(_) => {}
        }
    }
    true
}
