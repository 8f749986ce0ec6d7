//! The first process with a rate that reads a moving fluent.
ghost use Rattle.std.specs.Prelude.{◌≡◌, ◌<◌, length, map, option_map, find, All};
ghost use Rattle.plus_model.specs.Running.{names, names_of_rates, first_coupled as first_coupled_of};
ghost use Rattle.plus_state.specs.View.{expression_of, rate_of, problem_of};
ghost use Rattle.plus_state.specs.Fits.{IsIn, RateFits};
ghost use Rattle.plus_settle.specs.Members.{process_numbers, AreMembers};
ghost use Rattle.plus_settle.specs.Settles.{moves, first_some};

use plus_crossing::rates::Rates;
use plus_number::exact::Exact;
use plus_state::evaluation::is_zero;
use plus_state::problem::Ground;
use plus_state::term::{Expr, FluentId, ProcessId, Rate};

fn first_of(x: Option<FluentId>, y: Option<FluentId>) -> Option<FluentId>
    ensures { option_map (λ f. f.0) result ≡ first_some (option_map (λ f. f.0) x) (option_map (λ f. f.0) y) }
{
    match x {
        Some(f) => Some(f),
        None => y,
    }
}

// The first fluent of an expression that moves, in the order of the text.
#[inline(always)]
#[tactic(auto, using(crate::proofs::CouplingLemmas::naming))]
fn moving_name<Q: Exact>(expr: &Expr<Q>, rates: &Rates<Q>) -> Option<FluentId>
    requires { IsIn (length rates.now) (expression_of Q.value expr.now) }
    ensures { option_map (λ f. f.0) result ≡ find (moves rates.now) (names (expression_of Q.value expr.now)) }
{
    match expr {
        Expr::Number(_) => None,
        Expr::Fluent(f) => {
            if is_zero(rates.get(*f)) {
                None
            } else {
                Some(*f)
            }
        }
        Expr::Add(a, b) => first_of(moving_name(a, rates), moving_name(b, rates)),
        Expr::Sub(a, b) => first_of(moving_name(a, rates), moving_name(b, rates)),
        Expr::Mul(a, b) => first_of(moving_name(a, rates), moving_name(b, rates)),
        Expr::Div(a, b) => first_of(moving_name(a, rates), moving_name(b, rates)),
    }
}

// The first fluent that the rates of a process name and that moves.
fn moving_rate<Q: Exact>(list: &[Rate<Q>], rates: &Rates<Q>) -> Option<FluentId>
    requires { All (RateFits (length rates.now)) (map (rate_of Q.value) list.now) }
    ensures { option_map (λ f. f.0) result ≡ find (moves rates.now) (names_of_rates (map (rate_of Q.value) list.now)) }
{
    'each: for rate in list {
        match moving_name(&rate.amount, rates) {
            Some(fluent) => return Some(fluent),
            None => {}
        }
    }
    None
}

// The first member with a rate that names a moving fluent, with the first such fluent.
pub fn first_coupled<Q: Exact>(
    ground: &Ground<Q>,
    members: &[ProcessId],
    rates: &Rates<Q>,
) -> Option<(ProcessId, FluentId)>
    requires members { AreMembers (length (ground.now.processes.items)) (process_numbers members.now) }
    requires rates { length rates.now ≡ length (ground.now.fluents.items) }
    ensures { option_map (λ c. (c.0.0, c.1.0)) result ≡ first_coupled_of (problem_of Q.value ground.now) (process_numbers members.now) rates.now }
{
    'each: for member in members {
        match moving_rate(&ground.processes[member.0 as usize].rates, rates) {
            Some(fluent) => return Some((*member, fluent)),
            None => {}
        }
    }
    None
}
