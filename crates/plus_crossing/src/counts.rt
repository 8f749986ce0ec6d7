//! How many comparisons a condition has.
ghost use Rattle.std.specs.Prelude.{◌≡◌, ◌<◌, ◌^◌};
ghost use Rattle.plus_state.specs.View.{condition_of};
ghost use Rattle.plus_state.specs.Fits.{comparisons as comparisons_of};

use plus_number::exact::Exact;
use plus_state::term::Cond;

// The same, counted member by member.
#[cycle(comparisons)]
#[tactic(auto, using(crate::proofs::Walking::counting))]
fn counted<Q: Exact>(cond: &Cond<Q>) -> u32
    requires { comparisons_of (condition_of Q.value cond.now) < 2 ^ 32 }
    ensures { result ≡ comparisons_of (condition_of Q.value cond.now) }
{
    match cond {
        Cond::All(members) => {
            let mut count = 0;
            'all: for member in members {
                count += comparisons(member);
            }
            count
        }
        Cond::Any(members) => {
            let mut count = 0;
            'any: for member in members {
                count += comparisons(member);
            }
            count
        }
        Cond::Atom { .. } => 0,
        Cond::Compare { .. } => 1,
    }
}

// How many comparisons stand in a condition.
#[inline(always)]
#[cycle(comparisons)]
#[tactic(auto, using(crate::proofs::Walking::counting))]
pub fn comparisons<Q: Exact>(cond: &Cond<Q>) -> u32
    requires { comparisons_of (condition_of Q.value cond.now) < 2 ^ 32 }
    ensures { result ≡ comparisons_of (condition_of Q.value cond.now) }
{
    match cond {
        Cond::Atom { .. } => 0,
        Cond::Compare { .. } => 1,
        Cond::All(_) | Cond::Any(_) => counted(cond),
    }
}
