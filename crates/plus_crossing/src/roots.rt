//! Where two lines meet.
ghost use Rattle.std.specs.Prelude.{◌≡◌, true};
ghost use Rattle.plus_crossing.specs.Roots.{RootAnswers, MeetingAnswers, meets_later as meets_later_in};

use crate::node::{PieceStop, minus, over};
use crate::pieces::Linear;
use plus_number::exact::Exact;
use std::cmp::Ordering;

#[tactic(auto, unfolding(crate::specs::Roots::meets_later))]
fn meets_later<Q: Exact>(x: Linear<Q>, y: Linear<Q>) -> bool
    ensures { result ≡ meets_later_in (Q.value x.value) (Q.value x.slope) (Q.value y.value) (Q.value y.slope) }
{
    match (x.value.order(y.value), x.slope.order(y.slope)) {
        (Ordering::Less, Ordering::Greater) => true,
        (Ordering::Greater, Ordering::Less) => true,
        _ => false,
    }
}

// The root of two lines that meet above 0.
#[tactic(auto, using(crate::proofs::Meeting::meeting), unfolding(plus_state::specs::Tested::AllPass, plus_state::specs::Tested::FirstFailing, plus_state::specs::Asked::NodeFits, crate::specs::Asked::Passes))]
fn meeting<Q: Exact>(x: Linear<Q>, y: Linear<Q>) -> Result<Q, PieceStop<Q>>
    requires { meets_later_in (Q.value x.value) (Q.value x.slope) (Q.value y.value) (Q.value y.slope) ≡ true }
    ensures { MeetingAnswers Q.value Q.fits (Q.value x.value) (Q.value x.slope) (Q.value y.value) (Q.value y.slope) result }
{
    let rise = minus(y.value, x.value)?;
    let fall = minus(x.slope, y.slope)?;
    let place = over(rise, fall)?;
    Ok(place)
}

// The root of two lines above 0, or the first node that does not fit.
#[tactic(auto, using(crate::proofs::Meeting::answers), unfolding(plus_state::specs::Tested::AllPass))]
pub fn root<Q: Exact>(x: Linear<Q>, y: Linear<Q>) -> Result<Option<Q>, PieceStop<Q>>
    ensures { RootAnswers Q.value Q.fits (Q.value x.value) (Q.value x.slope) (Q.value y.value) (Q.value y.slope) result }
{
    if meets_later(x, y) {
        let place = meeting(x, y)?;
        Ok(Some(place))
    } else {
        Ok(None)
    }
}
