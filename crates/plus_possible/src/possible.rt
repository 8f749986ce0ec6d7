//! Whether a condition may ever hold, as far as atoms alone tell.
ghost use Rattle.std.specs.Prelude.{◌≡◌, not, ◌||◌};
ghost use Rattle.plus_model.specs.Value.{atom_of};
ghost use Rattle.plus_state.specs.View.{condition_of};
ghost use Rattle.plus_possible.specs.Possible.{may_by, may_hold as may_hold_by};

use plus_cut::marks::is_marked;
use plus_number::exact::Exact;
use plus_state::bits::Bits;
use plus_state::states::State;
use plus_state::term::{AtomId, Cond};

// Whether an atom is true. One that is no atom of the state is not.
fn is_true<Q: Exact>(atom: AtomId, state: &State<Q>) -> bool
    ensures { result ≡ atom_of state.now atom.0 }
{
    if atom.0 >= state.atoms() {
        return false;
    }
    state.atom(atom)
}

// Whether an atom may be true: it is in the state, or it is marked.
fn may_be_true<Q: Exact>(atom: AtomId, marks: &Bits, state: &State<Q>) -> bool
    ensures { result ≡ may_by marks.now state.now atom.0 }
{
    if is_true(atom, state) {
        return true;
    }
    is_marked(marks, atom.0)
}

// Whether an atom may have this truth. That it may be false is not looked into.
fn may_be<Q: Exact>(positive: bool, atom: AtomId, marks: &Bits, state: &State<Q>) -> bool
    ensures { result ≡ (not positive || may_by marks.now state.now atom.0) }
{
    if !positive {
        return true;
    }
    may_be_true(atom, marks, state)
}

/// Whether a condition may hold from this state on, where only atoms that are marked become true. No member is looked at behind
/// one that decides.
pub fn may_hold<Q: Exact>(cond: &Cond<Q>, marks: &Bits, state: &State<Q>) -> bool
    ensures { result ≡ may_hold_by (may_by marks.now state.now) (condition_of Q.value cond.now) }
{
    match cond {
        Cond::All(members) => {
            'all: for member in members {
                if !may_hold(member, marks, state) {
                    return false;
                }
            }
            true
        }
        Cond::Any(members) => {
            'any: for member in members {
                if may_hold(member, marks, state) {
                    return true;
                }
            }
            false
        }
        Cond::Atom { atom, positive } => may_be(*positive, *atom, marks, state),
        Cond::Compare { .. } => true,
    }
}
