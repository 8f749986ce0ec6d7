//! Which members of a ground problem are looked at: all of them, or those of a list.
ghost use Rattle.std.specs.Prelude.{◌≡◌, ◌<◌, ◌+◌, ◌∷◌, length, drop};
ghost use Rattle.plus_state.specs.View.{problem_of};
ghost use Rattle.plus_state.specs.Numbers.{numbers_from};
ghost use Rattle.plus_state.specs.Looked.{looked_numbers};

use crate::problem::Ground;
use crate::walk::Conditional;
use plus_number::exact::Exact;

/// Which members are looked at, in ground order. Contracts see their numbers.
#[derive(Clone, Copy)]
pub enum Looked<'a, I> {
    /// The first so many.
    First(u32),
    /// Those of this list.
    These(&'a [I]),
}

impl<'a, I: Conditional> Looked<'a, I> {
    /// All that there are.
    #[inline(always)]
    pub fn all<Q: Exact>(ground: &Ground<Q>) -> Looked<'a, I>
        ensures { looked_numbers I.number result ≡ numbers_from 0 (length (I.conditions (problem_of Q.value ground.now))) }
    {
        Looked::First(I::count(ground))
    }

    /// How many they are.
    #[inline(always)]
    pub fn count(self) -> usize
        ensures { result ≡ length (looked_numbers I.number self.entry) }
    {
        match self {
            Looked::First(count) => count as usize,
            Looked::These(members) => members.len(),
        }
    }

    /// The one in this place.
    #[inline(always)]
    pub fn member(self, place: usize) -> I
        requires { place < length (looked_numbers I.number self) }
        ensures { drop place (looked_numbers I.number self.entry) ≡ I.number result ∷ drop (place + 1) (looked_numbers I.number self.entry) }
    {
        match self {
            Looked::First(count) => I::with_number(place.min(count as usize) as u32),
            Looked::These(members) => members[place],
        }
    }
}
