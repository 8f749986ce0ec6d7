//! Sums and products of which no more is held than that they pass every limit.

ghost use Rattle.std.specs.Prelude.{◌≡◌, ◌+◌, ◌*◌};
ghost use Rattle.plus_numbering.specs.Sizes.{held};

/// The first number above the limit of nodes, the greatest limit.
const OVER: u32 = 1000001;

/// A number of things.
#[tactic(auto, unfolding(crate::specs::Sizes::held))]
pub fn count(things: usize) -> u32
    ensures { result ≡ held things }
{
    things.min(OVER as usize) as u32
}

/// The sum.
#[tactic(auto, unfolding(crate::specs::Sizes::held))]
pub fn sum(left: u32, right: u32) -> u32
    ensures { result ≡ held (left + right) }
{
    left.saturating_add(right).min(OVER)
}

/// The product.
#[tactic(auto, unfolding(crate::specs::Sizes::held))]
pub fn product(left: u32, right: u32) -> u32
    ensures { result ≡ held (left * right) }
{
    left.saturating_mul(right).min(OVER)
}
