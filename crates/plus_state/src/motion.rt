//! Values that move, worked where they are read.
ghost use Rattle.std.specs.Prelude.{◌≡◌};
ghost use Rattle.plus_fraction.specs.Fraction.{◌+ℚ◌, ◌*ℚ◌};

use plus_number::exact::Exact;
use std::marker::Model;

/// What a value comes to that moves at a rate for some time. Contracts see that fraction; it is worked where it is read.
#[derive(Drop)]
pub struct Motion<Q: Exact> {
    from: Q,
    rate: Q,
    delay: Q,
}

impl<Q: Exact> Model for Motion<Q> {
    ghost use Rattle.std.specs.Prelude.{◌≡◌};
    ghost use Rattle.plus_fraction.specs.Fraction.{Fraction, ◌+ℚ◌, ◌*ℚ◌};
    ghost use Rattle.plus_fraction.specs.FractionCode.{coded_fraction};

    ghost Value = { Fraction };

    ghost coded = { coded_fraction };

    ghost view = { λ m. Q.value m.from +ℚ Q.value m.rate *ℚ Q.value m.delay };

    ghost invariant = { λ m. Q.fits (Q.value m.rate *ℚ Q.value m.delay) × Q.fits (Q.value m.from +ℚ Q.value m.rate *ℚ Q.value m.delay) };
}

impl<Q: Exact> Motion<Q> {
    /// What a value comes to at a rate after some time, where both the gain and the sum are values of the type.
    #[inline(always)]
    pub fn new(from: Q, rate: Q, delay: Q) -> Motion<Q>
        requires gain { Q.fits (Q.value rate *ℚ Q.value delay) }
        requires sum { Q.fits (Q.value from +ℚ Q.value rate *ℚ Q.value delay) }
        ensures { result ≡ Q.value from +ℚ Q.value rate *ℚ Q.value delay }
    {
        Motion { from, rate, delay }
    }

    /// Becomes what a value comes to at a rate after some time, as `new` makes it. Each part is written in its place:
    /// a whole motion that is made first and copied then waits for its parts.
    #[inline(always)]
    pub fn set(&mut self, from: Q, rate: Q, delay: Q)
        requires gain { Q.fits (Q.value rate *ℚ Q.value delay) }
        requires sum { Q.fits (Q.value from +ℚ Q.value rate *ℚ Q.value delay) }
        ensures { self.new ≡ Q.value from +ℚ Q.value rate *ℚ Q.value delay }
    {
        self.from = from;
        self.rate = rate;
        self.delay = delay;
    }

    /// An equal motion.
    #[inline(always)]
    pub fn copy(&self) -> Motion<Q>
        ensures { result ≡ self.now }
    {
        Motion {
            from: self.from,
            rate: self.rate,
            delay: self.delay,
        }
    }

    /// The value.
    pub fn value(&self) -> Q
        ensures { Q.value result ≡ self.now }
    {
        match self.rate.mul(self.delay) {
            Err(_) => unreachable!(),
            Ok(gain) => match self.from.add(gain) {
                Err(_) => unreachable!(),
                Ok(sum) => sum,
            },
        }
    }
}
