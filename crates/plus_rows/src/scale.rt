//! Places on a scale, by integer arithmetic.

use plus_number::exact::Exact;
use plus_number::frac::Frac64;

/// How many levels there are between two whole numbers: 2 to the power of this.
const FINE: u32 = 40;

/// The level of 0: that of each number is above 0, since no top of a fraction has more than 63 bits.
const MIDDLE: u128 = 1 << 104;

/// How far a place may be from the beginning of its scale, in tenths of a pixel.
const FAR: u128 = 1_000_000_000;

/// The level of a number: the greater the number, the greater the level, in steps of 2 to the power of -40.
pub fn level(x: Frac64) -> u128 {
    let (top, bottom) = x.parts();
    let height = ((top.unsigned_abs() as u128) << FINE) / (bottom.unsigned_abs() as u128).max(1);
    if top < 0 {
        MIDDLE.saturating_sub(height)
    } else {
        MIDDLE.saturating_add(height)
    }
}

/// How far a level is above that of 0.
pub fn height(level: u128) -> u128 {
    level.saturating_sub(MIDDLE)
}

/// The level that is so far above that of 0.
pub fn above(height: u128) -> u128 {
    MIDDLE.saturating_add(height)
}

/// A scale between two levels, which are so many tenths of a pixel apart.
#[derive(Clone, Copy)]
pub struct Scale {
    pub low: u128,
    pub high: u128,
    length: i64,
}

// How many tenths of a pixel so many levels are, where `all` of them are `length`.
fn tenths(levels: u128, all: u128, length: i64) -> i64 {
    let length = length.unsigned_abs() as u128;
    let tenths = levels.saturating_mul(length) / all.max(1);
    tenths.min(FAR) as i64
}

impl Scale {
    /// The scale from a level to another one above it.
    pub fn new(low: u128, high: u128, length: i64) -> Scale {
        Scale { low, high, length }
    }

    /// A scale that spans no level yet.
    pub fn empty(length: i64) -> Scale {
        Scale {
            low: u128::MAX,
            high: 0,
            length,
        }
    }

    /// Makes the scale span a level too.
    pub fn take(&mut self, level: u128) {
        self.low = self.low.min(level);
        self.high = self.high.max(level);
    }

    /// How far a level is from the low end, in tenths of a pixel: below 0 where it is below that.
    pub fn place(&self, level: u128) -> i64 {
        let all = self.high.saturating_sub(self.low);
        if level < self.low {
            0i64.saturating_sub(tenths(self.low.saturating_sub(level), all, self.length))
        } else {
            tenths(level.saturating_sub(self.low), all, self.length)
        }
    }

    /// Whether a level is on the scale.
    pub fn holds(&self, level: u128) -> bool {
        self.low <= level && level <= self.high
    }
}
