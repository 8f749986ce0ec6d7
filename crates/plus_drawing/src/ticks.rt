//! Round times for the axis.

use plus_rows::scale::{Scale, above, height};
use plus_rows::words::{append_decimal, power_of_ten};
use std::alloc::{AllocError, Global};

/// How many ticks an axis has at most, but for one.
const MOST: u64 = 10;

/// How many digits stand behind the point of a tick at most.
const DIGITS: u32 = 9;

/// How many zeros the round steps end with at most.
const ZEROS: u32 = 18;

/// How many levels there are between two whole numbers.
const UNIT: u128 = 1 << 40;

/// The distance of two ticks: so many units, of which so many digits stand behind the point.
#[derive(Clone, Copy)]
struct Step {
    units: u128,
    digits: u32,
}

impl Step {
    // How many levels lie between the zeroth tick and this one.
    fn levels(&self, tick: u128) -> u128 {
        tick.saturating_mul(self.units).saturating_mul(UNIT) / power_of_ten(self.digits).max(1)
    }

    // Whether so many levels have at most as many steps as an axis may have.
    fn spans(&self, levels: u128) -> bool {
        levels.saturating_mul(power_of_ten(self.digits))
            <= self.units.saturating_mul(UNIT).saturating_mul(MOST as u128)
    }

    // The first tick that is not below this level.
    fn first(&self, level: u128) -> u128 {
        let step = self.units.saturating_mul(UNIT).max(1);
        let ticks = level.saturating_mul(power_of_ten(self.digits)) / step;
        if self.levels(ticks) < level {
            ticks.saturating_add(1)
        } else {
            ticks
        }
    }

    // The time of a tick, without zeros at its end.
    fn text(&self, alloc: Global, tick: u128) -> Result<Vec<u8>, AllocError> {
        let mut units = tick.saturating_mul(self.units);
        let mut digits = self.digits;
        for _digit in 0..self.digits {
            if units % 10 == 0 {
                units /= 10;
                digits = digits.saturating_sub(1);
            }
        }
        let mut text = Vec::new(alloc);
        append_decimal(&mut text, units, digits)?;
        Ok(text)
    }
}

// The least round step that has few enough ticks: 1, 2 or 5 with zeros behind it or before it.
fn round_step(levels: u128) -> Step {
    for digit in 0..DIGITS {
        let digits = DIGITS - digit;
        for units in [1, 2, 5] {
            let step = Step { units, digits };
            if step.spans(levels) {
                return step;
            }
        }
    }
    for zeros in 0..ZEROS {
        for units in [1, 2, 5] {
            let units = power_of_ten(zeros).saturating_mul(units);
            let step = Step { units, digits: 0 };
            if step.spans(levels) {
                return step;
            }
        }
    }
    Step {
        units: power_of_ten(ZEROS),
        digits: 0,
    }
}

/// A round time: how far it is along the scale, and its text.
#[derive(Drop)]
pub struct Tick {
    pub place: i64,
    pub text: Vec<u8>,
}

/// The round times of a scale of times from 0 on.
pub fn ticks(alloc: Global, scale: &Scale) -> Result<Vec<Tick>, AllocError> {
    let step = round_step(scale.high.saturating_sub(scale.low));
    let first = step.first(height(scale.low));
    let mut ticks = Vec::new(alloc);
    for number in 0..=MOST {
        let tick = first.saturating_add(number as u128);
        let level = above(step.levels(tick));
        if !scale.holds(level) {
            break;
        }
        ticks.push(Tick {
            place: scale.place(level),
            text: step.text(alloc, tick)?,
        })?;
    }
    Ok(ticks)
}
