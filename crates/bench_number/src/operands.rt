//! Pairs of operands, the same in each run.
use plus_number::{Exact, Frac64};
use std::alloc::{AllocError, Global};

// How many pairs there are of each kind.
const PAIRS: u64 = 1024;

// What operands look like.
#[derive(Clone, Copy)]
pub enum Kind {
    // whole numbers of 20 bits
    Whole,
    // thousandths
    Thousandths,
    // parts of 20 bits
    Small,
    // parts of 31 bits
    Large,
}

impl Kind {
    pub const ALL: [Kind; 4] = [Kind::Whole, Kind::Thousandths, Kind::Small, Kind::Large];

    pub fn name(self) -> &'static str {
        match self {
            Kind::Whole => "whole",
            Kind::Thousandths => "thousandths",
            Kind::Small => "small",
            Kind::Large => "large",
        }
    }
}

// A xorshift generator.
#[derive(Drop)]
struct Source {
    state: u64,
}

impl Source {
    fn draw(&mut self) -> u64 {
        let a = self.state ^ (self.state << 13);
        let b = a ^ (a >> 7);
        self.state = b ^ (b << 17);
        self.state
    }

    fn below(&mut self, bound: u32) -> u32 {
        let bound = bound.max(1) as u64;
        (self.draw() % bound) as u32
    }

    // the size of a top, and a bottom less 1
    fn parts(&mut self, kind: Kind) -> (u32, u32) {
        match kind {
            Kind::Whole => (self.below(1048576), 0),
            Kind::Thousandths => (self.below(1048576), 999),
            Kind::Small => (self.below(1048576), self.below(1048576)),
            Kind::Large => (self.below(2147483647), self.below(2147483647)),
        }
    }

    fn fraction(&mut self, kind: Kind) -> Option<Frac64> {
        let (size, less) = self.parts(kind);
        let top = size as i64;
        let bottom = less as i64 + 1;
        if self.below(2) == 0 {
            Frac64::ratio(top, bottom).ok()
        } else {
            Frac64::ratio(-top, bottom).ok()
        }
    }
}

pub fn pairs(alloc: Global, kind: Kind) -> Result<Vec<(Frac64, Frac64)>, AllocError> {
    let mut source = Source {
        state: 88172645463325252,
    };
    let mut made = Vec::new(alloc);
    for _ in 0..PAIRS {
        let left = source.fraction(kind);
        let right = source.fraction(kind);
        if let (Some(x), Some(y)) = (left, right) {
            made.push((x, y))?;
        }
    }
    Ok(made)
}
