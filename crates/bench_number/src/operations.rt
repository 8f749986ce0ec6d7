//! The operations, and a digest of their results.
use plus_number::consts::is_zero;
use plus_number::{Exact, Frac64, Outside};
use std::cmp::Ordering;

#[derive(Clone, Copy)]
pub enum Operation {
    Add,
    Sub,
    Mul,
    Div,
    Order,
}

impl Operation {
    pub const ALL: [Operation; 5] = [
        Operation::Add,
        Operation::Sub,
        Operation::Mul,
        Operation::Div,
        Operation::Order,
    ];

    pub fn name(self) -> &'static str {
        match self {
            Operation::Add => "add",
            Operation::Sub => "sub",
            Operation::Mul => "mul",
            Operation::Div => "div",
            Operation::Order => "order",
        }
    }
}

fn of_answer(answer: Result<Frac64, Outside>) -> u64 {
    match answer {
        Ok(x) => {
            let (top, bottom) = x.parts();
            top.unsigned_abs().wrapping_mul(3) ^ bottom.unsigned_abs()
        }
        Err(_) => 1,
    }
}

fn quotient(x: Frac64, y: Frac64) -> u64 {
    if is_zero(y) { 0 } else { of_answer(x.div(y)) }
}

fn of_order(order: Ordering) -> u64 {
    match order {
        Ordering::Less => 1,
        Ordering::Equal => 2,
        Ordering::Greater => 3,
    }
}

// The digest of so many rounds over all pairs.
pub fn digest_of(operation: Operation, pairs: &[(Frac64, Frac64)], rounds: u64) -> u64 {
    let mut sum = 0u64;
    for _ in 0..rounds {
        for &(x, y) in pairs {
            let one = match operation {
                Operation::Add => of_answer(x.add(y)),
                Operation::Sub => of_answer(x.sub(y)),
                Operation::Mul => of_answer(x.mul(y)),
                Operation::Div => quotient(x, y),
                Operation::Order => of_order(x.order(y)),
            };
            sum = sum.wrapping_mul(31).wrapping_add(one);
        }
    }
    sum
}
