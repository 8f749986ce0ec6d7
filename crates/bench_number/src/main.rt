//! Times the operations of `Frac64`. With a number of rounds it prints nanoseconds for each
//! operation and kind of operands; with none it runs one round and prints its digest.
#![tactic(auto)]

mod operands;
mod operations;

use operands::{Kind, pairs};
use operations::{Operation, digest_of};
use std::time::Instant;
use std::{env, io};

fn main(rt: HostRuntime) -> io::Result<()> {
    match env::args(&rt)?.nth(1) {
        Some(text) => time_each(&rt, text.parse().unwrap_or(1)),
        None => digest_all(&rt),
    }
}

/// One round of everything.
fn digest_all(rt: &HostRuntime) -> io::Result<()> {
    let mut sum = 0u64;
    for kind in Kind::ALL {
        let pairs = pairs(rt.alloc(), kind)?;
        for operation in Operation::ALL {
            sum = sum.wrapping_add(digest_of(operation, &pairs, 1));
        }
    }
    println!(rt; "digest {sum}")
}

/// Nanoseconds of each operation on each kind of operands.
fn time_each(rt: &HostRuntime, rounds: u64) -> io::Result<()> {
    for kind in Kind::ALL {
        let pairs = pairs(rt.alloc(), kind)?;
        for operation in Operation::ALL {
            let start = Instant::now(rt)?;
            let sum = digest_of(operation, &pairs, rounds);
            let spent = start.elapsed(rt)?.as_nanos();
            let calls = (rounds as u128 * pairs.len() as u128).max(1);
            let tenths = spent * 10 / calls;
            println!(rt;
                "{} {} {}.{} {sum}",
                kind.name(),
                operation.name(),
                tenths / 10,
                tenths % 10
            )?;
        }
    }
    Ok(())
}
