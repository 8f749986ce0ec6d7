//! Which rows are drawn.

use plus_rows::{Kind, Row};
use std::alloc::{AllocError, Global};

/// How many rows are drawn at most.
const MOST: usize = 60;

/// The rows that are drawn, and how many are left out.
#[derive(Drop)]
pub struct Chosen {
    pub rows: Vec<Row>,
    pub left_out: u64,
}

// What a row weighs: actions and events most, and of the others those that change most.
fn weight(row: &Row) -> u64 {
    match row.kind {
        Kind::Action | Kind::Event => u64::MAX,
        _ => row.changes,
    }
}

// For each row whether it is one of the heaviest.
fn heaviest(alloc: Global, rows: &[Row]) -> Result<Vec<bool>, AllocError> {
    let mut order = Vec::with_capacity(alloc, rows.len())?;
    let mut is_kept = Vec::with_capacity(alloc, rows.len())?;
    for (place, row) in rows.iter().enumerate() {
        order.push((u64::MAX - weight(row), place))?;
        is_kept.push(false)?;
    }
    order.sort()?;
    for (_, place) in order.iter().take(MOST) {
        if let Some(kept) = is_kept.get_mut(*place) {
            *kept = true;
        }
    }
    Ok(is_kept)
}

// Where a row stands among all.
fn order(row: &Row) -> (u8, u64) {
    let kind = match row.kind {
        Kind::Action => 0,
        Kind::Event => 1,
        Kind::Process => 2,
        Kind::Atom => 3,
        Kind::Fluent => 4,
    };
    (kind, row.number)
}

/// Of all rows on which something changes those that are drawn, in the order of their kinds and numbers.
pub fn choose(alloc: Global, mut all: Vec<Row>) -> Result<Chosen, AllocError> {
    all.retain(|row| row.changes > 0);
    all.sort_by_key(|row| order(row))?;
    let is_kept = heaviest(alloc, &all)?;
    let mut rows = Vec::new(alloc);
    let mut left_out = 0u64;
    for (row, kept) in all.into_iter().zip(&is_kept) {
        if *kept {
            rows.push(row)?;
        } else {
            left_out = left_out.saturating_add(1);
        }
    }
    Ok(Chosen { rows, left_out })
}
