//! For each atom, or for each fluent, the numbers of those that read it.
ghost use Rattle.std.specs.Prelude.{◌≡◌, ◌<◌, [], ◌∷◌, ◌++◌, length, replicate, slice_set, slice_index_or, All, IfOk};
ghost use Rattle.plus_reads.specs.Rows.{grouped, CountsAre, StartsAre};
ghost use Rattle.plus_reads.specs.Tables.{readers_at};

use std::alloc::{AllocError, Global};
use std::marker::Model;

/// For each key, by its number, a list of readers. The lists lie one behind the other in one piece of
/// memory: those of a key are between its start and the next. Contracts see the list of these lists.
#[derive(Drop)]
pub struct Table {
    starts: Vec<usize>,
    readers: Vec<u32>,
}

impl Model for Table {
    ghost use Rattle.std.specs.Prelude.{ℕ, List};
    ghost use Rattle.plus_reads.specs.Rows.{rows_in, AreRows};

    ghost Value = { List (List ℕ) };

    ghost view = { λ t. rows_in t.starts.items t.readers.items };

    ghost invariant = { λ t. AreRows t.starts.items t.readers.items };
}

impl Table {
    /// The readers of a key: none where there is no such key.
    pub fn readers(&self, key: u32) -> &[u32]
        ensures { result.now ≡ readers_at self.now key }
    {
        let key = key as usize;
        if key + 1 < self.starts.len() {
            &self.readers[self.starts[key]..self.starts[key + 1]]
        } else {
            &[]
        }
    }

    /// Appends the readers of a key to a list.
    #[inline(always)]
    pub fn append_readers(&self, key: u32, into: &mut Vec<u32>) -> Result<(), AllocError>
        ensures { IfOk result (λ _. into.new.items ≡ into.old.items ++ readers_at self.now key) }
    {
        match self.readers(key) {
            [] => Ok(()),
            [reader] => {
                into.push(*reader)?;
                Ok(())
            }
            readers => {
                into.extend_from_slice(readers)?;
                Ok(())
            }
        }
    }
}

/// Readers of so many keys, in the order in which they come. Contracts see for each key the list of its
/// readers.
#[derive(Drop)]
pub struct Entries {
    keys: u32,
    pairs: Vec<(u32, u32)>,
}

impl Model for Entries {
    ghost use Rattle.std.specs.Prelude.{ℕ, ◌<◌, List, All};
    ghost use Rattle.plus_reads.specs.Rows.{grouped};

    ghost Value = { List (List ℕ) };

    ghost view = { λ e. grouped e.keys e.pairs.items };

    ghost invariant = { λ e. All (λ p. p.0 < e.keys) e.pairs.items };
}

impl Entries {
    /// So many keys, and no readers. It takes no memory.
    pub fn new(alloc: Global, keys: u32) -> Entries
        ensures { result ≡ replicate keys [] }
    {
        Entries {
            keys,
            pairs: Vec::new(alloc),
        }
    }

    /// Adds a reader of a key.
    pub fn add(&mut self, key: u32, reader: u32) -> Result<(), AllocError>
        requires { key < length self.old }
        ensures { IfOk result (λ _. self.new ≡ slice_set self.old key (slice_index_or self.old key [] ++ reader ∷ [])) }
    {
        self.pairs.push((key, reader))?;
        Ok(())
    }

    /// The table of these readers.
    pub fn table(&self, alloc: Global) -> Result<Table, AllocError>
        ensures { IfOk result (λ t. t ≡ self.now) }
    {
        table_of(alloc, self.keys, &self.pairs)
    }
}

// For each key, one place further, how many pairs have it.
fn counts_of(alloc: Global, keys: u32, pairs: &[(u32, u32)]) -> Result<Vec<usize>, AllocError>
    requires { All (λ p. p.0 < keys) pairs.now }
    ensures { IfOk result (λ counts. CountsAre keys pairs.now counts.items) }
{
    let mut counts = vec![in alloc; 0; keys as usize + 1]?;
    'pairs: for pair in pairs {
        counts[pair.0 as usize + 1] += 1;
    }
    Ok(counts)
}

// For each key, one place further, where its readers start.
fn starts_of(alloc: Global, keys: u32, pairs: &[(u32, u32)]) -> Result<Vec<usize>, AllocError>
    requires { All (λ p. p.0 < keys) pairs.now }
    ensures { IfOk result (λ starts. StartsAre keys pairs.now starts.items) }
{
    let mut starts = counts_of(alloc, keys, pairs)?;
    let mut sum = 0;
    'keys: for key in 0..keys {
        let count = starts[key as usize + 1];
        starts[key as usize + 1] = sum;
        sum += count;
    }
    Ok(starts)
}

// Puts the readers in their rows. The start of a key moves on with each, and so ends as that of the next.
fn table_of(alloc: Global, keys: u32, pairs: &[(u32, u32)]) -> Result<Table, AllocError>
    requires { All (λ p. p.0 < keys) pairs.now }
    ensures { IfOk result (λ t. t ≡ grouped keys pairs.now) }
{
    let mut starts = starts_of(alloc, keys, pairs)?;
    let mut readers = vec![in alloc; 0; pairs.len()]?;
    'pairs: for pair in pairs {
        let place = starts[pair.0 as usize + 1];
        readers[place] = pair.1;
        starts[pair.0 as usize + 1] = place + 1;
    }
    Ok(Table { starts, readers })
}
