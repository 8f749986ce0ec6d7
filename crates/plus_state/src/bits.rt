//! A list of truth values, sixty-four to a word.
ghost use Rattle.std.specs.Prelude.{◌≡◌, ℕ, ◌<◌, ◌^◌, ◌/◌, ◌%◌, Bool, false, length, replicate, slice_set, slice_get, slice_index_or, unwrap_or, nat_eq, IfOk, if◌then◌else◌};
ghost use Rattle.plus_state.specs.Bits.{bit_of};

use std::alloc::{AllocError, Global};
use std::marker::Model;

/// Truth values by their numbers. Contracts see the list of them.
#[derive(Drop)]
pub struct Bits {
    count: u32,
    words: Vec<u64>,
}

impl Model for Bits {
    ghost use Rattle.std.specs.Prelude.{ℕ, ◌*◌, ◌≤◌, Bool, List, length};
    ghost use Rattle.plus_state.specs.Bits.{bits_of};

    ghost Value = { List Bool };

    ghost view = { λ b. bits_of b.count b.words.items };

    ghost invariant = { λ b. b.count ≤ 64 * length b.words.items };
}

// The word with this bit.
#[tactic(auto, using(crate::proofs::BitsLemmas::one_word))]
fn with_bit(word: u64, bit: u32, present: bool) -> u64
    requires { bit < 64 }
    ensures { (k : ℕ) → k < 64 → bit_of result k ≡ (if nat_eq k bit then present else bit_of word k) }
{
    if present {
        word | 1 << bit
    } else {
        word & !(1 << bit)
    }
}

#[tactic(auto, using(crate::proofs::BitsLemmas::reading))]
fn has_bit(word: u64, bit: u32) -> bool
    requires { bit < 64 }
    ensures { result ≡ bit_of word bit }
{
    (word >> bit) & 1 == 1
}

impl Bits {
    /// So many, all false.
    #[tactic(auto, using(crate::proofs::BitsLemmas::making))]
    pub fn new(alloc: Global, count: u32) -> Result<Bits, AllocError>
        ensures { IfOk result (λ b. b ≡ replicate count false) }
    {
        let words = vec![in alloc; 0u64; (count as usize + 63) / 64]?;
        Ok(Bits { count, words })
    }

    /// How many there are.
    #[tactic(auto, using(crate::proofs::BitsLemmas::counting))]
    pub fn len(&self) -> u32
        ensures { result ≡ length self.now }
    {
        self.count
    }

    pub fn get(&self, index: u32) -> bool
        requires { index < length self.now }
        ensures { result ≡ unwrap_or (slice_get self.now index) false }
    {
        has_bit(self.words[index as usize / 64], index % 64)
    }

    pub fn set(&mut self, index: u32, present: bool)
        requires { index < length self.old }
        ensures { self.new ≡ slice_set self.old index present }
    {
        let word = with_bit(self.words[index as usize / 64], index % 64, present);
        self.words[index as usize / 64] = word;
    }

    /// Equal ones.
    pub fn copy(&self, alloc: Global) -> Result<Bits, AllocError>
        ensures { IfOk result (λ b. b ≡ self.now) }
    {
        Ok(Bits {
            count: self.count,
            words: Vec::from_slice(alloc, &self.words)?,
        })
    }
}
