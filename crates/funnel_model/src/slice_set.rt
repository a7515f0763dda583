ghost use Rattle.std.specs.Prelude.{◌≡◌, ◌<◌, ◌≤◌, ◌↔◌, ◌⊎◌, ℕ, nat_lt, [], position, Contains, IsTrue, MatchOption};
ghost use Rattle.std.specs.Int.{bit_at};
ghost use Rattle.funnel_model.specs.SliceSets.{HasNoneFrom, IsEmpty, IsFirstFrom, IsLowestBit, IsLowestBitFrom, IsLowestOf};

use crate::config::MOST_SLICES;
use std::marker::Model;

/// A set of slices, by their numbers below [`MOST_SLICES`]. Contracts see these numbers as a rising list.
#[derive(Debug, Drop)]
pub struct SliceSet {
    words: [u64; 16],
}

impl Model for SliceSet {
    ghost use Rattle.std.specs.Prelude.{ℕ, List};
    ghost use Rattle.funnel_model.specs.SliceSets.{slices_of};

    ghost Value = { List ℕ };

    ghost view = { λ s. slices_of s.words };
}

impl SliceSet {
    /// The empty set.
    pub fn new() -> Self
        ensures { result ≡ [] }
    {
        SliceSet { words: [0; 16] }
    }

    /// Adds a slice.
    pub fn add(&mut self, slice: u32)
        requires { slice < MOST_SLICES }
        ensures { (other : ℕ) → Contains self.new other ↔ ((other ≡ slice) ⊎ Contains self.old other) }
    {
        self.words[slice as usize / 64] |= 1 << slice % 64;
    }

    /// Whether the slice is in the set.
    pub fn has(&self, slice: u32) -> bool
        requires { slice < MOST_SLICES }
        ensures { IsTrue result ↔ Contains self.now slice }
    {
        self.words[slice as usize / 64] >> slice % 64 & 1 == 1
    }

    /// Takes a slice away, where it is there.
    pub fn remove(&mut self, slice: u32)
        requires { slice < MOST_SLICES }
        ensures { (other : ℕ) → Contains self.new other ↔ ((other ≡ slice → ⊥) × Contains self.old other) }
    {
        self.words[slice as usize / 64] &= !(1 << slice % 64);
    }

    /// The lowest slice of the set. It looks at the set's sixteen words at most.
    pub fn lowest(&self) -> Option<u32>
        ensures { MatchOption result (IsEmpty self.now) (IsLowestOf self.now) }
    {
        let Some(index) = first_used(&self.words) else {
            return None;
        };
        Some(index as u32 * 64 + lowest_bit(self.words[index]))
    }

    /// The lowest slice of the set from this one on. It looks at one word of the set where that has one, and at the words after it
    /// else.
    pub fn next(&self, from: u32) -> Option<u32>
        requires { from ≤ MOST_SLICES }
        ensures { MatchOption result (HasNoneFrom self.now from) (IsFirstFrom self.now from) }
    {
        let words = &self.words;
        let start = from as usize / 64;
        if start == words.len() {
            return None;
        }
        if let Some(bit) = lowest_bit_from(words[start], from % 64) {
            return Some(start as u32 * 64 + bit);
        }
        let Some(more) = first_used(&words[start + 1..]) else {
            return None;
        };
        let index = start + 1 + more;
        Some(index as u32 * 64 + lowest_bit(words[index]))
    }

    /// The slices that both sets have.
    pub fn both(&self, other: &SliceSet) -> SliceSet
        ensures { (slice : ℕ) → Contains result slice ↔ (Contains self.now slice × Contains other.now slice) }
    {
        let mut words = [0; 16];
        for index in 0..16 {
            words[index] = self.words[index] & other.words[index];
        }
        SliceSet { words }
    }

    /// The same set once more.
    pub fn copy(&self) -> SliceSet
        ensures { result ≡ self.now }
    {
        SliceSet { words: self.words }
    }
}

/// The first word that isn't 0.
fn first_used(words: &[u64]) -> Option<usize>
    ensures { result ≡ position (λ w. nat_lt 0 w) words.now }
{
    words.iter().position(|word| 0 < *word)
}

/// The place of the lowest bit that is set.
fn lowest_bit(word: u64) -> u32
    requires { 0 < word }
    ensures { IsLowestBit word result }
{
    word.trailing_zeros()
}

/// The place of the lowest bit from this one on that is set.
fn lowest_bit_from(word: u64, from: u32) -> Option<u32>
    requires { from < 64 }
    ensures { MatchOption result ((bit : ℕ) → from ≤ bit → bit_at word bit ≡ 0) (IsLowestBitFrom word from) }
{
    let left = word >> from;
    if left == 0 {
        None
    } else {
        Some(from + lowest_bit(left))
    }
}
