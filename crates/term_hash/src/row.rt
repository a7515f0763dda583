ghost use Rattle.std.specs.Prelude.{◌≡◌, ◌<◌, ◌≤◌, ℕ, List};
ghost use Rattle.term_hash.specs.Hash.{fnv_1a, mixed, row_number};

use crate::hash::{fnv_1a_of, mix, take_in};
use crate::row_count::RowCount;
use std::marker::Model;

/// The hash of a word's bytes, from which each of its rows is told. A word with many rows is hashed once.
#[derive(Debug, Drop)]
pub struct WordHash {
    hash: u64,
}

impl Model for WordHash {
    ghost Value = { ℕ };

    ghost view = { λ w. w.hash };
}

impl WordHash {
    /// Hashes the word's bytes.
    pub fn new(word: &[u8]) -> WordHash
        ensures { result ≡ fnv_1a word.now }
    {
        WordHash {
            hash: fnv_1a_of(word),
        }
    }

    /// The hash of the bytes alone with its high half mixed into its low half: 64 bits by which a table finds the word.
    pub fn spread(&self) -> u64
        ensures { result ≡ mixed self.now }
    {
        mix(self.hash)
    }

    /// Row `j` of the word, among so many rows: the hash of its bytes followed by `j`, with the high half mixed in,
    /// modulo the number of rows.
    pub fn row(&self, j: u8, rows: &RowCount) -> u32
        ensures exact { (word : List ℕ) → self.now ≡ fnv_1a word → result ≡ row_number word j rows.now }
        ensures within { result < rows.now }
    {
        rows.remainder(mix(take_in(self.hash, j)))
    }
}

/// Row `j` of a word, among `rows` rows.
pub fn row_of(word: &[u8], j: u8, rows: u32) -> u32
    requires { 1 ≤ rows }
    ensures exact { result ≡ row_number word.now j rows }
    ensures within { result < rows }
{
    WordHash::new(word).row(j, &RowCount::new(rows))
}
