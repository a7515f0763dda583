ghost use Rattle.std.specs.Prelude.{◌≡◌, ◌↔◌, IsTrue, [], length, map};
ghost use Rattle.funnel_model.specs.Listed.{listed_pair, IsInByteOrder};

use std::marker::Model;

/// Words with their counts, in byte order of the words, each word once.
///
/// A contract sees the list of pairs of a word's bytes and its count.
#[derive(Debug, Drop)]
pub struct Listed {
    entries: Vec<(String, u64)>,
}

impl Model for Listed {
    ghost use Rattle.std.specs.Prelude.{ℕ, List, map};
    ghost use Rattle.funnel_model.specs.Listed.{listed_pair, IsInByteOrder};

    ghost Value = { List (List ℕ × ℕ) };

    ghost view = { λ listed. map listed_pair listed.entries.items };

    ghost invariant = { λ listed. IsInByteOrder (map listed_pair listed.entries.items) };
}

impl Listed {
    /// Lists words that stand in byte order, each once.
    pub fn new(entries: Vec<(String, u64)>) -> Listed
        requires { IsInByteOrder (map listed_pair entries.items) }
        ensures { result ≡ map listed_pair entries.items }
    {
        Listed { entries }
    }

    /// The number of words.
    pub fn len(&self) -> usize
        ensures { result ≡ length self.now }
    {
        self.entries.len()
    }

    /// Whether no word is listed.
    pub fn is_empty(&self) -> bool
        ensures { IsTrue result ↔ (self.now ≡ []) }
    {
        self.entries.is_empty()
    }

    /// The words with their counts, in byte order of the words.
    pub fn as_slice(&self) -> &[(String, u64)]
        ensures entries { map listed_pair result.now ≡ self.now }
        ensures in_order { IsInByteOrder self.now }
    {
        self.entries.as_slice()
    }

    /// The vector that `new` was given.
    pub fn into_inner(self) -> Vec<(String, u64)>
        ensures entries { map listed_pair result.items ≡ self }
        ensures in_order { IsInByteOrder self }
    {
        self.entries
    }
}
