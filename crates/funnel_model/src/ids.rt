ghost use Rattle.std.specs.Prelude.{◌≡◌, ℕ, List, length};

use std::marker::Model;

/// The numbers of documents, in the order of an answer. Contracts see them as a list.
#[derive(Debug, Drop)]
pub struct Ids {
    ids: Vec<u64>,
}

impl Model for Ids {
    ghost Value = { List ℕ };

    ghost view = { λ l. l.ids.items };
}

impl Ids {
    pub fn new(ids: Vec<u64>) -> Self
        ensures { result ≡ ids.items }
    {
        Ids { ids }
    }

    pub fn len(&self) -> usize
        ensures { result ≡ length self.now }
    {
        self.ids.len()
    }

    pub fn as_slice(&self) -> &[u64]
        ensures { result.now ≡ self.now }
    {
        self.ids.as_slice()
    }

    /// The numbers that it was made of.
    pub fn into_inner(self) -> Vec<u64>
        ensures { result.items ≡ self }
    {
        self.ids
    }
}
