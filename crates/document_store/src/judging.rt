ghost use Rattle.std.specs.Prelude.{◌≡◌, ℕ, Bool, List};

use crate::doc::{Doc, verify};
use funnel_model::WordSet;

/// Where a document is looked at for more than words, it counts as so many words at least, so that a turn has 32 of them at most.
pub const LEAST_COST: usize = 8;

/// Decides by their texts which documents a find keeps. It is asked under the lock of the engine, for which others wait meanwhile, and
/// must not call the engine.
pub trait Judge {
    // Whether it keeps the documents with a text.
    ghost test: { Self → List ℕ → Bool };

    // How many words it looks for in a document at most.
    ghost cost: { Self → ℕ };

    /// Whether it keeps the document.
    fn keeps(&self, doc: &Doc) -> bool
        ensures { result ≡ test self.now doc.now.text };

    /// How many words it looks for in a document at most, by which a find ends its turns. It is asked once a turn. What else it
    /// does with a document should take no longer.
    fn cost(&self) -> usize
        ensures { result ≡ cost self.now };
}

/// A set of words keeps the documents that have each of them.
impl Judge for WordSet {
    ghost use Rattle.std.specs.Prelude.{length};
    ghost use Rattle.document_store.specs.Finding.{has_words};

    ghost test = { has_words };

    ghost cost = { λ words. length words };

    fn keeps(&self, doc: &Doc) -> bool {
        let _ = doc.words();
        verify(doc, self)
    }

    fn cost(&self) -> usize {
        self.len()
    }
}
