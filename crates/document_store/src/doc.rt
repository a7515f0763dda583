ghost use Rattle.std.specs.Prelude.{◌≡◌, ◌↔◌, ℕ, List, Contains, IsTrue, IfOk};
ghost use Rattle.std.specs.Cmp.Lexicographic.{slice_cmp};
ghost use Rattle.std.specs.Ordering.{nat_cmp};
ghost use Rattle.std.specs.declared.cmp.Ordering.TheVariants.{Less};
ghost use Rattle.funnel_model.specs.Words.{AreWordsOf, IsRising};
ghost use Rattle.document_store.specs.Documents.{HasEvery};

use funnel_model::{Memory, Text, WordSet, Words};
use std::alloc::Global;
use std::cmp::Ordering;
use std::marker::Model;

/// A document: its number, its text, and the set of the text's words. Contracts see these three.
#[derive(Debug, Drop)]
pub struct Doc {
    id: u64,
    text: Text,
    words: WordSet,
}

impl Model for Doc {
    ghost use Rattle.document_store.specs.Documents.{Parts};
    ghost use Rattle.funnel_model.specs.Words.{AreWordsOf};

    ghost Value = { Parts };

    ghost view = { λ d. record { id = d.id; text = d.text; words = d.words } };

    ghost invariant = { λ d. AreWordsOf d.words d.text };
}

impl Doc {
    /// A document whose set of words is that of its text.
    pub fn new(id: u64, text: Text, words: WordSet) -> Doc
        requires { AreWordsOf words text }
        ensures { result ≡ record { id = id; text = text; words = words } }
    {
        Doc { id, text, words }
    }

    /// The same document once more.
    pub fn copy(&self, alloc: Global) -> Result<Doc, Memory>
        ensures { IfOk result (λ doc. doc ≡ self.now) }
    {
        Ok(Doc {
            id: self.id,
            text: self.text.copy(alloc)?,
            words: self.words.copy(alloc)?,
        })
    }

    /// The document's number.
    pub fn id(&self) -> u64
        ensures { result ≡ self.now.id }
    {
        self.id
    }

    /// The document's text, as it was given.
    pub fn text(&self) -> &str
        ensures { result.now ≡ self.now.text }
    {
        self.text.as_str()
    }

    /// The set of the text's words.
    pub fn words(&self) -> &WordSet
        ensures words { result.now ≡ self.now.words }
        ensures of_text { AreWordsOf self.now.words self.now.text }
    {
        &self.words
    }
}

/// Whether the document has every word. Where there is none, it isn't looked at. Few words are looked up by a binary search
/// each. Many are compared with those of the document by one pass over both, so that it takes no longer than reading them.
pub fn verify(doc: &Doc, words: &WordSet) -> bool
    ensures { IsTrue result ↔ HasEvery doc.now.words words.now }
{
    if words.len() == 0 {
        return true;
    }
    let set = &doc.words;
    let steps = usize::BITS - set.len().leading_zeros();
    if words.len().saturating_mul(steps as usize) <= set.len() {
        has_each(set, words)
    } else {
        has_all(set, words)
    }
}

/// Whether each word is in the set, by a binary search for each.
fn has_each(set: &WordSet, words: &WordSet) -> bool
    ensures { IsTrue result ↔ HasEvery set.now words.now }
{
    words.iter().all(|word| set.contains(word))
}

/// Whether each word is in the set, by one pass over both.
fn has_all(set: &WordSet, words: &WordSet) -> bool
    ensures { IsTrue result ↔ HasEvery set.now words.now }
{
    let mut left = set.iter();
    for word in words.iter() {
        if !reach(&mut left, word) {
            return false;
        }
    }
    true
}

/// Comes to the word, and past it, where it is among those that are left; those above it are left then.
fn reach(left: &mut Words<'_>, word: &[u8]) -> bool
    requires rising { IsRising left.old }
    ensures found { IsTrue result ↔ Contains left.old word.now }
    ensures above { IsTrue result → (other : List ℕ) → slice_cmp nat_cmp word.now other ≡ Less → Contains left.old other → Contains left.new other }
    ensures same { (other : List ℕ) → Contains left.new other → Contains left.old other }
    ensures rising { IsRising left.new }
{
    while let Some(next) = left.next() {
        match next.cmp(word) {
            Ordering::Less => {}
            Ordering::Equal => return true,
            Ordering::Greater => return false,
        }
    }
    false
}
