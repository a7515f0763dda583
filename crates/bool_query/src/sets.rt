ghost use Rattle.std.specs.Prelude.{◌≡◌, ◌↔◌, ◌++◌, ℕ, List, map, Contains, IfOk, OnOk};
ghost use Rattle.funnel_model.specs.Words.{IsRising};
ghost use Rattle.bool_query.specs.WordLists.{has, in_some, together};

use funnel_model::{Memory, WordSet};
use std::alloc::Global;

/// The words that are in one of the sets. They are sorted once, all together.
pub fn words_of_all(alloc: Global, sets: &[WordSet]) -> Result<WordSet, Memory>
    ensures { IfOk result (λ found. (word : List ℕ) → has found word ≡ in_some sets.now word) }
{
    let mut words = listed(alloc, sets)?;
    sort_distinct(&mut words);
    WordSet::from_sorted(alloc, words.as_slice())
}

/// The words of the sets, one set after the other.
fn listed(alloc: Global, sets: &[WordSet]) -> Result<Vec<&[u8]>, Memory>
    ensures { IfOk result (λ found. map (λ w. w.now) found.items ≡ together sets.now) }
{
    let mut words = Vec::new(alloc);
    for set in sets {
        add_words(&mut words, set)?;
    }
    Ok(words)
}

/// Appends the words of a set.
fn add_words<'a>(words: &mut Vec<&'a [u8]>, set: &'a WordSet) -> Result<(), Memory>
    ensures { OnOk result (map (λ w. w.now) words.new.items ≡ map (λ w. w.now) words.old.items ++ set.now) }
{
    for word in set.iter() {
        words.push(word)?;
    }
    Ok(())
}

/// Puts the words in byte order, each once.
fn sort_distinct(words: &mut Vec<&[u8]>)
    ensures rising { IsRising (map (λ w. w.now) words.new.items) }
    ensures same { (word : List ℕ) → Contains (map (λ w. w.now) words.new.items) word ↔ Contains (map (λ w. w.now) words.old.items) word }
{
    words.sort_unstable();
    words.dedup();
}
