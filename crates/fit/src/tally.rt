ghost use Rattle.std.specs.Prelude.{◌≡◌, ◌+◌, ◌<◌, ◌≤◌, ◌^◌, ℕ, List, [], ◌∷◌, ◌++◌, OnOk, length};
ghost use Rattle.funnel_io.specs.declared.line_reader.TheConstants.{MAX_LINE_LEN};
ghost use Rattle.fit.specs.Steps.{AddsUp, CountsMore, HasCounted, entries_of};
ghost use Rattle.fit.specs.Tallies.{total};

use funnel_model::{Memory, WordSet};
use std::alloc::Global;
use std::collections::HashMap;
use word_cut::words;

/// How many texts have each word. It takes memory for each word once, and none for a text.
#[derive(Drop)]
pub(crate) struct Tally {
    /// The words, each with the number of texts that have it.
    pub(crate) counts: HashMap<Vec<u8>, u64>,
    /// The texts that were counted.
    pub(crate) documents: u64,
    /// Their words together, each once a text.
    pub(crate) words: u64,
}

/// A tally of no text.
pub(crate) fn no_texts(alloc: Global) -> Tally
    ensures { HasCounted [] (entries_of result.counts.entries) result.documents result.words }
{
    Tally {
        counts: HashMap::new(alloc),
        documents: 0,
        words: 0,
    }
}

/// Counts one more text.
pub(crate) fn count_text(alloc: Global, tally: &mut Tally, text: &str) -> Result<(), Memory>
    requires short { length text.now ≤ MAX_LINE_LEN }
    requires room { tally.old.documents < 2 ^ 40 }
    requires sums { AddsUp (entries_of tally.old.counts.entries) tally.old.documents tally.old.words }
    ensures counted { OnOk result ((texts : List (List ℕ)) →
        HasCounted texts (entries_of tally.old.counts.entries) tally.old.documents tally.old.words →
        HasCounted (texts ++ text.now ∷ []) (entries_of tally.new.counts.entries) tally.new.documents tally.new.words) }
    ensures one_more { OnOk result (tally.new.documents ≡ tally.old.documents + 1) }
{
    let Ok(set) = words(alloc, text) else {
        return Err(Memory);
    };
    let distinct = set.len() as u64;
    count_words(alloc, &mut tally.counts, &set)?;
    tally.documents += 1;
    tally.words += distinct;
    Ok(())
}

/// Counts each word of a set once more.
fn count_words(
    alloc: Global,
    counts: &mut HashMap<Vec<u8>, u64>,
    set: &WordSet,
) -> Result<(), Memory>
    requires room { total (entries_of counts.old.entries) + length set.now < 2 ^ 64 }
    ensures counted { OnOk result (CountsMore (entries_of counts.old.entries) (entries_of counts.new.entries) set.now) }
{
    for word in set.iter() {
        count_word(alloc, counts, word)?;
    }
    Ok(())
}

/// Counts a word once more.
fn count_word(alloc: Global, counts: &mut HashMap<Vec<u8>, u64>, word: &[u8]) -> Result<(), Memory>
    requires room { total (entries_of counts.old.entries) + 1 < 2 ^ 64 }
    ensures counted { OnOk result (CountsMore (entries_of counts.old.entries) (entries_of counts.new.entries) (word.now ∷ [])) }
{
    if let Some(count) = counts.get_mut(word) {
        *count += 1;
        return Ok(());
    }
    let mut key = Vec::with_capacity(alloc, word.len())?;
    key.extend_from_slice(word)?;
    counts.insert(key, 1)?;
    Ok(())
}
