//! Which shard a document goes to.
ghost use Rattle.std.specs.Prelude.{◌≡◌, ◌<◌, ◌≤◌, length, IfOk};
ghost use Rattle.funnel_model.specs.Words.{AreWordsOf};
ghost use Rattle.shard_set.specs.Parts.{distinct_words, shard_for};

use document_store::Doc;
use funnel_model::{Memory, Text};
use std::alloc::Global;
use word_cut::words;

/// As many shards as there may be.
pub const MOST_SHARDS: usize = 8;

// The shard among so many for a document of so many distinct words.
pub(crate) fn shard_for(shards: usize, words: usize) -> usize
    requires some { 0 < shards }
    requires few { shards ≤ MOST_SHARDS }
    ensures shard { result ≡ shard_for shards words }
    ensures in_range { result < shards }
{
    let mut shard = 0;
    let mut least: usize = 8;
    for k in 1..shards {
        if words >= least {
            shard = k;
        }
        least *= 4;
    }
    shard
}

// How many distinct words a document has.
pub(crate) fn word_count(doc: &Doc) -> usize
    ensures { result ≡ distinct_words doc.now.text }
{
    doc.words().len()
}

// A document of the text, with its words.
pub(crate) fn document(alloc: Global, id: u64, text: &str) -> Result<Doc, Memory>
    ensures id { IfOk result (λ doc. doc.id ≡ id) }
    ensures text { IfOk result (λ doc. doc.text ≡ text.now) }
{
    let Ok(words) = words(alloc, text) else {
        return Err(Memory);
    };
    let text = Text::new(String::from_str(alloc, text)?);
    Ok(Doc::new(id, text, words))
}
