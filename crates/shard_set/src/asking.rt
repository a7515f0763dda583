//! Calls of the shards of a set.
ghost use Rattle.std.specs.Prelude.{◌≡◌, ◌<◌, ◌++◌, ℕ, List, [], length, MatchResult};
ghost use Rattle.shard_set.specs.Asking.{HasFound, IsFindFault, IsSearchFault};
ghost use Rattle.shard_set.specs.Calls.{AddsTo, AsksOne, DeletesFrom, FindsIn, SearchesIn};

use crate::home::Home;
use crate::merging::place_each;
use document_store::Doc;
use engine::{AddFault, DeleteFault, FindFault, SearchFault, Solo};
use std::alloc::Global;
use std::collections::HashMap;

// Adds the document to the shard.
pub(crate) fn ask_add(
    shards: &mut Vec<Solo>,
    shard: usize,
    alloc: Global,
    doc: Doc,
) -> Result<u64, AddFault>
    requires in_range { shard < length shards.old.items }
    ensures { AsksOne (λ s t. AddsTo doc.id doc.text s t result) shard shards.old.items shards.new.items }
{
    let one = &mut shards[shard];
    one.add_doc(alloc, doc)
}

// Deletes the document of the shard.
pub(crate) fn ask_delete(shards: &mut Vec<Solo>, shard: usize, id: u64) -> Result<u64, DeleteFault>
    requires in_range { shard < length shards.old.items }
    ensures { AsksOne (λ s t. DeletesFrom id s t result) shard shards.old.items shards.new.items }
{
    let one = &mut shards[shard];
    one.delete(id)
}

// What the shards find, one after the other, each number with the place of its document.
pub(crate) fn find_each(
    alloc: Global,
    shards: &mut Vec<Solo>,
    homes: &HashMap<u64, Home>,
    query: &str,
) -> Result<Vec<(u64, u64)>, FindFault>
    ensures { MatchResult result (λ found. HasFound (FindsIn query.now) homes.now.entries shards.old.items (length shards.old.items) shards.new.items found.items)
        (IsFindFault query.now shards.old.items shards.new.items) }
{
    let mut found = Vec::new(alloc);
    for shard in shards.iter_mut() {
        let ids = shard.find(alloc, query)?;
        let Ok(()) = place_each(homes, &ids, &mut found) else {
            return Err(FindFault::Memory);
        };
    }
    Ok(found)
}

// What the shards keep by the expression of a query.
pub(crate) fn search_each(
    alloc: Global,
    shards: &mut Vec<Solo>,
    homes: &HashMap<u64, Home>,
    text: &str,
) -> Result<Vec<(u64, u64)>, SearchFault>
    ensures { MatchResult result (λ found. HasFound (SearchesIn text.now) homes.now.entries shards.old.items (length shards.old.items) shards.new.items found.items)
        (IsSearchFault text.now shards.old.items shards.new.items) }
{
    let mut found = Vec::new(alloc);
    for shard in shards.iter_mut() {
        let ids = shard.query(alloc, text)?;
        let Ok(()) = place_each(homes, &ids, &mut found) else {
            return Err(SearchFault::Memory);
        };
    }
    Ok(found)
}
