//! The answers of several shards, in the order of the places.
ghost use Rattle.std.specs.Prelude.{◌≡◌, ◌++◌, ℕ, List, map, IfOk, OnOk};
ghost use Rattle.std.specs.List.{filter_map};
ghost use Rattle.std.specs.List.Sorted.{IsPermutation, IsSorted};
ghost use Rattle.document_store.specs.Finding.{pair_cmp};
ghost use Rattle.shard_set.specs.Merging.{IsInOrder, placed};

use crate::home::Home;
use funnel_model::{Ids, Memory};
use std::alloc::Global;
use std::collections::HashMap;

// Puts down each number with the place of its document.
pub(crate) fn place_each(
    homes: &HashMap<u64, Home>,
    ids: &Ids,
    found: &mut Vec<(u64, u64)>,
) -> Result<(), Memory>
    ensures { OnOk result (found.new.items ≡ found.old.items ++ filter_map (placed homes.now.entries) ids.now) }
{
    let ids = ids.as_slice();
    found.reserve(ids.len())?;
    for id in ids {
        if let Some(home) = homes.get(id) {
            found.push_reserved((home.place, *id));
        }
    }
    Ok(())
}

// Puts pairs in their order. Runs that are in it are kept and merged, where there is memory for a buffer.
fn sort(found: &mut Vec<(u64, u64)>)
    ensures same { IsPermutation found.old.items found.new.items }
    ensures rising { IsSorted pair_cmp found.new.items }
{
    if let Err(_) = found.sort() {
        found.as_mut_slice().sort_unstable();
    }
}

// The numbers in the order of their places.
pub(crate) fn in_order(alloc: Global, found: Vec<(u64, u64)>) -> Result<Ids, Memory>
    ensures { IfOk result (IsInOrder found.items) }
{
    let mut found = found;
    sort(&mut found);
    let ids: Vec<u64> = found.iter().map(|pair| pair.1).collect(alloc)?;
    Ok(Ids::new(ids))
}
