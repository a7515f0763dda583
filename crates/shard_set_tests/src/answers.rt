//! Two shards: what they are answered together, where documents go, and what is left of each.
use crate::setting::open_two;
use engine::{AddFault, Closed, ConfigFault, DeleteFault, Solo, parse_config};
use shard_set::ShardSet;
use std::alloc::Global;
use std::test::*;

/// Eight words, so a document for the second of two shards.
const LONG: &str = "a b c d e f g h";

/// Whether it finds these numbers.
fn finds(set: &mut ShardSet, alloc: Global, query: &str, numbers: &[u64]) -> bool {
    match set.find(alloc, query) {
        Ok(ids) => ids.as_slice() == numbers,
        Err(_) => false,
    }
}

/// Whether a query keeps these numbers.
fn keeps(set: &mut ShardSet, alloc: Global, text: &str, numbers: &[u64]) -> bool {
    match set.query(alloc, text) {
        Ok(ids) => ids.as_slice() == numbers,
        Err(_) => false,
    }
}

/// Short and long documents of one order, of which one is deleted.
fn short_and_long(alloc: Global) -> Result<bool, ConfigFault> {
    let mut set = open_two(alloc, b"{}", b"{}")?;
    let added = matches!(set.add(alloc, 1, "a"), Ok(1))
        && matches!(set.add(alloc, 2, LONG), Ok(2))
        && matches!(set.add(alloc, 3, "a"), Ok(3));
    let found = finds(&mut set, alloc, "a", &[1, 2, 3])
        && keeps(&mut set, alloc, "a -h", &[1, 3])
        && keeps(&mut set, alloc, "h", &[2]);
    let refused = matches!(set.add(alloc, 2, "z"), Err(AddFault::Present(2)))
        && matches!(set.delete(4), Err(DeleteFault::Absent))
        && set.query(alloc, "(").is_err();
    let deleted = matches!(set.delete(2), Ok(4)) && finds(&mut set, alloc, "h", &[]);
    Ok(added && found && refused && deleted && set.place() == 4)
}

#[test]
fn documents_of_all_shards_are_found_in_one_order(rt: HostRuntime) -> Result<(), Fail> {
    assert!(rt; short_and_long(rt.alloc())?);
    Ok(())
}

/// Adds documents with the numbers from one up to another and the word `x`, and tells whether each got its own number as its place.
fn adds_all(set: &mut ShardSet, alloc: Global, from: u64, to: u64) -> bool {
    for id in from..to {
        if !matches!(set.add(alloc, id, "x"), Ok(place) if place == id) {
            return false;
        }
    }
    true
}

/// Deletes the odd numbers up to another, and tells whether all were live.
fn deletes_odd(set: &mut ShardSet, to: u64) -> bool {
    for id in 1..to {
        if id % 2 == 1 && set.delete(id).is_err() {
            return false;
        }
    }
    true
}

/// How many numbers are found, and the first and the last of them.
fn ends_of(set: &mut ShardSet, alloc: Global, query: &str) -> Option<(usize, u64, u64)> {
    let Ok(ids) = set.find(alloc, query) else {
        return None;
    };
    let first = ids.as_slice().first()?;
    let last = ids.as_slice().last()?;
    Some((ids.len(), *first, *last))
}

/// One shard moves documents for an add, while another has room; both are closed.
fn moves(alloc: Global) -> Result<Option<Vec<Closed>>, ConfigFault> {
    let mut set = open_two(alloc, b"{\"slices\": 3, \"reserve\": 64}", b"{}")?;
    let filled = adds_all(&mut set, alloc, 1, 130) && deletes_odd(&mut set, 128);
    let added = matches!(set.add(alloc, 500, LONG), Ok(194))
        && matches!(set.add(alloc, 200, "y"), Ok(195));
    let found = ends_of(&mut set, alloc, "x") == Some((65, 2, 129))
        && ends_of(&mut set, alloc, "") == Some((67, 2, 200));
    let deleted = matches!(set.delete(500), Ok(196))
        && finds(&mut set, alloc, "h", &[])
        && set.place() == 196;
    if filled && added && found && deleted {
        return Ok(Some(set.close()));
    }
    Ok(None)
}

/// Whether so many commits and events are left of a shard.
fn leaves(left: &Option<Vec<Closed>>, shard: usize, commits: usize, events: u64) -> bool {
    match left {
        Some(left) => match left.as_slice().get(shard) {
            Some(closed) => closed.commits.len() == commits && closed.events == events,
            None => false,
        },
        None => false,
    }
}

#[test]
fn one_shard_moves_documents_beside_another(rt: HostRuntime) -> Result<(), Fail> {
    let left = moves(rt.alloc())?;
    assert!(rt; leaves(&left, 0, 194, 362));
    assert!(rt; leaves(&left, 1, 2, 9));
    Ok(())
}

/// A shard is full, and another has room.
fn one_is_full(alloc: Global) -> Result<bool, ConfigFault> {
    let mut set = open_two(alloc, b"{\"slices\": 1}", b"{}")?;
    let filled = adds_all(&mut set, alloc, 1, 65);
    let full = matches!(set.add(alloc, 65, "x"), Err(AddFault::Full(_)));
    let beside = matches!(set.add(alloc, 65, LONG), Ok(65)) && set.place() == 65;
    let present = matches!(set.add(alloc, 65, "x"), Err(AddFault::Present(65)));
    let found = ends_of(&mut set, alloc, "") == Some((65, 1, 65));
    Ok(filled && full && beside && present && found)
}

#[test]
fn a_shard_is_full_beside_another_with_room(rt: HostRuntime) -> Result<(), Fail> {
    assert!(rt; one_is_full(rt.alloc())?);
    Ok(())
}
