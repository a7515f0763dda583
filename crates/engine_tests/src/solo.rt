//! Engines of one owner.
use engine::{Closed, ConfigFault, Put, Search, Solo, parse_config};
use std::alloc::Global;
use std::test::*;
use std::thread::{Threads, for_each_mut};

/// An empty one with these keys.
fn open(alloc: Global, keys: &[u8]) -> Result<Solo, ConfigFault> {
    let config = parse_config(alloc, keys)?;
    let Ok(solo) = Solo::open(alloc, config) else {
        return Err(ConfigFault::Memory);
    };
    Ok(solo)
}

/// Adds documents with the numbers from one up to another and the word `x`, and tells whether all were added.
fn adds_all(solo: &mut Solo, alloc: Global, from: u64, to: u64) -> bool {
    for id in from..to {
        if solo.add(alloc, id, "x").is_err() {
            return false;
        }
    }
    true
}

/// Deletes the odd numbers from one up to another, and tells whether all were live.
fn deletes_odd(solo: &mut Solo, from: u64, to: u64) -> bool {
    for id in from..to {
        if id % 2 == 1 && solo.delete(id).is_err() {
            return false;
        }
    }
    true
}

/// Whether it finds so many documents.
fn counts(solo: &mut Solo, alloc: Global, kept: Search<'_>, count: u64) -> bool {
    match solo.count(alloc, kept) {
        Ok(told) => told == count,
        Err(_) => false,
    }
}

/// Half of the documents of two slices are deleted; before the next add 16 of the others move, as its configuration keeps a slice's columns
/// free. What it leaves when it is closed, where all its calls were answered so.
fn moves(alloc: Global) -> Result<Option<Closed>, ConfigFault> {
    let mut solo = open(alloc, b"{\"passes\": 3, \"slices\": 3, \"reserve\": 64}")?;
    let filled = adds_all(&mut solo, alloc, 1, 130) && deletes_odd(&mut solo, 1, 128);
    let added = matches!(solo.add(alloc, 200, "y"), Ok(194));
    let kept = counts(&mut solo, alloc, Search::Words("x"), 65);
    if filled && added && kept {
        return Ok(Some(solo.close()));
    }
    Ok(None)
}

/// Whether so many commits and events are left.
fn leaves(closed: &Option<Closed>, commits: usize, events: u64) -> bool {
    match closed {
        Some(closed) => closed.commits.len() == commits && closed.events == events,
        None => false,
    }
}

#[test]
fn documents_move_before_an_add_that_needs_room(rt: HostRuntime) -> Result<(), Fail> {
    let closed = moves(rt.alloc())?;
    assert!(rt; leaves(&closed, 194, 358));
    Ok(())
}

/// A put takes the place of a live document, and of it alone.
fn replaces(alloc: Global) -> Result<bool, ConfigFault> {
    let mut solo = open(alloc, b"{}")?;
    let added = matches!(solo.put(alloc, 1, "the cat"), Ok(Put::Added(1)));
    let replaced = matches!(solo.put(alloc, 1, "a dog"), Ok(Put::Replaced(2)));
    let got = match solo.get(alloc, 1) {
        Ok((place, text)) => place == 2 && text.as_str() == "a dog",
        Err(_) => false,
    };
    let counted = counts(&mut solo, alloc, Search::Words("cat"), 0)
        && counts(&mut solo, alloc, Search::Query("dog -cat"), 1);
    Ok(added && replaced && got && counted)
}

#[test]
fn a_put_replaces(rt: HostRuntime) -> Result<(), Fail> {
    assert!(rt; replaces(rt.alloc())?);
    Ok(())
}

/// Two that are filled at the same time, by a thread each.
fn fill_beside<R: Threads + Sync>(rt: &R, alloc: Global) -> Result<bool, ConfigFault> {
    let mut both = Vec::with_capacity(alloc, 2)?;
    both.push_reserved(open(alloc, b"{}")?);
    both.push_reserved(open(alloc, b"{\"slices\": 4}")?);
    for_each_mut(
        rt,
        both.as_mut_slice(),
        2,
        &|_, solo: &mut Solo| {
            adds_all(solo, alloc, 1, 100);
        },
    );
    let mut found = true;
    while let Some(mut solo) = both.pop() {
        found = found && counts(&mut solo, alloc, Search::Words("x"), 99);
    }
    Ok(found)
}

#[test]
fn two_are_filled_by_two_threads(rt: HostRuntime) -> Result<(), Fail> {
    assert!(rt; fill_beside(&rt, rt.alloc())?);
    Ok(())
}
