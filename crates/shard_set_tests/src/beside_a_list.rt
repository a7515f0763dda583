//! Random calls of sets of one to eight shards, beside a plain list of documents.
use crate::setting::open_alike;
use engine::{AddFault, ConfigFault, DeleteFault};
use shard_set::ShardSet;
use std::alloc::Global;
use std::test::*;

/// A document of the list: its number, the words that it has of 64, and its place.
#[derive(Clone, Copy)]
struct Listed {
    id: u64,
    words: u64,
    place: u64,
}

/// Something was answered otherwise than by the list, or there was no memory.
#[derive(Drop)]
struct Wrong;

/// Numbers that look random.
#[derive(Drop)]
struct Random(u64);

impl Random {
    fn next(&mut self) -> u64 {
        self.0 = self
            .0
            .wrapping_mul(6_364_136_223_846_793_005)
            .wrapping_add(1_442_695_040_888_963_407);
        self.0 >> 20
    }

    /// Some of 64 words: few, more, or most.
    fn words(&mut self) -> u64 {
        let (a, b, c) = (self.bits(), self.bits(), self.bits());
        match self.next() % 4 {
            0 => a & b & c,
            1 => a & b,
            2 => a,
            _ => a | b,
        }
    }

    fn bits(&mut self) -> u64 {
        (self.next() << 32) ^ self.next()
    }
}

/// A text with these of the 64 words.
fn text_of(alloc: Global, words: u64) -> Result<String, Wrong> {
    let mut text = String::new(alloc);
    for bit in 0..64u32 {
        if (words >> bit) & 1 == 1 {
            let Ok(word) = format!(in alloc; "w{bit} ") else {
                return Err(Wrong);
            };
            text.push_str(&word).or(Err(Wrong))?;
        }
    }
    Ok(text)
}

/// Where a document with this number stands in the list.
fn find_listed(list: &[Listed], id: u64) -> Option<usize> {
    list.iter().position(|listed| listed.id == id)
}

fn add(
    set: &mut ShardSet,
    alloc: Global,
    list: &mut Vec<Listed>,
    commits: &mut u64,
    id: u64,
    words: u64,
) -> Result<(), Wrong> {
    let text = text_of(alloc, words)?;
    let place = commits.saturating_add(1);
    match (find_listed(list.as_slice(), id), set.add(alloc, id, &text)) {
        (None, Ok(told)) if told == place => {
            *commits = place;
            list.push(Listed { id, words, place }).or(Err(Wrong))
        }
        (Some(at), Err(AddFault::Present(told))) => match list.as_slice().get(at) {
            Some(listed) if listed.place == told => Ok(()),
            _ => Err(Wrong),
        },
        _ => Err(Wrong),
    }
}

fn delete(
    set: &mut ShardSet,
    list: &mut Vec<Listed>,
    commits: &mut u64,
    id: u64,
) -> Result<(), Wrong> {
    let place = commits.saturating_add(1);
    match (find_listed(list.as_slice(), id), set.delete(id)) {
        (Some(at), Ok(told)) if told == place => {
            *commits = place;
            if at < list.len() {
                list.remove(at);
            }
            Ok(())
        }
        (None, Err(DeleteFault::Absent)) => Ok(()),
        _ => Err(Wrong),
    }
}

/// Whether these are the numbers of the documents that have the words, in the order of the list.
fn are_of_list(list: &[Listed], words: u64, ids: &[u64]) -> bool {
    let mut left = ids.iter();
    for listed in list {
        if listed.words & words == words && left.next() != Some(&listed.id) {
            return false;
        }
    }
    left.next().is_none()
}

/// A find of the words, and a query of them, which has a word at least.
fn find(set: &mut ShardSet, alloc: Global, list: &[Listed], words: u64) -> Result<(), Wrong> {
    let text = text_of(alloc, words)?;
    let found = set.find(alloc, &text).or(Err(Wrong))?;
    if !are_of_list(list, words, found.as_slice()) {
        return Err(Wrong);
    }
    if words == 0 {
        return Ok(());
    }
    let kept = set.query(alloc, &text).or(Err(Wrong))?;
    if are_of_list(list, words, kept.as_slice()) {
        Ok(())
    } else {
        Err(Wrong)
    }
}

/// One call that looks random.
fn call(
    set: &mut ShardSet,
    alloc: Global,
    list: &mut Vec<Listed>,
    commits: &mut u64,
    random: &mut Random,
) -> Result<(), Wrong> {
    let id = random.next() % 300;
    match random.next() % 8 {
        0..=3 => add(set, alloc, list, commits, id, random.words()),
        4 | 5 => delete(set, list, commits, id),
        6 => find(set, alloc, list.as_slice(), 1 << (id % 64)),
        _ => find(set, alloc, list.as_slice(), random.words() & random.words()),
    }
}

/// So many calls, each answered as by the list.
fn calls(set: &mut ShardSet, alloc: Global, many: u32, seed: u64) -> Result<(), Wrong> {
    let mut list = Vec::new(alloc);
    let mut commits = 0;
    let mut random = Random(seed);
    for _ in 0..many {
        call(set, alloc, &mut list, &mut commits, &mut random)?;
    }
    if set.place() == commits {
        Ok(())
    } else {
        Err(Wrong)
    }
}

/// Whether sets of one to eight shards answer 5,000 calls so, 625 each.
fn all_sizes(alloc: Global) -> Result<bool, ConfigFault> {
    for shards in 1..9 {
        let mut set = open_alike(alloc, shards, b"{\"slices\": 24, \"reserve\": 64}")?;
        if calls(&mut set, alloc, 625, shards as u64).is_err() {
            return Ok(false);
        }
    }
    Ok(true)
}

#[test]
fn shards_answer_as_a_list_does(rt: HostRuntime) -> Result<(), Fail> {
    assert!(rt; all_sizes(rt.alloc())?);
    Ok(())
}
