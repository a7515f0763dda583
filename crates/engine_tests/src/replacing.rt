//! Four threads on an engine that keeps columns free: two replace documents, one finds, and one reads the journal.
use crate::beside::expect_beside;
use crate::caller::Caller;
use crate::reports::{Mix, Parts, Report, Wrong, search};
use crate::setting::config;
use engine::{AddFault, DeleteFault, PoolName};
use funnel_model::{Block, Blocked, Commit};
use std::sync::Wait;
use std::test::*;

/// The documents of each of the threads that replace. Those of both take four fifths of the columns of 32 slices of 128.
const DOCUMENTS: u64 = 1638;

/// Passes 0 and 1 replace documents of their own, pass 2 reads the journal, and pass 3 finds.
pub(crate) fn report<N: PoolName, R: Wait>(caller: &mut Caller<'_, N, R>) -> Result<Report, Wrong> {
    match caller.number() {
        2 => read(caller),
        3 => search(caller),
        _ => replace_all(caller),
    }
}

fn replace_all<N: PoolName, R: Wait>(caller: &mut Caller<'_, N, R>) -> Result<Report, Wrong> {
    let first = 10_000 * caller.number() as u64;
    let mut live = vec![in caller.alloc; false; DOCUMENTS as usize].or(Err(Wrong))?;
    add_each(caller, live.as_mut_slice(), first)?;
    replace_often(caller, live.as_mut_slice(), first)?;
    Ok(Report::Left { first, live })
}

fn add_each<N: PoolName, R: Wait>(
    caller: &mut Caller<'_, N, R>,
    live: &mut [bool],
    first: u64,
) -> Result<(), Wrong> {
    let mut id = first;
    for is_live in live.iter_mut() {
        *is_live = add_one(caller, id)?;
        id = id.saturating_add(1);
    }
    Ok(())
}

/// 2,000 times a document is replaced, in an order that looks random.
fn replace_often<N: PoolName, R: Wait>(
    caller: &mut Caller<'_, N, R>,
    live: &mut [bool],
    first: u64,
) -> Result<(), Wrong> {
    let mut random = first.wrapping_add(1);
    for _ in 0..2000 {
        random = random
            .wrapping_mul(6_364_136_223_846_793_005)
            .wrapping_add(1_442_695_040_888_963_407);
        let i = (random >> 33) % DOCUMENTS;
        if let Some(is_live) = live.get_mut(i as usize) {
            replace_one(caller, is_live, first.saturating_add(i))?;
        }
    }
    Ok(())
}

/// Replaces a document, or adds it where it was refused before.
fn replace_one<N: PoolName, R: Wait>(
    caller: &mut Caller<'_, N, R>,
    is_live: &mut bool,
    id: u64,
) -> Result<(), Wrong> {
    match (*is_live, caller.delete(id)) {
        (true, Ok(_)) | (false, Err(DeleteFault::Absent)) => {}
        _ => return Err(Wrong),
    }
    *is_live = add_one(caller, id)?;
    Ok(())
}

/// Adds a document whose number no other thread adds. Whether it was added: it may be refused while a slice is guarded or cleared.
fn add_one<N: PoolName, R: Wait>(caller: &mut Caller<'_, N, R>, id: u64) -> Result<bool, Wrong> {
    match caller.add_told(id, "x") {
        Ok(_) => Ok(true),
        Err(AddFault::Full(blocks)) => {
            if passes(&blocks) {
                Ok(false)
            } else {
                Err(Wrong)
            }
        }
        Err(_) => Err(Wrong),
    }
}

/// Whether what keeps documents out passes: a find that guards a slice, or a clear.
fn passes(blocks: &Blocked) -> bool {
    blocks.as_slice().iter().any(|block| matches!(
        block,
        Block::Guarded { .. } | Block::Clearing { .. }
    ))
}

fn read<N: PoolName, R: Wait>(caller: &mut Caller<'_, N, R>) -> Result<Report, Wrong> {
    let mut commits = Vec::new(caller.alloc);
    read_often(caller, &mut commits)?;
    Ok(Report::Read(commits))
}

/// 200 journals, each of the commits since the last one.
fn read_often<N: PoolName, R: Wait>(
    caller: &mut Caller<'_, N, R>,
    commits: &mut Vec<Commit>,
) -> Result<(), Wrong> {
    for _journal in 0..200 {
        let more = caller.journal(commits.len() as u64).or(Err(Wrong))?;
        commits.extend_from_slice(more.as_slice()).or(Err(Wrong))?;
    }
    Ok(())
}

#[test]
fn documents_are_replaced_by_two_threads(rt: HostRuntime) {
    let mix = Mix::new(rt.alloc(), Parts::Replace);
    let mut config = config(rt.alloc(), 4, 32, 2, 65_536);
    // Two slices: a thread that stands still in an add keeps one from being used again.
    config.reserve = 256;
    expect_beside(&rt, rt.alloc(), config, &mix)
}
