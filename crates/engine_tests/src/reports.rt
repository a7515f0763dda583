//! Four threads on one engine, each with a part of its own. What they were answered is compared with a plain model of the commits.
use crate::beside::Task;
use crate::caller::Caller;
use crate::{four_passes, replacing};
use engine::{Closed, PoolName};
use funnel_model::{Commit, Ids};
use std::alloc::{AllocError, Global};
use std::sync::{Mutex, Wait};

/// Why a thread gave up: a call was answered otherwise than it can be, or there was no memory for the test's own lists.
#[derive(Clone, Copy)]
pub(crate) struct Wrong;

/// What a thread tells in the end.
#[derive(Drop)]
pub(crate) enum Report {
    /// Whether each of the documents from the number `first` on is live.
    Left { first: u64, live: Vec<bool> },
    /// What was found.
    Found(Vec<Seen>),
    /// The commits, as far as they were read.
    Read(Vec<Commit>),
}

/// The answer of a find, and the number of commits before it and after it.
#[derive(Drop)]
pub(crate) struct Seen {
    before: u64,
    ids: Ids,
    after: u64,
}

/// What the threads do.
#[derive(Clone, Copy)]
pub(crate) enum Parts {
    Recycle,
    Replace,
}

/// Threads with these parts, and what they told.
#[derive(Drop)]
pub(crate) struct Mix {
    parts: Parts,
    reports: Mutex<Vec<Report>>,
}

impl Task for Mix {
    fn work<N: PoolName, R: Wait>(&self, caller: &mut Caller<'_, N, R>) {
        let report = match self.parts {
            Parts::Recycle => four_passes::report(caller),
            Parts::Replace => replacing::report(caller),
        };
        if let Ok(report) = report {
            let _ = self.reports.lock(caller.rt).push(report);
        }
    }

    fn is_right<R: Wait>(&self, rt: &R, alloc: Global, closed: &Closed) -> bool {
        let reports = self.reports.lock(rt);
        matches!(
            are_right(alloc, closed.commits.as_slice(), reports.as_slice()),
            Ok(true)
        )
    }
}

impl Mix {
    pub fn new(alloc: Global, parts: Parts) -> Mix {
        let reports = Mutex::new(Vec::new(alloc));
        Mix { parts, reports }
    }
}

/// 100 finds.
pub(crate) fn search<N: PoolName, R: Wait>(caller: &mut Caller<'_, N, R>) -> Result<Report, Wrong> {
    let mut seen = Vec::new(caller.alloc);
    find_often(caller, &mut seen)?;
    Ok(Report::Found(seen))
}

fn find_often<N: PoolName, R: Wait>(
    caller: &mut Caller<'_, N, R>,
    seen: &mut Vec<Seen>,
) -> Result<(), Wrong> {
    for _find in 0..100 {
        let found = find_one(caller)?;
        seen.push(found).or(Err(Wrong))?;
    }
    Ok(())
}

/// A find between two reads of the number of commits.
fn find_one<N: PoolName, R: Wait>(caller: &mut Caller<'_, N, R>) -> Result<Seen, Wrong> {
    match (caller.place(), caller.find("x"), caller.place()) {
        (Ok(before), Ok(ids), Ok(after)) => Ok(Seen { before, ids, after }),
        _ => Err(Wrong),
    }
}

/// Whether all reports are right. A thread that was answered otherwise than it can be tells nothing.
fn are_right(alloc: Global, commits: &[Commit], reports: &[Report]) -> Result<bool, AllocError> {
    let mut right = reports.len() == 4;
    for report in reports {
        right = right && is_right(alloc, commits, report)?;
    }
    Ok(right)
}

/// Whether a thread's report is what the model of the commits gives.
fn is_right(alloc: Global, commits: &[Commit], report: &Report) -> Result<bool, AllocError> {
    match report {
        Report::Left { first, live } => Ok(are_left(commits, *first, live.as_slice())),
        Report::Found(seen) => were_live(alloc, commits, seen.as_slice()),
        Report::Read(read) => Ok(begin_with(commits, read.as_slice())),
    }
}

/// Whether the documents from this number on are live in the end where these say so.
fn are_left(commits: &[Commit], first: u64, live: &[bool]) -> bool {
    let mut id = first;
    for is_live in live {
        if is_live_after(commits, id) != *is_live {
            return false;
        }
        id = id.saturating_add(1);
    }
    true
}

fn is_live_after(commits: &[Commit], id: u64) -> bool {
    let mut live = false;
    for commit in commits {
        if commit.id == id {
            live = commit.add;
        }
    }
    live
}

/// Whether these are the first of the commits.
fn begin_with(commits: &[Commit], read: &[Commit]) -> bool {
    read.len() <= commits.len()
        && commits.iter().zip(read).all(|(commit, other)| commit.add == other.add
            && commit.id == other.id)
}

/// Whether each find was answered by what was live, of those of one pass in their order.
fn were_live(alloc: Global, commits: &[Commit], seen: &[Seen]) -> Result<bool, AllocError> {
    let mut live = Vec::new(alloc);
    were_live_then(alloc, &mut live, commits, seen)
}

fn were_live_then(
    alloc: Global,
    live: &mut Vec<u64>,
    commits: &[Commit],
    seen: &[Seen],
) -> Result<bool, AllocError> {
    let mut right = true;
    let mut place = 0;
    for one in seen {
        go_on(live, commits, place, one.before)?;
        place = one.before;
        right = right && was_live(alloc, live.as_slice(), commits, one)?;
    }
    Ok(right)
}

/// Whether a find was answered by what was live after a number of commits that it may have had before it. These were live
/// after the commits that it had at least.
fn was_live(
    alloc: Global,
    live: &[u64],
    commits: &[Commit],
    seen: &Seen,
) -> Result<bool, AllocError> {
    let mut then = live.to_vec(alloc)?;
    was_live_then(&mut then, commits, seen)
}

fn was_live_then(then: &mut Vec<u64>, commits: &[Commit], seen: &Seen) -> Result<bool, AllocError> {
    for place in seen.before..seen.after {
        if then.as_slice() == seen.ids.as_slice() {
            return Ok(true);
        }
        go_on(then, commits, place, place.saturating_add(1))?;
    }
    Ok(then.as_slice() == seen.ids.as_slice())
}

/// Makes the commits of the model from one place up to another. It lists the live documents in the order of their adds.
fn go_on(live: &mut Vec<u64>, commits: &[Commit], from: u64, to: u64) -> Result<(), AllocError> {
    let count = to.saturating_sub(from) as usize;
    for commit in commits.iter().skip(from as usize).take(count) {
        apply(live, commit)?;
    }
    Ok(())
}

fn apply(live: &mut Vec<u64>, commit: &Commit) -> Result<(), AllocError> {
    if commit.add {
        live.push(commit.id)?;
    } else {
        live.retain(|other| *other != commit.id);
    }
    Ok(())
}
