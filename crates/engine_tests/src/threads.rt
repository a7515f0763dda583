//! Threads that add, delete and find beside each other.

use crate::beside::{Task, expect_beside};
use crate::caller::{Caller, Refused};
use crate::setting::config;
use engine::{Closed, PoolName};
use funnel_model::Commit;
use std::alloc::Global;
use std::sync::Wait;
use std::sync::atomic::{AtomicU64, Ordering};
use std::test::*;
use std::thread;

/// Each pass adds 500 documents of its own, and looks for each.
#[derive(Drop)]
struct Fill {
    /// How many threads were answered as they have to be.
    right: AtomicU64,
}

impl Task for Fill {
    fn work<N: PoolName, R: Wait>(&self, caller: &mut Caller<'_, N, R>) {
        let first = 1000 * caller.number() as u64;
        let mut as_wanted = true;
        for i in 1..501 {
            as_wanted = as_wanted && add_and_find(caller, first + i);
        }
        if as_wanted {
            self.right.fetch_add(1, Ordering::SeqCst);
        }
    }

    fn is_right<R: Wait>(&self, _: &R, _: Global, closed: &Closed) -> bool {
        self.right.load(Ordering::SeqCst) == 2 && has_filled(closed)
    }
}

/// Adds a document with a word of its own, and finds it by this word. Whether both were answered so.
fn add_and_find<N: PoolName, R: Wait>(caller: &mut Caller<'_, N, R>, id: u64) -> bool {
    match format!(in caller.alloc; "u{id}") {
        Ok(word) => add_word(caller, id, word.as_str()),
        Err(_) => false,
    }
}

fn add_word<N: PoolName, R: Wait>(caller: &mut Caller<'_, N, R>, id: u64, word: &str) -> bool {
    caller.add(id, word).is_ok() && caller.finds(word, (id, id.saturating_add(1)))
}

/// Whether the commits of a pass are adds of its numbers, in rising order.
fn are_rising(commits: &[Commit], from: u64) -> bool {
    let mut last = from;
    for commit in commits {
        if from < commit.id && commit.id <= from.saturating_add(500) {
            if !commit.add || commit.id <= last {
                return false;
            }
            last = commit.id;
        }
    }
    last == from.saturating_add(500)
}

#[test]
fn two_threads_add_and_find(rt: HostRuntime) {
    let right = AtomicU64::new(0);
    expect_beside(
        &rt,
        rt.alloc(),
        config(rt.alloc(), 2, 8, 2, 1024),
        &Fill { right },
    )
}

/// Whether both passes added what they had to, and made two events for each add and each find.
fn has_filled(closed: &Closed) -> bool {
    let commits = closed.commits.as_slice();
    closed.events == 4000
        && commits.len() == 1000
        && are_rising(commits, 0)
        && are_rising(commits, 1000)
}

/// The first pass adds and deletes the numbers 1 to 64 in 200 rounds, and the second one finds beside it until the first is
/// through.
#[derive(Drop)]
struct Reuse {
    /// How many threads were answered as they have to be.
    right: AtomicU64,
    /// Not 0 once the first pass is through.
    over: AtomicU64,
}

impl Task for Reuse {
    fn work<N: PoolName, R: Wait>(&self, caller: &mut Caller<'_, N, R>) {
        let as_wanted = if caller.number() == 0 {
            let rounds = add_and_delete_often(caller);
            self.over.store(1, Ordering::SeqCst);
            rounds
        } else {
            find_until(caller, &self.over)
        };
        if as_wanted {
            self.right.fetch_add(1, Ordering::SeqCst);
        }
    }

    fn is_right<R: Wait>(&self, _: &R, _: Global, closed: &Closed) -> bool {
        self.right.load(Ordering::SeqCst) == 2 && are_rounds(closed.commits.as_slice())
    }
}

fn add_and_delete_often<N: PoolName, R: Wait>(caller: &mut Caller<'_, N, R>) -> bool {
    let mut as_wanted = true;
    for _round in 0..200 {
        as_wanted = as_wanted && add_and_delete(caller);
    }
    as_wanted
}

/// One round. Only its first add may find the engine full, until a find that guards the slice has ended.
fn add_and_delete<N: PoolName, R: Wait>(caller: &mut Caller<'_, N, R>) -> bool {
    let mut as_wanted = add_at_last(caller, 1);
    for id in 2..65 {
        as_wanted = as_wanted && caller.add(id, "x").is_ok();
    }
    for id in 1..65 {
        as_wanted = as_wanted && caller.delete(id).is_ok();
    }
    as_wanted
}

/// Adds a document as soon as the engine isn't full, after so many turns at most.
pub(crate) fn add_at_last<N: PoolName, R: Wait>(caller: &mut Caller<'_, N, R>, id: u64) -> bool {
    for _turn in 0..1_000_000 {
        match caller.add(id, "x") {
            Ok(_) => return true,
            Err(Refused::Full(_)) => thread::yield_now(),
            Err(_) => return false,
        }
    }
    false
}

/// Finds until the other pass is through. Each find has some of the numbers 1 to 64, in the order in which they were added.
fn find_until<N: PoolName, R: Wait>(caller: &mut Caller<'_, N, R>, over: &AtomicU64) -> bool {
    let mut as_wanted = true;
    for _find in caller.rt.forever() {
        as_wanted = as_wanted && finds_some(caller);
        if over.load(Ordering::SeqCst) != 0 {
            break;
        }
    }
    as_wanted
}

fn finds_some<N: PoolName, R: Wait>(caller: &mut Caller<'_, N, R>) -> bool {
    match caller.find("x") {
        Ok(ids) => is_rising_to(ids.as_slice(), 64),
        Err(_) => false,
    }
}

/// Whether these are numbers from 1 to the last one, in rising order.
fn is_rising_to(ids: &[u64], last: u64) -> bool {
    let mut before = 0;
    for id in ids {
        if *id <= before {
            return false;
        }
        before = *id;
    }
    before <= last
}

/// Whether these are 200 rounds of adds of the numbers 1 to 64 and of their deletes.
fn are_rounds(commits: &[Commit]) -> bool {
    commits.len() == 25_600 && go_round(commits)
}

fn go_round(commits: &[Commit]) -> bool {
    let mut add = true;
    let mut id = 1;
    for commit in commits {
        if commit.add != add || commit.id != id {
            return false;
        }
        add = add != (id == 64);
        id = id % 64 + 1;
    }
    true
}

#[test]
fn a_slice_is_used_again_beside_finds(rt: HostRuntime) {
    let reuse = Reuse {
        right: AtomicU64::new(0),
        over: AtomicU64::new(0),
    };
    expect_beside(&rt, rt.alloc(), config(rt.alloc(), 2, 1, 1, 65_536), &reuse)
}
