//! Finds of thousands of documents, in several turns each, beside writers.

use crate::beside::{Task, expect_beside};
use crate::caller::Caller;
use crate::setting::config;
use crate::threads::add_at_last;
use engine::{Closed, PoolName};
use std::alloc::Global;
use std::sync::Wait;
use std::sync::atomic::{AtomicU64, Ordering};
use std::test::*;
use std::thread;

/// The documents that stay have the numbers from 1 up to this one. A find of them looks for 256 words a turn, and so has 59 turns.
const STAYING: u64 = 15_000;

/// The last pass adds the documents that stay and finds them again and again, while the others add and delete a document each.
#[derive(Drop)]
struct Turns {
    /// How many threads were answered as they have to be.
    right: AtomicU64,
    /// 1 once the documents that stay are there, and 2 once all finds are answered.
    stage: AtomicU64,
}

impl Task for Turns {
    fn work<N: PoolName, R: Wait>(&self, caller: &mut Caller<'_, N, R>) {
        let as_wanted = if caller.number() == 2 {
            let added = caller.add_all((1, STAYING + 1), 0);
            self.stage.store(1, Ordering::SeqCst);
            let found = find_often(caller);
            self.stage.store(2, Ordering::SeqCst);
            added && found
        } else {
            write_until(caller, &self.stage)
        };
        if as_wanted {
            self.right.fetch_add(1, Ordering::SeqCst);
        }
    }

    fn is_right<R: Wait>(&self, _: &R, _: Global, _: &Closed) -> bool {
        self.right.load(Ordering::SeqCst) == 3
    }
}

fn find_often<N: PoolName, R: Wait>(caller: &mut Caller<'_, N, R>) -> bool {
    let mut as_wanted = true;
    for _find in 0..1000 {
        as_wanted = as_wanted && finds_all(caller);
    }
    as_wanted
}

fn finds_all<N: PoolName, R: Wait>(caller: &mut Caller<'_, N, R>) -> bool {
    match caller.find("x") {
        Ok(ids) => is_right(ids.as_slice()),
        Err(_) => false,
    }
}

/// Whether these are the documents that stay, in order, and behind them at most one of each writer.
fn is_right(ids: &[u64]) -> bool {
    let (staying, written) = ids.split_at(ids.len().min(STAYING as usize));
    staying.iter().copied().eq(1..STAYING + 1) && are_of_writers(written)
}

fn are_of_writers(written: &[u64]) -> bool {
    match written {
        [] => true,
        [one] => *one > STAYING,
        [one, other] => *one > STAYING && *other > STAYING && *one != *other,
        _ => false,
    }
}

/// Adds a document and deletes it, again and again, until all finds are answered.
fn write_until<N: PoolName, R: Wait>(caller: &mut Caller<'_, N, R>, stage: &AtomicU64) -> bool {
    let id = 20_000 + u64::from(caller.number());
    let mut as_wanted = true;
    for _round in caller.rt.forever() {
        match stage.load(Ordering::SeqCst) {
            0 => thread::yield_now(),
            1 => as_wanted = as_wanted && add_at_last(caller, id) && caller.delete(id).is_ok(),
            _ => break,
        }
    }
    as_wanted
}

#[test]
fn finds_in_turns_are_right_beside_writers(rt: HostRuntime) {
    let turns = Turns {
        right: AtomicU64::new(0),
        stage: AtomicU64::new(0),
    };
    expect_beside(
        &rt,
        rt.alloc(),
        config(rt.alloc(), 3, 24, 16, 65_536),
        &turns,
    )
}
