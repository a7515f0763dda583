//! The lock is free while a column is written, while slices are scanned, and while one is cleared: a second thread is
//! answered in that time.

use crate::beside::{Task, expect_beside};
use crate::caller::{Caller, is_range};
use crate::hooked::{Hook, Hooked};
use crate::setting::config;
use engine::{Closed, PoolName, Recycled};
use std::alloc::Global;
use std::sync::Wait;
use std::sync::atomic::{AtomicU64, Ordering};
use std::test::*;
use std::thread;

/// What two threads tell each other.
#[derive(Drop)]
struct Board {
    /// The number of the job that the first thread is at.
    raised: AtomicU64,
    /// The last number for which the second thread was answered.
    marked: AtomicU64,
    /// Not 0 once the first thread is through.
    over: AtomicU64,
}

impl Board {
    fn new() -> Board {
        Board {
            raised: AtomicU64::new(0),
            marked: AtomicU64::new(0),
            over: AtomicU64::new(0),
        }
    }
}

/// How many jobs were done, by their kinds, and how many waits were in vain.
#[derive(Clone, Copy)]
struct Counts {
    writes: u32,
    scans: u32,
    clears: u32,
    in_vain: u32,
}

/// Does each job once the second thread was answered.
#[derive(Drop)]
struct Watched<'a> {
    board: &'a Board,
    counts: Counts,
}

impl<'a> Watched<'a> {
    /// Waits until the second thread was answered, so many turns at most. After one wait in vain it waits no more.
    fn wait(&mut self) {
        let number = self
            .board
            .raised
            .fetch_add(1, Ordering::SeqCst)
            .wrapping_add(1);
        if self.counts.in_vain > 0 {
            return;
        }
        for _turn in 0..1_000_000 {
            if number <= self.board.marked.load(Ordering::SeqCst) {
                return;
            }
            thread::yield_now();
        }
        self.counts.in_vain = 1;
    }
}

impl<'a> Hook for Watched<'a> {
    fn clears(&mut self) {
        self.wait();
        self.counts.clears = self.counts.clears.saturating_add(1);
    }

    fn writes(&mut self) {
        self.wait();
        self.counts.writes = self.counts.writes.saturating_add(1);
    }

    fn scans(&mut self) {
        self.wait();
        self.counts.scans = self.counts.scans.saturating_add(1);
    }

    fn scanned(&mut self, _: &[(u32, u32)]) {}
}

/// The first pass works through its jobs, and the second one is answered beside it.
#[derive(Drop)]
struct Watch {
    board: Board,
    /// 1 once the first pass is through, and was answered as it has to be.
    right: AtomicU64,
}

impl Task for Watch {
    fn work<N: PoolName, R: Wait>(&self, caller: &mut Caller<'_, N, R>) {
        if caller.number() == 0 {
            if work_through(caller, &self.board) {
                self.right.store(1, Ordering::SeqCst);
            }
            self.board.over.store(1, Ordering::SeqCst);
        } else {
            answer(caller, &self.board);
        }
    }

    fn is_right<R: Wait>(&self, _: &R, _: Global, _: &Closed) -> bool {
        self.right.load(Ordering::SeqCst) == 1
    }
}

fn work_through<N: PoolName, R: Wait>(caller: &mut Caller<'_, N, R>, board: &Board) -> bool {
    let counts = Counts {
        writes: 0,
        scans: 0,
        clears: 0,
        in_vain: 0,
    };
    let hook = Watched { board, counts };
    let mut work = Hooked { hook };
    let as_wanted = work_by(caller, &mut work);
    as_wanted && are_wanted(work.hook.counts)
}

fn work_by<N: PoolName, R: Wait>(
    caller: &mut Caller<'_, N, R>,
    work: &mut Hooked<Watched<'_>>,
) -> bool {
    caller.add_all_by((1, 65), 0, work)
        && has_all(caller, work)
        && keeps_all(caller, work)
        && caller.delete_all((1, 65), 64)
        && caller.recycle_by(work) == Recycled::Done(0)
        && caller.add_all((1, 65), 128)
        && caller.delete_all((1, 65), 192)
        && caller.add_by(500, "y", work) == Ok(257)
}

/// Whether each job was done once the second thread was answered.
fn are_wanted(counts: Counts) -> bool {
    counts.writes == 65 && counts.scans == 2 && counts.clears == 2 && counts.in_vain == 0
}

/// Whether a find has the documents 1 to 64.
fn has_all<N: PoolName, R: Wait>(
    caller: &mut Caller<'_, N, R>,
    work: &mut Hooked<Watched<'_>>,
) -> bool {
    match caller.find_by("x", work) {
        Ok(ids) => is_range(&ids, (1, 65)),
        Err(_) => false,
    }
}

/// Whether a query keeps them.
fn keeps_all<N: PoolName, R: Wait>(
    caller: &mut Caller<'_, N, R>,
    work: &mut Hooked<Watched<'_>>,
) -> bool {
    match caller.query_by("x | -y", work) {
        Ok(ids) => is_range(&ids, (1, 65)),
        Err(_) => false,
    }
}

/// Makes a call for each number that was raised, and marks the number then.
fn answer<N: PoolName, R: Wait>(caller: &mut Caller<'_, N, R>, board: &Board) {
    let mut marked = 0;
    for _call in caller.rt.forever() {
        if board.over.load(Ordering::SeqCst) != 0 {
            break;
        }
        let raised = board.raised.load(Ordering::SeqCst);
        if raised == marked {
            thread::yield_now();
        } else {
            let _ = caller.place();
            board.marked.store(raised, Ordering::SeqCst);
            marked = raised;
        }
    }
}

#[test]
fn others_are_answered_while_a_pass_works(rt: HostRuntime) {
    let watch = Watch {
        board: Board::new(),
        right: AtomicU64::new(0),
    };
    expect_beside(&rt, rt.alloc(), config(rt.alloc(), 2, 1, 1, 1024), &watch)
}
