//! Two threads that write columns of the same words at the same time.

use crate::beside::{Task, expect_beside};
use crate::caller::Caller;
use crate::hooked::{Hook, Hooked};
use crate::setting::config;
use engine::{Closed, PoolName};
use std::alloc::Global;
use std::hint::spin_loop;
use std::sync::Wait;
use std::sync::atomic::{AtomicU64, Ordering};
use std::test::*;
use std::thread;

/// The text of each document.
const WORDS: &str = "a b c d e f g h i j k l m n o p q r s t u v w x y z 0 1 2 3 4 5 6 7 8 9";

/// Each pass adds 1,024 documents, and both write theirs at the same time. Then each looks for all.
#[derive(Drop)]
struct Pairs {
    /// How often a pass came to where both meet.
    came: AtomicU64,
    /// How many threads were answered as they have to be.
    right: AtomicU64,
}

/// Meets the other pass before each column is written.
#[derive(Drop)]
struct Meeting<'a> {
    came: &'a AtomicU64,
    /// How often both have met.
    met: u64,
    in_vain: bool,
}

impl<'a> Meeting<'a> {
    /// Waits until the other pass comes too. After one wait in vain it waits no more.
    fn meet(&mut self) {
        self.met = self.met.saturating_add(1);
        self.came.fetch_add(1, Ordering::SeqCst);
        if !self.in_vain {
            self.in_vain = !self.both_came();
        }
    }

    /// Whether both came as often. It asks again at once for a while before it yields, so that both go on at the same time.
    fn both_came(&self) -> bool {
        for turn in 0..10_000_000 {
            if self.met.saturating_mul(2) <= self.came.load(Ordering::SeqCst) {
                return true;
            }
            if turn % 1000 == 999 {
                thread::yield_now();
            } else {
                spin_loop();
            }
        }
        false
    }
}

impl<'a> Hook for Meeting<'a> {
    fn clears(&mut self) {}

    fn writes(&mut self) {
        self.meet();
    }

    fn scans(&mut self) {}

    fn scanned(&mut self, _: &[(u32, u32)]) {}
}

impl Task for Pairs {
    fn work<N: PoolName, R: Wait>(&self, caller: &mut Caller<'_, N, R>) {
        let hook = Meeting {
            came: &self.came,
            met: 0,
            in_vain: false,
        };
        let mut work = Hooked { hook };
        let added = add_each(caller, &mut work);
        work.hook.meet();
        if added && has_all(caller) && !work.hook.in_vain {
            self.right.fetch_add(1, Ordering::SeqCst);
        }
    }

    fn is_right<R: Wait>(&self, _: &R, _: Global, _: &Closed) -> bool {
        self.right.load(Ordering::SeqCst) == 2
    }
}

fn add_each<N: PoolName, R: Wait>(
    caller: &mut Caller<'_, N, R>,
    work: &mut Hooked<Meeting<'_>>,
) -> bool {
    let first = 1024 * caller.number() as u64;
    let mut as_wanted = true;
    for i in 0..1024 {
        as_wanted = as_wanted && caller.add_by(first + i, WORDS, work).is_ok();
    }
    as_wanted
}

/// Whether a find has as many documents as both added. It reads each bit that they wrote.
fn has_all<N: PoolName, R: Wait>(caller: &mut Caller<'_, N, R>) -> bool {
    match caller.find(WORDS) {
        Ok(ids) => ids.len() == 2048,
        Err(_) => false,
    }
}

#[test]
fn bits_set_at_the_same_time_are_all_kept(rt: HostRuntime) {
    let pairs = Pairs {
        came: AtomicU64::new(0),
        right: AtomicU64::new(0),
    };
    expect_beside(&rt, rt.alloc(), config(rt.alloc(), 2, 32, 1, 2048), &pairs)
}
