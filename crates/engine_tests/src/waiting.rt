//! An add that finds the engine full while another pass is clearing a slice is made once that slice is open.

use crate::beside::{Task, expect_beside};
use crate::caller::Caller;
use crate::hooked::{Hook, Hooked};
use crate::setting::config;
use engine::{Closed, PoolName, Recycled};
use std::alloc::Global;
use std::sync::Wait;
use std::sync::atomic::{AtomicU64, Ordering};
use std::test::*;
use std::thread;

/// The first pass fills the one slice, deletes its documents and clears it. The second one adds a document meanwhile.
#[derive(Drop)]
struct Meeting {
    /// Not 0 once the first pass clears, or is through.
    clears: AtomicU64,
    /// How many passes were answered as they have to be.
    right: AtomicU64,
}

/// Lets the second pass come before the slice is cleared.
#[derive(Drop)]
struct Late<'a> {
    clears: &'a AtomicU64,
}

impl<'a> Hook for Late<'a> {
    fn clears(&mut self) {
        self.clears.store(1, Ordering::SeqCst);
        for _turn in 0..10_000 {
            thread::yield_now();
        }
    }

    fn writes(&mut self) {}

    fn scans(&mut self) {}

    fn scanned(&mut self, _: &[(u32, u32)]) {}
}

impl Task for Meeting {
    fn work<N: PoolName, R: Wait>(&self, caller: &mut Caller<'_, N, R>) {
        let is_right = if caller.number() == 0 {
            let cleared = clear(caller, &self.clears);
            self.clears.store(1, Ordering::SeqCst);
            cleared
        } else {
            add_late(caller, &self.clears)
        };
        if is_right {
            self.right.fetch_add(1, Ordering::SeqCst);
        }
    }

    fn is_right<R: Wait>(&self, _: &R, _: Global, _: &Closed) -> bool {
        self.right.load(Ordering::SeqCst) == 2
    }
}

fn clear<N: PoolName, R: Wait>(caller: &mut Caller<'_, N, R>, clears: &AtomicU64) -> bool {
    let mut work = Hooked {
        hook: Late { clears },
    };
    caller.add_all((1, 65), 0)
        && caller.delete_all((1, 65), 64)
        && caller.recycle_by(&mut work) == Recycled::Done(0)
}

fn add_late<N: PoolName, R: Wait>(caller: &mut Caller<'_, N, R>, clears: &AtomicU64) -> bool {
    for _look in caller.rt.forever() {
        if clears.load(Ordering::SeqCst) != 0 {
            break;
        }
        thread::yield_now();
    }
    caller.add(100, "x") == Ok(129)
}

#[test]
fn an_add_waits_for_a_slice_that_is_being_cleared(rt: HostRuntime) {
    let meeting = Meeting {
        clears: AtomicU64::new(0),
        right: AtomicU64::new(0),
    };
    expect_beside(&rt, rt.alloc(), config(rt.alloc(), 2, 1, 1, 1024), &meeting)
}
