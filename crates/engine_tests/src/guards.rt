//! Finds that are open while others delete, add and recycle: no lock is held between the two calls of a find.
ghost use Rattle.std.specs.Prelude.{◌≡◌};

use crate::caller::{Caller, Finding, Refused, has};
use crate::setting::{Case, blank, callers, config, expect, expect_in_a_slice};
use crate::steps::{BesideFind, Step};
use engine::{Blank, Engine, Pass, PoolName, Recycled};
use funnel_model::{Block, Config, Memory};
use std::alloc::Global;
use std::marker::Brand;
use std::sync::{Mutex, Wait};
use std::test::*;
use std::thread::{Threads, join};

static ONE_GUARD: BesideFind = BesideFind {
    before: &[Step::AddAll((1, 65), 0)],
    beside: &[
        Step::DeleteAll((1, 65), 64),
        Step::Add(
            500,
            "y",
            Err(Refused::Full(Some(Block::Guarded {
                pass: 0,
                opened_at: 129,
            }))),
        ),
        Step::Recycle(Recycled::Guarded {
            slice: 0,
            pass: 0,
            opened_at: 129,
        }),
    ],
    found: (1, 65),
    after: &[Step::Add(500, "y", Ok(129)), Step::FindAll("y", (500, 501))],
};

/// The slice is full when pass 0 begins a find. The other one deletes all, and is refused an add and a recycle until the find ends.
#[test]
fn an_open_find_guards_its_slice(rt: HostRuntime) {
    expect_in_a_slice(&rt, rt.alloc(), &ONE_GUARD)
}

static NO_GUARD: BesideFind = BesideFind {
    before: &[Step::AddAll((1, 65), 0), Step::DeleteAll((1, 65), 64)],
    beside: &[Step::Recycle(Recycled::Done(0)), Step::Add(1, "x", Ok(129))],
    found: (1, 1),
    after: &[],
};

/// A find that began after a slice retired does not guard it.
#[test]
fn a_later_find_guards_nothing(rt: HostRuntime) {
    expect_in_a_slice(&rt, rt.alloc(), &NO_GUARD)
}

/// Three passes: two of them have finds open while the last deletes and recycles. The one with the lower number begins later and
/// ends first.
#[test]
fn the_lowest_guard_is_told(rt: HostRuntime) {
    let alloc = rt.alloc();
    expect(&rt, alloc, config(alloc, 3, 1, 1, 1024), &TwoGuards)
}

struct TwoGuards;

impl Case for TwoGuards {
    fn holds<N: PoolName, R: Wait>(
        &self,
        caller: &mut Caller<'_, N, R>,
        others: &mut Vec<Caller<'_, N, R>>,
    ) -> bool {
        let filled = caller.add_all((1, 65), 0);
        let guarded = match others.pop() {
            Some(older) => call_beside_two(caller, older, others),
            None => false,
        };
        filled && guarded && caller.recycle() == Recycled::Done(0)
    }
}

fn call_beside_two<N: PoolName, R: Wait>(
    caller: &mut Caller<'_, N, R>,
    older: Caller<'_, N, R>,
    others: &mut Vec<Caller<'_, N, R>>,
) -> bool {
    let find = older.begin("x");
    let by_both = match others.pop() {
        Some(younger) => call_beside_one(caller, younger),
        None => false,
    };
    let by_one = is_guarded(caller, 1, 129);
    has(find, (1, 65)) && by_both && by_one
}

fn call_beside_one<N: PoolName, R: Wait>(
    caller: &mut Caller<'_, N, R>,
    younger: Caller<'_, N, R>,
) -> bool {
    let find = younger.begin("x");
    let by_both = caller.delete_all((1, 65), 64) && is_guarded(caller, 0, 130);
    has(find, (1, 65)) && by_both
}

/// Whether a recycle is refused, since this pass guards the only slice.
fn is_guarded<N: PoolName, R: Wait>(
    caller: &mut Caller<'_, N, R>,
    pass: u32,
    opened_at: u64,
) -> bool {
    let slice = 0;
    caller.recycle()
        == (Recycled::Guarded {
            slice,
            pass,
            opened_at,
        })
}

/// A find that one thread began is ended by another, while the first one deletes.
#[test]
fn an_open_find_goes_to_another_thread(rt: HostRuntime) {
    assert!(rt; matches!(open_and_hand_over(&rt, rt.alloc()), Ok(true)));
}

fn open_and_hand_over<R: Threads + Wait + Sync>(rt: &R, alloc: Global) -> Result<bool, Memory> {
    let config = config(alloc, 2, 1, 1, 1024);
    let blank = blank(alloc, &config)?;
    hand_over::<Brand, _>(rt, alloc, &config, blank)
}

fn hand_over<N: PoolName + Send + Sync, R: Threads + Wait + Sync>(
    rt: &R,
    alloc: Global,
    config: &Config,
    blank: Blank,
) -> Result<bool, Memory>
    requires made_with { blank.config ≡ config.now }
    requires named { blank ≡ N.pool }
{
    let (engine, passes) = Engine::<N>::open(alloc, config, blank)?;
    hand_over_at(rt, alloc, &engine, passes)
}

fn hand_over_at<N: PoolName + Send + Sync, R: Threads + Wait + Sync>(
    rt: &R,
    alloc: Global,
    engine: &Engine<N>,
    passes: Vec<Pass<N>>,
) -> Result<bool, Memory> {
    let mut callers = callers(rt, alloc, engine, passes)?;
    let Some(first) = callers.pop() else {
        return Ok(false);
    };
    match callers.first_mut() {
        Some(second) => Ok(end_elsewhere(rt, first, second)),
        None => Ok(false),
    }
}

/// The first pass begins a find, which another thread ends, while the second one deletes.
fn end_elsewhere<N: PoolName + Send + Sync, R: Threads + Wait + Sync>(
    rt: &R,
    first: Caller<'_, N, R>,
    second: &mut Caller<'_, N, R>,
) -> bool {
    let filled = second.add_all((1, 65), 0);
    let open = Mutex::new(first.begin("x"));
    let (found, emptied) = join(
        rt,
        || end_in(rt, &open),
        move || second.delete_all((1, 65), 64),
    );
    let again = has(open.into_inner(), (1, 65));
    filled && found && !again && emptied
}

/// Ends the find that lies there, where there is one.
fn end_in<N: PoolName, R: Wait>(rt: &R, open: &Mutex<Option<Finding<'_, N, R>>>) -> bool {
    let find = open.lock(rt).take();
    has(find, (1, 65))
}
