//! Four threads on one engine: three of them add, delete and recycle, and one finds.
use crate::beside::expect_beside;
use crate::caller::{Caller, Refused};
use crate::reports::{Mix, Parts, Report, Wrong, search};
use crate::setting::config;
use engine::{DeleteFault, PoolName, Recycled};
use std::sync::Wait;
use std::test::*;

/// The last pass finds, and the others add and delete 64 documents of their own.
pub(crate) fn report<N: PoolName, R: Wait>(caller: &mut Caller<'_, N, R>) -> Result<Report, Wrong> {
    if caller.number() == 3 {
        search(caller)
    } else {
        add_and_delete(caller)
    }
}

fn add_and_delete<N: PoolName, R: Wait>(caller: &mut Caller<'_, N, R>) -> Result<Report, Wrong> {
    let first = 1000 * caller.number() as u64;
    let mut live = vec![in caller.alloc; false; 64].or(Err(Wrong))?;
    go_rounds(caller, live.as_mut_slice(), first)?;
    Ok(Report::Left { first, live })
}

/// 20 rounds, in each of which all are added, and two of three of them deleted.
fn go_rounds<N: PoolName, R: Wait>(
    caller: &mut Caller<'_, N, R>,
    live: &mut [bool],
    first: u64,
) -> Result<(), Wrong> {
    for round in 0..20 {
        add_each(caller, live, first)?;
        delete_most(caller, live, first, round)?;
    }
    Ok(())
}

fn add_each<N: PoolName, R: Wait>(
    caller: &mut Caller<'_, N, R>,
    live: &mut [bool],
    first: u64,
) -> Result<(), Wrong> {
    let mut id = first;
    for is_live in live.iter_mut() {
        add_one(caller, is_live, id)?;
        id = id.saturating_add(1);
    }
    Ok(())
}

/// In each round others are left.
fn delete_most<N: PoolName, R: Wait>(
    caller: &mut Caller<'_, N, R>,
    live: &mut [bool],
    first: u64,
    round: u64,
) -> Result<(), Wrong> {
    let mut id = first;
    for is_live in live.iter_mut() {
        if id % 3 != round % 3 {
            delete_one(caller, is_live, id)?;
        }
        id = id.saturating_add(1);
    }
    Ok(())
}

/// Adds a document whose number no other thread adds. Where the engine is full, a slice is recycled if one can be.
fn add_one<N: PoolName, R: Wait>(
    caller: &mut Caller<'_, N, R>,
    is_live: &mut bool,
    id: u64,
) -> Result<(), Wrong> {
    match (*is_live, caller.add(id, "x")) {
        (false, Ok(_)) => {
            *is_live = true;
            Ok(())
        }
        (true, Err(Refused::Present(_))) => Ok(()),
        (false, Err(Refused::Full(_))) => recycle_one(caller),
        _ => Err(Wrong),
    }
}

/// Recycles a slice, or is told that there is none, or that the thread that finds guards it.
fn recycle_one<N: PoolName, R: Wait>(caller: &mut Caller<'_, N, R>) -> Result<(), Wrong> {
    match caller.recycle() {
        Recycled::Done(slice) if slice < 2 => Ok(()),
        Recycled::NoneRetired => Ok(()),
        Recycled::Guarded { pass: 3, .. } => Ok(()),
        _ => Err(Wrong),
    }
}

/// Deletes a document whose number no other thread deletes.
fn delete_one<N: PoolName, R: Wait>(
    caller: &mut Caller<'_, N, R>,
    is_live: &mut bool,
    id: u64,
) -> Result<(), Wrong> {
    match (*is_live, caller.delete(id)) {
        (true, Ok(_)) | (false, Err(DeleteFault::Absent)) => {
            *is_live = false;
            Ok(())
        }
        _ => Err(Wrong),
    }
}

#[test]
fn four_threads_are_answered_as_a_model_is(rt: HostRuntime) {
    let mix = Mix::new(rt.alloc(), Parts::Recycle);
    expect_beside(&rt, rt.alloc(), config(rt.alloc(), 4, 2, 2, 65_536), &mix)
}
