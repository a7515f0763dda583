//! Pools that are opened, used and closed.
ghost use Rattle.std.specs.Prelude.{◌≡◌, ◌+◌, ◌^◌, ◌<◌, ◌≤◌, None, length};
ghost use Rattle.funnel_model.specs.Legal.{awaited};
ghost use Rattle.pool_tests.specs.Resting.{AreAtRest};
ghost use Rattle.slice_rule.specs.Seats.{IsAtRest};

use crate::setting::{close_two, make_event, open_two};
use funnel_model::{Call, Event};
use slice_rule::{Home, PassSeat, Pool};
use std::alloc::Global;
use std::test::Fail;

fn is_shared<T: Send + Sync>(_value: &T) {}

/// Both seats and both kinds of notes are of types that are shared.
fn share(pool: &Pool, home: &mut Home, seat: &PassSeat)
    requires { home.old.pool ≡ pool.now }
{
    is_shared(pool);
    is_shared(seat);
    let note = pool.split_home(home);
    is_shared(&note);
    is_shared(home);
}

/// A pool, its seats and its notes may move to other threads, and be shared with them.
#[test]
fn seats_cross_threads(rt: HostRuntime) -> Result<(), Fail> {
    let (pool, mut home, seat, _) = open_two(rt.alloc(), 2, 4)?;
    share(&pool, &mut home, &seat);
    Ok(())
}

/// A pass without an open call reads the place, where no event is awaited.
fn read_place(pool: &Pool, home: &mut Home, seat: &mut PassSeat) -> u64
    requires rest { AreAtRest pool.now home.old seat.old }
    requires few { length home.old.history < 2 ^ 62 }
    ensures rest { AreAtRest pool.now home.new seat.new }
    ensures same { seat.new.number ≡ seat.old.number }
    ensures number { (result ≡ length home.new.history) × (result ≡ length home.old.history + 1) }
{
    pool.catch_up(home, seat);
    let entry = Event::Read {
        pass: seat.number(),
        call: Call::Place,
    };
    make_event(pool, home, seat, entry)
}

/// Two passes read the place, the second one twice.
fn read_places(
    pool: &Pool,
    home: &mut Home,
    first: &mut PassSeat,
    second: &mut PassSeat,
) -> ([u64; 3], [u32; 2])
    requires home { home.old.pool ≡ pool.now }
    requires first { (first.old.pool ≡ pool.now) × IsAtRest first.old }
    requires second { (second.old.pool ≡ pool.now) × IsAtRest second.old }
    requires none_awaited { awaited home.old.history ≡ None }
    requires few { length home.old.history ≤ 2 }
    ensures home { home.new.pool ≡ pool.now }
    ensures first { (first.new.pool ≡ pool.now) × (first.new.number ≡ first.old.number) × IsAtRest first.new }
    ensures second { (second.new.pool ≡ pool.now) × (second.new.number ≡ second.old.number) × IsAtRest second.new }
{
    let one = read_place(pool, home, first);
    let two = read_place(pool, home, second);
    let three = read_place(pool, home, second);
    ([one, two, three], [first.number(), second.number()])
}

/// The numbers of the events and of the passes, and how many events there were in the end.
fn count_events(alloc: Global) -> Result<([u64; 3], [u32; 2], u64), Fail> {
    let (pool, mut home, mut first, mut second) = open_two(alloc, 2, 4)?;
    let (numbers, by) = read_places(&pool, &mut home, &mut first, &mut second);
    let ended = close_two(pool, home, first, second);
    Ok((numbers, by, ended.events))
}

/// Two passes make events, each is counted, and the end has them all.
#[test]
fn events_are_counted(rt: HostRuntime) -> Result<(), Fail> {
    assert_eq!(rt; count_events(rt.alloc())?, ([1, 2, 3], [0, 1], 3));
    Ok(())
}
