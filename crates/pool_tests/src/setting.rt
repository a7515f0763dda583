//! Configurations and pools of the tests.
ghost use Rattle.std.specs.Prelude.{◌≡◌, ◌-◌, ◌*◌, ◌^◌, ◌<◌, ◌≤◌, IfOk, [], length};
ghost use Rattle.funnel_model.specs.Configuration.{IsBetween, IsInRange};
ghost use Rattle.funnel_model.specs.Events.{pass_of};
ghost use Rattle.funnel_model.specs.Legal.{IsAllowed};
ghost use Rattle.funnel_model.specs.Sizes.{columns_of_slice};
ghost use Rattle.funnel_model.specs.declared.config.TheConstants.{MOST_ROW_WORDS};
ghost use Rattle.pool_tests.specs.Sizes.{sizes_of};
ghost use Rattle.slice_rule.specs.Seats.{HasMade, HasNoneOutstanding, IsReady, IsSameHome, IsSeated, after_append, new_home_state, new_pass_state};

use funnel_model::{Config, Event, Listed};
use slice_rule::{Ended, Home, PassSeat, Pool};
use std::alloc::Global;
use std::test::Fail;

fn no_words(alloc: Global) -> Listed
    ensures { result ≡ [] }
{
    Listed::new(Vec::new(alloc))
}

/// So many passes and slices of 64 columns, the rest by default but that a word has 26 rows.
pub(crate) fn config(alloc: Global, passes: u32, slices: u32) -> Config
    requires passes { IsBetween 1 2 passes }
    requires slices { IsBetween 1 2 slices }
    ensures in_range { IsInRange result }
    ensures passes { result.passes ≡ passes }
    ensures slices { result.slices ≡ slices }
    ensures commits { result.commits ≡ 1024 }
    ensures columns { columns_of_slice result ≡ 64 }
    ensures words { result.words ≡ [] }
{
    Config {
        passes,
        slices,
        blocks: 1,
        max_rank: 0,
        commits: 1024,
        reserve: 0,
        one_in: 2,
        snr: 1000,
        documents: 1000,
        tail: 10,
        max_rows: 65536,
        private: 2,
        words: no_words(alloc),
    }
}

/// A pool of two passes with its home and its seats.
pub(crate) type Opened = (Pool, Home, PassSeat, PassSeat);

/// Opens a pool of two passes whose slices have so many words.
pub(crate) fn open_two(alloc: Global, slices: u32, slice_words: u32) -> Result<Opened, Fail>
    requires slices { IsBetween 1 2 slices }
    requires words { 1 ≤ slice_words }
    requires few { slices * slice_words ≤ MOST_ROW_WORDS }
    ensures sizes { IfOk result (λ made. made.0.limits ≡ sizes_of slices slice_words) }
    ensures words { IfOk result (λ made. made.0.config.words ≡ []) }
    ensures home { IfOk result (λ made. made.1 ≡ new_home_state made.0) }
    ensures first { IfOk result (λ made. made.2 ≡ new_pass_state made.0 0) }
    ensures second { IfOk result (λ made. made.3 ≡ new_pass_state made.0 1) }
{
    let config = config(alloc, 2, slices);
    let (pool, home, mut passes) = Pool::new(alloc, &config, slice_words)?;
    let second = passes.pop().ok_or("two passes")?;
    let first = passes.pop().ok_or("two passes")?;
    Ok((pool, home, first, second))
}

/// Closes a pool of two passes, which come back to it.
pub(crate) fn close_two(pool: Pool, mut home: Home, first: PassSeat, second: PassSeat) -> Ended
    requires home { home.pool ≡ pool }
    requires first { IsSeated pool first }
    requires second { IsSeated pool second }
    ensures { result.history ≡ home.history }
{
    pool.end_pass(&mut home, first);
    pool.end_pass(&mut home, second);
    pool.close(home)
}

/// Makes one event of a pass that has seen the whole history, and answers the event's number.
pub(crate) fn make_event(pool: &Pool, home: &mut Home, seat: &mut PassSeat, entry: Event) -> u64
    requires home { home.old.pool ≡ pool.now }
    requires seat { seat.old.pool ≡ pool.now }
    requires front { seat.old.front ≡ home.old.history }
    requires none_outstanding { HasNoneOutstanding seat.old }
    requires own { pass_of entry ≡ seat.old.number }
    requires allowed { IsAllowed pool.now.limits home.old.history entry }
    requires room { length home.old.history < 2 ^ 63 - 1 }
    requires ready { IsReady pool.now.limits seat.old entry }
    ensures home { IsSameHome (after_append home.old entry) home.new }
    ensures seat { HasMade entry seat.old seat.new }
    ensures none_outstanding { HasNoneOutstanding seat.new }
    ensures number { result ≡ length home.new.history }
{
    let number = pool.make_event(home, seat, &entry);
    // A call drops it, since to prove a drop in place goes through all kinds of events.
    drop(entry);
    number
}
