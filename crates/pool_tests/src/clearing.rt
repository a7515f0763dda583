//! One pass clears a slice while another reads a slice that its token may read, and the find ends between the ask and the
//! append of what the first pass does next.
ghost use Rattle.std.specs.Prelude.{◌≡◌, ◌+◌, ◌<◌, ◌∷◌, ◌++◌, [], true, Contains, IfOk, IsBitSet};
ghost use Rattle.funnel_model.specs.declared.event.Event.TheVariants as event;
ghost use Rattle.pool_tests.specs.Cleared.{AreAt, added, clearing, deleted, drops, ended, finding, small, taken, tested_bit};
ghost use Rattle.slice_rule.specs.declared.view.Fact.TheVariants as fact;
ghost use Rattle.slice_rule.specs.Seats.{HasNoneOutstanding};
ghost use Rattle.slice_rule.specs.Worlds.{made_by};

use crate::setting::{close_two, make_event, open_two};
use funnel_model::{Bit, BitList, Claim, ClearJob, Event, SliceSet, Text, Token};
use slice_rule::{Home, PassSeat, Pool};
use std::alloc::Global;
use std::test::Fail;
use std::thread::{Threads, join};

fn no_text(alloc: Global) -> Text
    ensures { result ≡ [] }
{
    Text::new(String::new(alloc))
}

fn no_bits(alloc: Global) -> BitList
    ensures { result ≡ [] }
{
    BitList::new(Vec::new(alloc))
}

/// Pass 1 takes the first column of slice 0.
fn take_first(pool: &Pool, home: &mut Home, seat: &mut PassSeat)
    requires at { AreAt pool.now 1 [] home.old seat.old }
    requires own { seat.old.own ≡ [] }
    ensures at { AreAt pool.now 1 (event.Take 1 0 0 ∷ []) home.new seat.new }
    ensures own { seat.new.own ≡ [] }
{
    let entry = Event::Take {
        pass: 1,
        slice: 0,
        column: 0,
    };
    make_event(pool, home, seat, entry);
}

/// It adds its document.
#[tactic(auto, using(crate::proofs::Cleared::drops_start, crate::proofs::Cleared::none_set))]
fn add_first(pool: &Pool, home: &mut Home, seat: &mut PassSeat, text: Text, bits: BitList)
    requires at { AreAt pool.now 1 (event.Take 1 0 0 ∷ []) home.old seat.old }
    requires own { seat.old.own ≡ [] }
    requires text { text ≡ [] }
    requires bits { bits ≡ [] }
    ensures at { AreAt pool.now 1 (drops 0) home.new seat.new }
    ensures own { seat.new.own ≡ [] }
{
    let entry = Event::Add {
        pass: 1,
        id: 4,
        text,
        slice: 0,
        column: 0,
        bits,
    };
    make_event(pool, home, seat, entry);
}

/// It takes the next column of slice 0.
fn take_next(pool: &Pool, home: &mut Home, seat: &mut PassSeat, k: u32)
    requires few { k < 63 }
    requires at { AreAt pool.now 1 (drops k) home.old seat.old }
    requires own { seat.old.own ≡ [] }
    ensures at { AreAt pool.now 1 (drops k ++ event.Take 1 0 (k + 1) ∷ []) home.new seat.new }
    ensures own { seat.new.own ≡ [] }
{
    let entry = Event::Take {
        pass: 1,
        slice: 0,
        column: k + 1,
    };
    make_event(pool, home, seat, entry);
}

/// It drops the document for it.
#[tactic(auto, using(crate::proofs::Cleared::drops_push))]
fn drop_next(pool: &Pool, home: &mut Home, seat: &mut PassSeat, text: Text, k: u32)
    requires few { k < 63 }
    requires at { AreAt pool.now 1 (drops k ++ event.Take 1 0 (k + 1) ∷ []) home.old seat.old }
    requires own { seat.old.own ≡ [] }
    requires text { text ≡ [] }
    ensures at { AreAt pool.now 1 (drops (k + 1)) home.new seat.new }
    ensures own { seat.new.own ≡ [] }
{
    let entry = Event::Drop {
        pass: 1,
        id: 4,
        text,
        slice: 0,
        column: k + 1,
    };
    make_event(pool, home, seat, entry);
}

/// It fills slice 0.
fn fill(alloc: Global, pool: &Pool, home: &mut Home, seat: &mut PassSeat)
    requires at { AreAt pool.now 1 (drops 0) home.old seat.old }
    requires own { seat.old.own ≡ [] }
    ensures at { AreAt pool.now 1 (drops 63) home.new seat.new }
    ensures own { seat.new.own ≡ [] }
{
    for k in 0..63 {
        take_next(pool, home, seat, k);
        drop_next(pool, home, seat, no_text(alloc), k);
    }
}

/// It takes the first column of slice 1 and sets the bit.
#[tactic(auto, using(crate::proofs::Cleared::taken_last, crate::proofs::Cleared::taken_number))]
fn take_second(pool: &Pool, home: &mut Home, seat: &mut PassSeat)
    requires at { AreAt pool.now 1 (drops 63) home.old seat.old }
    requires own { seat.old.own ≡ [] }
    requires words { pool.now.config.words ≡ [] }
    ensures at { AreAt pool.now 1 taken home.new seat.new }
    ensures own { seat.new.own ≡ fact.BitSet 129 tested_bit ∷ [] }
{
    let entry = Event::Take {
        pass: 1,
        slice: 1,
        column: 0,
    };
    make_event(pool, home, seat, entry);
    let claim = Claim {
        slice: 1,
        column: 0,
    };
    pool.set_bit(seat, &claim, 1, 5);
    let Claim {
        slice: _,
        column: _,
    } = claim;
}

/// It adds its second document.
#[tactic(auto, using(crate::proofs::Cleared::taken_number))]
fn add_second(pool: &Pool, home: &mut Home, seat: &mut PassSeat, text: Text, bits: BitList)
    requires at { AreAt pool.now 1 taken home.old seat.old }
    requires own { seat.old.own ≡ fact.BitSet 129 tested_bit ∷ [] }
    requires text { text ≡ [] }
    requires bits { bits ≡ tested_bit ∷ [] }
    ensures at { AreAt pool.now 1 added home.new seat.new }
{
    let entry = Event::Add {
        pass: 1,
        id: 5,
        text,
        slice: 1,
        column: 0,
        bits,
    };
    make_event(pool, home, seat, entry);
}

/// It deletes the first one.
fn delete_first(pool: &Pool, home: &mut Home, seat: &mut PassSeat)
    requires at { AreAt pool.now 1 added home.old seat.old }
    ensures at { AreAt pool.now 1 deleted home.new seat.new }
{
    let entry = Event::Del { pass: 1, id: 4 };
    make_event(pool, home, seat, entry);
}

/// It begins to clear slice 0.
fn begin_clear(pool: &Pool, home: &mut Home, seat: &mut PassSeat)
    requires at { AreAt pool.now 1 deleted home.old seat.old }
    ensures at { AreAt pool.now 1 clearing home.new seat.new }
{
    let entry = Event::Clear { pass: 1, slice: 0 };
    make_event(pool, home, seat, entry);
}

/// Pass 0 begins a find.
#[tactic(auto, using(crate::proofs::Cleared::finding_length))]
fn begin_find(pool: &Pool, home: &mut Home, seat: &mut PassSeat, query: Text) -> u64
    requires sizes { pool.now.limits ≡ small }
    requires home { (home.old.pool ≡ pool.now) × (home.old.history ≡ clearing) }
    requires seat { (seat.old.pool ≡ pool.now) × (seat.old.number ≡ 0) × HasNoneOutstanding seat.old }
    requires query { query ≡ [] }
    ensures at { AreAt pool.now 0 finding home.new seat.new }
    ensures number { result ≡ 133 }
{
    pool.catch_up(home, seat);
    let entry = Event::Find { pass: 0, query };
    make_event(pool, home, seat, entry)
}

/// A find reads the word of slice 1.
fn read_one(pool: &Pool, mut seat: PassSeat, opened_at: u64) -> (PassSeat, u64)
    requires sizes { pool.now.limits ≡ small }
    requires seat { (seat.pool ≡ pool.now) × (seat.number ≡ 0) × (seat.front ≡ finding) × HasNoneOutstanding seat }
    requires number { opened_at ≡ 133 }
    ensures seat { (result.0.pool ≡ pool.now) × (result.0.number ≡ 0) × (result.0.front ≡ finding) × HasNoneOutstanding result.0 }
    ensures committed { IsBitSet result.1 5 }
{
    let mut slices = SliceSet::new();
    slices.add(1);
    let token = Token {
        place: 3,
        opened_at,
        slices,
    };
    let word = pool.read_word(&mut seat, &token, 1);
    let Token {
        place: _,
        opened_at: _,
        slices: _,
    } = token;
    (seat, word)
}

/// Pass 1 clears the word of slice 0.
#[tactic(auto, using(crate::proofs::Cleared::clearing_last))]
fn clear_one(pool: &Pool, mut seat: PassSeat) -> PassSeat
    requires sizes { pool.now.limits ≡ small }
    requires seat { (seat.pool ≡ pool.now) × (seat.number ≡ 1) × (seat.front ≡ clearing) × HasNoneOutstanding seat }
    ensures seat { (result.pool ≡ pool.now) × (result.number ≡ 1) × (result.front ≡ clearing) × HasNoneOutstanding result }
    ensures zero { Contains result.own (fact.WordZero 132 0) }
{
    let job = ClearJob { slice: 0 };
    pool.clear_word(&mut seat, &job, 0);
    let ClearJob { slice: _ } = job;
    seat
}

/// It asks to open the slice.
fn ask_opened(pool: &Pool, seat: &mut PassSeat)
    requires sizes { pool.now.limits ≡ small }
    requires seat { (seat.old.pool ≡ pool.now) × (seat.old.number ≡ 1) × (seat.old.front ≡ clearing) × HasNoneOutstanding seat.old }
    requires zero { Contains seat.old.own (fact.WordZero 132 0) }
    ensures seat { (seat.new.pool ≡ pool.now) × (seat.new.number ≡ 1) × (seat.new.front ≡ clearing) }
    ensures asked { seat.new.asked ≡ made_by 1 clearing ++ event.Opened 1 0 true ∷ [] }
    ensures zero { Contains seat.new.own (fact.WordZero 132 0) }
{
    let entry = Event::Opened {
        pass: 1,
        slice: 0,
        alone: true,
    };
    pool.ask(seat, &entry);
    drop(entry);
}

/// The find of pass 0 ends.
#[tactic(auto, using(crate::proofs::Cleared::ended_length))]
fn end_find(pool: &Pool, home: &mut Home, seat: &mut PassSeat) -> u64
    requires at { AreAt pool.now 0 finding home.old seat.old }
    ensures at { AreAt pool.now 0 ended home.new seat.new }
    ensures number { result ≡ 134 }
{
    let entry = Event::End { pass: 0 };
    make_event(pool, home, seat, entry)
}

/// The home learns what pass 1 asked, appends it, and tells the pass.
#[tactic(auto, using(crate::proofs::Cleared::ended_made, crate::proofs::Cleared::open_allowed, crate::proofs::Cleared::opened_length))]
fn append_opened(pool: &Pool, home: &mut Home, seat: &mut PassSeat) -> u64
    requires sizes { pool.now.limits ≡ small }
    requires home { (home.old.pool ≡ pool.now) × (home.old.history ≡ ended) }
    requires seat { (seat.old.pool ≡ pool.now) × (seat.old.number ≡ 1) × (seat.old.front ≡ clearing) }
    requires asked { seat.old.asked ≡ made_by 1 clearing ++ event.Opened 1 0 true ∷ [] }
    requires zero { Contains seat.old.own (fact.WordZero 132 0) }
    ensures home { (home.new.pool ≡ pool.now) × (home.new.history ≡ ended ++ event.Opened 1 0 true ∷ []) }
    ensures seat { (seat.new.pool ≡ pool.now) × (seat.new.number ≡ 1) × HasNoneOutstanding seat.new }
    ensures number { result ≡ 135 }
{
    let note = pool.split_pass(seat);
    pool.join_home(home, note);
    let entry = Event::Opened {
        pass: 1,
        slice: 0,
        alone: true,
    };
    let number = pool.append(home, &entry);
    drop(entry);
    let note = pool.split_home(home);
    pool.join(seat, note);
    number
}

/// Pass 0 reads while pass 1 clears.
fn read_and_clear<R: Threads + Sync>(
    rt: &R,
    pool: &Pool,
    first: PassSeat,
    second: PassSeat,
    opened_at: u64,
) -> ((PassSeat, u64), PassSeat)
    requires sizes { pool.now.limits ≡ small }
    requires first { (first.pool ≡ pool.now) × (first.number ≡ 0) × (first.front ≡ finding) × HasNoneOutstanding first }
    requires second { (second.pool ≡ pool.now) × (second.number ≡ 1) × (second.front ≡ clearing) × HasNoneOutstanding second }
    requires number { opened_at ≡ 133 }
    ensures first { (result.0.0.pool ≡ pool.now) × (result.0.0.number ≡ 0) × (result.0.0.front ≡ finding) × HasNoneOutstanding result.0.0 }
    ensures committed { IsBitSet result.0.1 5 }
    ensures second { (result.1.pool ≡ pool.now) × (result.1.number ≡ 1) × (result.1.front ≡ clearing) × HasNoneOutstanding result.1 }
    ensures zero { Contains result.1.own (fact.WordZero 132 0) }
{
    join(
        rt,
        move || -> (PassSeat, u64)
            requires sizes { pool.now.limits ≡ small }
            requires seat { (first.pool ≡ pool.now) × (first.number ≡ 0) × (first.front ≡ finding) × HasNoneOutstanding first }
            requires number { opened_at ≡ 133 }
            ensures seat { (result.0.pool ≡ pool.entry.now) × (result.0.number ≡ 0) × (result.0.front ≡ finding) × HasNoneOutstanding result.0 }
            ensures committed { IsBitSet result.1 5 }
        { read_one(pool, first, opened_at) },
        move || -> PassSeat
            requires sizes { pool.now.limits ≡ small }
            requires seat { (second.pool ≡ pool.now) × (second.number ≡ 1) × (second.front ≡ clearing) × HasNoneOutstanding second }
            ensures seat { (result.pool ≡ pool.entry.now) × (result.number ≡ 1) × (result.front ≡ clearing) × HasNoneOutstanding result }
            ensures zero { Contains result.own (fact.WordZero 132 0) }
        { clear_one(pool, second) },
    )
}

/// The bit of the second document.
fn one_bit(alloc: Global) -> Result<BitList, Fail>
    ensures { IfOk result (λ bits. bits ≡ tested_bit ∷ []) }
{
    let mut bits = Vec::with_capacity(alloc, 1)?;
    bits.push(Bit { word: 1, bit: 5 })?;
    Ok(BitList::new(bits))
}

/// Pass 1 makes all events up to its clear.
fn lead(alloc: Global, pool: &Pool, home: &mut Home, seat: &mut PassSeat, bits: BitList)
    requires at { AreAt pool.now 1 [] home.old seat.old }
    requires own { seat.old.own ≡ [] }
    requires bits { bits ≡ tested_bit ∷ [] }
    requires words { pool.now.config.words ≡ [] }
    ensures at { AreAt pool.now 1 clearing home.new seat.new }
{
    take_first(pool, home, seat);
    add_first(pool, home, seat, no_text(alloc), no_bits(alloc));
    fill(alloc, pool, home, seat);
    take_second(pool, home, seat);
    add_second(pool, home, seat, no_text(alloc), bits);
    delete_first(pool, home, seat);
    begin_clear(pool, home, seat);
}

/// The find's end and the opening that was asked before it: their numbers.
fn end_and_open(
    pool: &Pool,
    home: &mut Home,
    first: &mut PassSeat,
    second: &mut PassSeat,
) -> (u64, u64)
    requires first { AreAt pool.now 0 finding home.old first.old }
    requires second { (second.old.pool ≡ pool.now) × (second.old.number ≡ 1) × (second.old.front ≡ clearing) × HasNoneOutstanding second.old }
    requires zero { Contains second.old.own (fact.WordZero 132 0) }
    ensures home { home.new.pool ≡ pool.now }
    ensures first { (first.new.pool ≡ pool.now) × (first.new.number ≡ 0) × HasNoneOutstanding first.new }
    ensures second { (second.new.pool ≡ pool.now) × (second.new.number ≡ 1) × HasNoneOutstanding second.new }
{
    ask_opened(pool, second);
    let end = end_find(pool, home, first);
    let opened = append_opened(pool, home, second);
    (end, opened)
}

/// The word that the find read, the numbers of its end and of the opening that was asked before it, and how many events
/// there were.
fn find_beside_clear<R: Threads + Sync>(
    rt: &R,
    alloc: Global,
) -> Result<(u64, u64, u64, u64), Fail> {
    let bits = one_bit(alloc)?;
    let (pool, mut home, mut first, mut second) = open_two(alloc, 2, 1)?;
    lead(alloc, &pool, &mut home, &mut second, bits);
    let opened_at = begin_find(&pool, &mut home, &mut first, no_text(alloc));
    let ((mut first, word), mut second) = read_and_clear(rt, &pool, first, second, opened_at);
    let (end, opened) = end_and_open(&pool, &mut home, &mut first, &mut second);
    let ended = close_two(pool, home, first, second);
    Ok((word, end, opened, ended.events))
}

/// The read has the committed bit, the pass that asked first is appended after the find's end, and the end has all events.
#[test]
fn a_slice_is_cleared_beside_a_find(rt: HostRuntime) -> Result<(), Fail> {
    assert!(rt; find_beside_clear(&rt, rt.alloc())? == (32, 134, 135, 135));
    Ok(())
}
