//! Two passes write columns beside each other, and a find reads the bits of both.
ghost use Rattle.std.specs.Prelude.{◌≡◌, ◌+◌, ◌*◌, ◌<◌, ◌≤◌, ℕ, List, All, Contains, IfOk, [], ◌∷◌, ◌++◌};
ghost use Rattle.column_writer.specs.Written.{CanWrite};
ghost use Rattle.funnel_model.specs.declared.bit_list.Bit.{Bit};
ghost use Rattle.funnel_model.specs.declared.event.Event.TheVariants as event;
ghost use Rattle.funnel_model.specs.Legal.{IsInSlice};
ghost use Rattle.funnel_model.specs.Sizes.{columns_of_slice};
ghost use Rattle.pool_tests.specs.Sizes.{sizes_of};
ghost use Rattle.pool_tests.specs.Written.{KnowsJust};
ghost use Rattle.slice_rule.specs.Numbers.{last_number};
ghost use Rattle.slice_rule.specs.Seats.{HasNoneOutstanding, HoldsToken, new_home_state, new_pass_state};

use crate::setting::{Opened, config, make_event, open_two};
use column_writer::write_column;
use funnel_model::{Bit, Claim, Event, MOST_ROW_WORDS, SliceSet, Text, Token};
use row_layout::{Bits, Layout, fill_bits};
use row_read::{Rows, Shared};
use slice_rule::{Entry, Home, PassSeat, Pool};
use std::alloc::Global;
use std::test::Fail;
use std::thread::{Threads, join};
use treatment::sizes;
use word_cut::words;

/// Pass 0 takes column 0.
fn take_first(pool: &Pool, home: &mut Home, seat: &mut PassSeat)
    requires sizes { (0 < pool.now.limits.passes) × (0 < pool.now.limits.slices) × (0 < pool.now.limits.columns) }
    requires home { (home.old.pool ≡ pool.now) × (home.old.history ≡ []) }
    requires seat { (seat.old.pool ≡ pool.now) × (seat.old.number ≡ 0) × (seat.old.front ≡ []) × (seat.old.asked ≡ []) }
    ensures home { (home.new.pool ≡ pool.now) × (home.new.history ≡ event.Take 0 0 0 ∷ []) }
    ensures seat { (seat.new.pool ≡ pool.now) × (seat.new.number ≡ 0) × (seat.new.front ≡ event.Take 0 0 0 ∷ []) }
    ensures own { seat.new.own ≡ seat.old.own }
    ensures none_outstanding { HasNoneOutstanding seat.new }
{
    let entry = Event::Take {
        pass: 0,
        slice: 0,
        column: 0,
    };
    make_event(pool, home, seat, entry);
}

/// Pass 1 takes column 1.
fn take_second(pool: &Pool, home: &mut Home, seat: &mut PassSeat)
    requires sizes { (1 < pool.now.limits.passes) × (0 < pool.now.limits.slices) × (1 < pool.now.limits.columns) }
    requires home { (home.old.pool ≡ pool.now) × (home.old.history ≡ event.Take 0 0 0 ∷ []) }
    requires seat { (seat.old.pool ≡ pool.now) × (seat.old.number ≡ 1) × (seat.old.front ≡ []) × (seat.old.asked ≡ []) }
    ensures home { (home.new.pool ≡ pool.now) × (home.new.history ≡ event.Take 0 0 0 ∷ event.Take 1 0 1 ∷ []) }
    ensures seat { (seat.new.pool ≡ pool.now) × (seat.new.number ≡ 1) × (seat.new.front ≡ event.Take 0 0 0 ∷ event.Take 1 0 1 ∷ []) }
    ensures own { seat.new.own ≡ seat.old.own }
    ensures none_outstanding { HasNoneOutstanding seat.new }
{
    pool.catch_up(home, seat);
    let entry = Event::Take {
        pass: 1,
        slice: 0,
        column: 1,
    };
    make_event(pool, home, seat, entry);
}

/// A pass adds a document in slice 0.
#[derive(Drop)]
struct Adds<'a> {
    pass: u32,
    id: u64,
    text: &'a Text,
    column: u32,
    bits: &'a Bits,
}

impl<'a> Entry for Adds<'a> {
    ghost event = { λ e. event.Add e.pass e.id e.text.now 0 e.column e.bits.now.bits };
}

/// Pass 0 adds its document.
fn add_first(pool: &Pool, home: &mut Home, seat: &mut PassSeat, text: &Text, bits: &Bits)
    requires sizes { (0 < pool.now.limits.passes) × (0 < pool.now.limits.commits) }
    requires home { (home.old.pool ≡ pool.now) × (home.old.history ≡ event.Take 0 0 0 ∷ event.Take 1 0 1 ∷ []) }
    requires seat { (seat.old.pool ≡ pool.now) × (seat.old.number ≡ 0) × HasNoneOutstanding seat.old }
    requires own { KnowsJust 1 bits.now.bits seat.old.own }
    requires inside { All (λ b. IsInSlice pool.now.limits.slice_words 0 b.word) bits.now.bits }
    requires in_word { All (λ b. b.bit < 64) bits.now.bits }
    ensures home { (home.new.pool ≡ pool.now)
        × (home.new.history ≡ event.Take 0 0 0 ∷ event.Take 1 0 1 ∷ event.Add 0 4 text.now 0 0 bits.now.bits ∷ []) }
    ensures seat { (seat.new.pool ≡ pool.now) × (seat.new.number ≡ 0) × HasNoneOutstanding seat.new }
{
    pool.catch_up(home, seat);
    let entry = Adds {
        pass: 0,
        id: 4,
        text,
        column: 0,
        bits,
    };
    pool.make_event(home, seat, &entry);
}

/// Pass 1 adds its document.
fn add_second(pool: &Pool, home: &mut Home, seat: &mut PassSeat, text: &Text, bits: &Bits)
    requires first { (t : List ℕ) × (bs : List Bit)
        × (home.old.history ≡ event.Take 0 0 0 ∷ event.Take 1 0 1 ∷ event.Add 0 4 t 0 0 bs ∷ []) }
    requires sizes { (1 < pool.now.limits.passes) × (1 < pool.now.limits.commits) }
    requires home { home.old.pool ≡ pool.now }
    requires seat { (seat.old.pool ≡ pool.now) × (seat.old.number ≡ 1) × HasNoneOutstanding seat.old }
    requires own { KnowsJust 2 bits.now.bits seat.old.own }
    requires inside { All (λ b. IsInSlice pool.now.limits.slice_words 0 b.word) bits.now.bits }
    requires in_word { All (λ b. b.bit < 64) bits.now.bits }
    ensures home { (home.new.pool ≡ pool.now) × (home.new.history ≡ home.old.history ++ event.Add 1 5 text.now 0 1 bits.now.bits ∷ []) }
{
    pool.catch_up(home, seat);
    let entry = Adds {
        pass: 1,
        id: 5,
        text,
        column: 1,
        bits,
    };
    pool.make_event(home, seat, &entry);
}

/// Whether each of these bits' words is read as this value.
fn all_read<R: Rows>(rows: &mut R, bits: &[Bit], value: u64) -> bool
    requires { All (λ b. R.reach rows.old b.word) bits.now }
{
    let mut all = true;
    for bit in bits {
        all &= rows.read(bit.word) == value;
    }
    all
}

/// A find reads the words of bits of slice 0, and whether each has the bits of the columns 0 and 1 alone.
fn read_both(pool: &Pool, seat: &mut PassSeat, token: &Token, bits: &[Bit]) -> bool
    requires pool { seat.old.pool ≡ pool.now }
    requires token { HoldsToken seat.old token.now }
    requires none_outstanding { HasNoneOutstanding seat.old }
    requires readable { Contains token.now.slices 0 }
    requires inside { All (λ b. IsInSlice pool.now.limits.slice_words 0 b.word) bits.now }
{
    let mut rows = Shared::new(pool, seat, token);
    all_read(&mut rows, bits, 3)
}

/// Pass 0 begins a find, and reads the words of these bits under its token.
fn find_both(pool: &Pool, home: &mut Home, seat: &mut PassSeat, query: Text, bits: &[Bit]) -> bool
    requires adds { (t : List ℕ) × (bs : List Bit) × (u : List ℕ) × (cs : List Bit) × (home.old.history
        ≡ event.Take 0 0 0 ∷ event.Take 1 0 1 ∷ event.Add 0 4 t 0 0 bs ∷ event.Add 1 5 u 0 1 cs ∷ []) }
    requires sizes { (0 < pool.now.limits.passes) × (pool.now.limits.slices ≡ 1) × (0 < pool.now.limits.columns) }
    requires home { home.old.pool ≡ pool.now }
    requires seat { (seat.old.pool ≡ pool.now) × (seat.old.number ≡ 0) × HasNoneOutstanding seat.old }
    requires inside { All (λ b. IsInSlice pool.now.limits.slice_words 0 b.word) bits.now }
{
    pool.catch_up(home, seat);
    let entry = Event::Find { pass: 0, query };
    let opened_at = make_event(pool, home, seat, entry);
    let mut slices = SliceSet::new();
    slices.add(0);
    let token = Token {
        place: 2,
        opened_at,
        slices,
    };
    let both = read_both(pool, seat, &token, bits);
    let Token {
        place: _,
        opened_at: _,
        slices: _,
    } = token;
    both
}

/// Each pass writes its column in a thread of its own.
fn write_both<R: Threads + Sync>(
    rt: &R,
    pool: &Pool,
    first: PassSeat,
    second: PassSeat,
    low: &Bits,
    high: &Bits,
) -> (PassSeat, PassSeat)
    requires first { (first.number ≡ 0) × (first.front ≡ event.Take 0 0 0 ∷ []) × (first.own ≡ []) }
    requires second { (second.number ≡ 1) × (second.front ≡ event.Take 0 0 0 ∷ event.Take 1 0 1 ∷ []) × (second.own ≡ []) }
    requires low { CanWrite pool.now first (record { slice = 0; column = 0 }) low.now.bits }
    requires high { CanWrite pool.now second (record { slice = 0; column = 1 }) high.now.bits }
    ensures first { (result.0.pool ≡ pool.now) × (result.0.number ≡ 0) × HasNoneOutstanding result.0 }
    ensures second { (result.1.pool ≡ pool.now) × (result.1.number ≡ 1) × HasNoneOutstanding result.1 }
    ensures low { KnowsJust 1 low.now.bits result.0.own }
    ensures high { KnowsJust 2 high.now.bits result.1.own }
{
    join(
        rt,
        move || -> PassSeat
            requires can { CanWrite pool.now first (record { slice = 0; column = 0 }) low.now.bits }
            requires own { first.own ≡ [] }
            ensures seat { (result.pool ≡ pool.entry.now) × (result.number ≡ first.number) × HasNoneOutstanding result }
            ensures bits { KnowsJust (last_number first.number first.front) low.entry.now.bits result.own }
        { written_as(pool, first, 0, low) },
        move || -> PassSeat
            requires can { CanWrite pool.now second (record { slice = 0; column = 1 }) high.now.bits }
            requires own { second.own ≡ [] }
            ensures seat { (result.pool ≡ pool.entry.now) × (result.number ≡ second.number) × HasNoneOutstanding result }
            ensures bits { KnowsJust (last_number second.number second.front) high.entry.now.bits result.own }
        { written_as(pool, second, 1, high) },
    )
}

/// A pass writes its column.
fn written_as(pool: &Pool, mut seat: PassSeat, column: u32, bits: &Bits) -> PassSeat
    requires can { CanWrite pool.now seat (record { slice = 0; column = column }) bits.now.bits }
    requires own { seat.own ≡ [] }
    ensures seat { (result.pool ≡ pool.now) × (result.number ≡ seat.number) × HasNoneOutstanding result }
    ensures bits { KnowsJust (last_number seat.number seat.front) bits.now.bits result.own }
{
    let claim = Claim { slice: 0, column };
    write_column(pool, &mut seat, &claim, bits);
    let Claim {
        slice: _,
        column: _,
    } = claim;
    seat
}

/// The layout of the pool of one slice, if its rows are not too many.
fn layout(alloc: Global) -> Result<Layout, Fail>
    ensures slices { IfOk result (λ layout. layout.config.slices ≡ 1) }
    ensures columns { IfOk result (λ layout. columns_of_slice layout.config ≡ 64) }
{
    let config = config(alloc, 2, 1);
    if sizes(&config).pool_words > MOST_ROW_WORDS {
        return Err(Fail::new("the pool is too large"));
    }
    Ok(Layout::new(alloc, &config)?)
}

/// The bits of a document at a column.
fn bits_at(alloc: Global, layout: &Layout, column: u32) -> Result<Bits, Fail>
    requires slices { layout.now.config.slices ≡ 1 }
    requires column { column < columns_of_slice layout.now.config }
    ensures inside { IfOk result (λ bits. All (λ b. IsInSlice layout.now.room 0 b.word) bits.bits) }
    ensures in_word { IfOk result (λ bits. All (λ b. b.bit < 64) bits.bits) }
{
    let words = words(alloc, "a black cat")?;
    let mut bits = Bits::for_words(alloc, &words)?;
    fill_bits(layout, &words, 0, column, &mut bits);
    Ok(bits)
}

/// Each pass takes a column, writes it in a thread of its own, and adds its document. Whether a find then reads both bits in
/// each of their words.
fn write_and_find<R: Threads + Sync>(
    rt: &R,
    alloc: Global,
    opened: Opened,
    low: Bits,
    high: Bits,
) -> bool
    requires sizes { opened.0.limits ≡ sizes_of 1 opened.0.limits.slice_words }
    requires words { opened.0.config.words ≡ [] }
    requires home { opened.1 ≡ new_home_state opened.0 }
    requires first { opened.2 ≡ new_pass_state opened.0 0 }
    requires second { opened.3 ≡ new_pass_state opened.0 1 }
    requires low { All (λ b. IsInSlice opened.0.limits.slice_words 0 b.word) low.bits × All (λ b. b.bit < 64) low.bits }
    requires high { All (λ b. IsInSlice opened.0.limits.slice_words 0 b.word) high.bits × All (λ b. b.bit < 64) high.bits }
{
    let (pool, mut home, mut first, mut second) = opened;
    take_first(&pool, &mut home, &mut first);
    take_second(&pool, &mut home, &mut second);
    let (mut first, mut second) = write_both(rt, &pool, first, second, &low, &high);
    let text = || Text::new(String::new(alloc));
    add_first(&pool, &mut home, &mut first, &text(), &low);
    add_second(&pool, &mut home, &mut second, &text(), &high);
    find_both(&pool, &mut home, &mut first, text(), low.as_slice())
}

fn both_columns<R: Threads + Sync>(rt: &R, alloc: Global) -> Result<bool, Fail> {
    let layout = layout(alloc)?;
    let (_, slice_words) = layout.slice_range(0);
    if slice_words == 0 {
        return Err(Fail::new("a slice has words"));
    }
    let low = bits_at(alloc, &layout, 0)?;
    let high = bits_at(alloc, &layout, 1)?;
    let opened = open_two(alloc, 1, slice_words)?;
    Ok(write_and_find(rt, alloc, opened, low, high))
}

/// Two threads set bits in the same words, each for a document of its own. Once both documents are committed, a find reads
/// every bit.
#[test]
fn two_threads_set_bits_of_the_same_words(rt: HostRuntime) -> Result<(), Fail> {
    assert!(rt; both_columns(&rt, rt.alloc())?);
    Ok(())
}
