//! The list of live numbers.
ghost use Rattle.std.specs.Prelude.{◌≡◌, ◌≢◌, ℕ, Option, None};
ghost use Rattle.document_store.specs.Entries.{column_of};

use document_store::LiveList;
use funnel_model::Memory;
use std::alloc::Global;
use std::test::Fail;

/// The columns of four numbers.
type Columns = [Option<(u32, u32)>; 4];

/// Gives each column of two slices of two columns a number.
fn fill(live: &mut LiveList, a: u64, b: u64, c: u64, d: u64)
    requires slices { live.old.slices ≡ 2 }
    requires columns { live.old.columns ≡ 2 }
    requires empty { (id : ℕ) → column_of live.old id ≡ None }
    requires first { (a ≢ b) × (a ≢ c) × (a ≢ d) }
    requires later { (b ≢ c) × (b ≢ d) × (c ≢ d) }
    ensures slices { live.new.slices ≡ 2 }
    ensures columns { live.new.columns ≡ 2 }
    ensures only { (id : ℕ) → id ≢ a → id ≢ b → id ≢ c → id ≢ d → column_of live.new id ≡ None }
{
    live.add(a, 0, 1);
    live.add(b, 1, 0);
    live.add(c, 0, 0);
    live.add(d, 1, 1);
}

/// Takes four numbers away. Their columns.
fn take_away(live: &mut LiveList, a: u64, b: u64, c: u64, d: u64) -> Columns
    requires only { (id : ℕ) → id ≢ a → id ≢ b → id ≢ c → id ≢ d → column_of live.old id ≡ None }
    ensures slices { live.new.slices ≡ live.old.slices }
    ensures columns { live.new.columns ≡ live.old.columns }
    ensures empty { (id : ℕ) → column_of live.new id ≡ None }
{
    [
        live.remove(a),
        live.remove(b),
        live.remove(c),
        live.remove(d),
    ]
}

/// The columns of four numbers.
fn columns(live: &LiveList, a: u64, b: u64, c: u64, d: u64) -> Columns {
    [live.get(a), live.get(b), live.get(c), live.get(d)]
}

/// Fills the columns, takes all numbers away, and fills the columns anew: the columns of the numbers each time. Number 1 is
/// never there.
fn fill_twice(live: &mut LiveList) -> [Columns; 5]
    requires slices { live.old.slices ≡ 2 }
    requires columns { live.old.columns ≡ 2 }
    requires empty { (id : ℕ) → column_of live.old id ≡ None }
{
    // Four numbers have four buckets, so that some share one. These are multiples of 2 to the 32nd.
    let (a, b, c, d) = (0, 0x1_0000_0000, 0x2_0000_0000, 0x7_0000_0000);
    fill(live, a, b, c, d);
    let filled = columns(live, a, b, c, d);
    let taken = take_away(live, c, a, d, b);
    let emptied = columns(live, a, b, c, d);
    // Each column can have another number.
    fill(live, d, 5, a, 6);
    let refilled = columns(live, d, 5, a, 6);
    [filled, taken, emptied, refilled, columns(live, 1, b, c, 7)]
}

/// Removes a number that is there and one that isn't: their columns, and what is left of the first one and of another.
fn remove_twice(live: &mut LiveList) -> Columns
    requires slices { live.old.slices ≡ 2 }
    requires columns { live.old.columns ≡ 2 }
    requires empty { (id : ℕ) → column_of live.old id ≡ None }
{
    fill(live, 3, 4, 5, 6);
    [live.remove(5), live.remove(1), live.get(5), live.get(6)]
}

fn two_fillings(alloc: Global) -> Result<[Columns; 5], Memory> {
    let mut live = LiveList::new(alloc, 2, 2)?;
    Ok(fill_twice(&mut live))
}

fn two_removals(alloc: Global) -> Result<Columns, Memory> {
    let mut live = LiveList::new(alloc, 2, 2)?;
    Ok(remove_twice(&mut live))
}

static FILLINGS: [Columns; 5] = [
    [Some((0, 1)), Some((1, 0)), Some((0, 0)), Some((1, 1))],
    [Some((0, 0)), Some((0, 1)), Some((1, 1)), Some((1, 0))],
    [None, None, None, None],
    [Some((0, 1)), Some((1, 0)), Some((0, 0)), Some((1, 1))],
    [None, None, None, None],
];

#[test]
fn live_numbers_have_their_columns(rt: HostRuntime) -> Result<(), Fail> {
    assert!(rt; two_fillings(rt.alloc())? == FILLINGS);
    Ok(())
}

static REMOVALS: Columns = [Some((0, 0)), None, None, Some((1, 1))];

#[test]
fn a_number_that_is_not_there_is_not_removed(rt: HostRuntime) -> Result<(), Fail> {
    assert!(rt; two_removals(rt.alloc())? == REMOVALS);
    Ok(())
}

fn many_numbers(alloc: Global) -> Result<Option<(u32, u32)>, Memory> {
    let live = LiveList::new(alloc, 3, 2_000)?;
    Ok(live.get(7))
}

#[test]
fn thousands_of_numbers_find_memory(rt: HostRuntime) -> Result<(), Fail> {
    assert!(rt; many_numbers(rt.alloc())? == None);
    Ok(())
}
