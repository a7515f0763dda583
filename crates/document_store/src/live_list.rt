ghost use Rattle.std.specs.Prelude.{◌≡◌, ◌≢◌, ℕ, ◌+◌, ◌*◌, ◌^◌, ◌<◌, ◌==◌, if◌then◌else◌, length, IfOk, IsNone, IfSome};
ghost use Rattle.std.specs.declared.option.Option.TheVariants.{Some, None};
ghost use Rattle.document_store.specs.Entries.{IsShallow, column_of};
ghost use Rattle.document_store.specs.Trees.{HasNoneUnder, IsInPlace, IsLinkOf, IsLowestUnder, IsPlaceOf, bucket_of, link_at, link_under, mixed_number};

use funnel_model::Memory;
use std::alloc::Global;
use std::marker::Model;

/// Where no entry is behind a link. No entry has this number.
const NONE: u32 = u32::MAX;

/// The entry of a column: a number, and whether it is live in the column.
#[derive(Clone, Copy, Debug)]
pub struct Entry {
    pub id: u64,
    pub live: bool,
}

/// The slice and the column of each live number: a hash table, each of whose buckets is a search tree by the bits of the
/// numbers, so that a call looks at few entries whichever numbers are live. Each column has an entry. Behind the link of a
/// bucket is the entry at its top, and under each entry are two links: the numbers behind them go on with the bit 0 and
/// with the bit 1. Only `new` takes memory.
#[derive(Debug, Drop)]
pub struct LiveList {
    slices: u32,
    columns: u32,
    buckets: usize,
    links: Vec<u32>,
    entries: Vec<Entry>,
}

impl Model for LiveList {
    ghost use Rattle.std.specs.Prelude.{map};
    ghost use Rattle.document_store.specs.Trees.{AreTrees, id_of};
    ghost use Rattle.document_store.specs.Entries.{Entries};

    ghost Value = { Entries };

    ghost view = { λ l. record { slices = l.slices; columns = l.columns; entries = map id_of l.entries.items; links = l.links.items } };

    ghost invariant = { λ l. AreTrees l.slices l.columns l.buckets l.links.items l.entries.items };
}

impl LiveList {
    /// No number, with an entry for each of so many columns of so many slices.
    pub fn new(alloc: Global, slices: u32, columns: u32) -> Result<LiveList, Memory>
        requires { slices * columns < 2 ^ 32 }
        ensures slices { IfOk result (λ l. l.slices ≡ slices) }
        ensures slice_columns { IfOk result (λ l. l.columns ≡ columns) }
        ensures empty { IfOk result (λ l. (id : ℕ) → column_of l id ≡ None) }
    {
        let count = (slices * columns) as usize;
        let buckets = count.next_power_of_two();
        Ok(LiveList {
            slices,
            columns,
            buckets,
            links: vec![in alloc; NONE; buckets + 2 * count]?,
            entries: vec![in alloc; NO_ENTRY; count]?,
        })
    }

    /// Adds a number that isn't there, in a column that no other number has.
    pub fn add(&mut self, id: u64, slice: u32, column: u32)
        requires slice { slice < self.old.slices }
        requires column { column < self.old.columns }
        requires free { (other : ℕ) → column_of self.old other ≢ Some (slice, column) }
        requires absent { column_of self.old id ≡ None }
        ensures columns { (other : ℕ) → column_of self.new other ≡ (if other == id then Some (slice, column) else column_of self.old other) }
        ensures few { IsShallow self.old }
        ensures slices { self.new.slices ≡ self.old.slices }
        ensures slice_columns { self.new.columns ≡ self.old.columns }
    {
        let at = slice * self.columns + column;
        let link = search(self.buckets, &self.links, &self.entries, id);
        self.entries[at as usize] = Entry { id, live: true };
        self.links[link] = at;
    }

    /// The slice and the column of a number.
    pub fn get(&self, id: u64) -> Option<(u32, u32)>
        ensures column { result ≡ column_of self.now id }
        ensures few { IsShallow self.now }
    {
        let link = search(self.buckets, &self.links, &self.entries, id);
        let at = self.links[link];
        if at == NONE {
            return None;
        }
        Some((at / self.columns, at % self.columns))
    }

    /// Takes a number away, where it is there. Its slice and its column.
    pub fn remove(&mut self, id: u64) -> Option<(u32, u32)>
        ensures was { result ≡ column_of self.old id }
        ensures columns { (other : ℕ) → column_of self.new other ≡ (if other == id then None else column_of self.old other) }
        ensures few { IsShallow self.old }
        ensures slices { self.new.slices ≡ self.old.slices }
        ensures slice_columns { self.new.columns ≡ self.old.columns }
        ensures same { IsNone result → self.new ≡ self.old }
    {
        let link = search(self.buckets, &self.links, &self.entries, id);
        let at = self.links[link];
        if at == NONE {
            return None;
        }
        let lowest = lowest_under(self.buckets, &self.links, &self.entries, link);
        let leaf = self.links[lowest];
        self.entries[at as usize].live = false;
        self.links[lowest] = NONE;
        if lowest != link {
            put_in_place(self.buckets, &mut self.links, link, leaf);
        }
        Some((at / self.columns, at % self.columns))
    }
}

/// The entry of a column without a live number.
const NO_ENTRY: Entry = Entry { id: 0, live: false };

/// The link behind which the number is, or would be.
fn search(buckets: usize, links: &[u32], entries: &[Entry], id: u64) -> usize
    requires some { 0 < buckets }
    requires size { length links.now ≡ buckets + 2 * length entries.now }
    ensures place { IsPlaceOf buckets links.now entries.now id result }
    ensures within { result < length links.now }
{
    let mut link = bucket_of(id, buckets);
    for depth in 0..64_u32 {
        let at = links[link];
        let Some(entry) = entries.get(at as usize) else {
            return link;
        };
        if entry.id == id {
            return link;
        }
        link = link_under(buckets, at, (id >> depth) as usize % 2);
    }
    link
}

/// The link, from one with an entry on down, behind which is an entry without any under it.
fn lowest_under(buckets: usize, links: &[u32], entries: &[Entry], first: usize) -> usize
    requires some { 0 < buckets }
    requires size { length links.now ≡ buckets + 2 * length entries.now }
    requires inside { first < length links.now }
    requires entry { link_at links.now first < length entries.now }
    ensures { IsLowestUnder buckets links.now entries.now first result }
{
    let mut link = first;
    for _steps in 0..64_u32 {
        let Some(below) = link_below(buckets, links, entries, links[link]) else {
            return link;
        };
        link = below;
    }
    link
}

/// A link under the entry behind which there is an entry.
fn link_below(buckets: usize, links: &[u32], entries: &[Entry], at: u32) -> Option<usize>
    requires size { length links.now ≡ buckets + 2 * length entries.now }
    requires within { at < length entries.now }
    ensures some { IfSome result (λ l. (link_at links.now l < length entries.now) × IsLinkOf buckets at l) }
    ensures none { IsNone result → HasNoneUnder buckets links.now entries.now at }
{
    let low = link_under(buckets, at, 0);
    let high = link_under(buckets, at, 1);
    if (links[low] as usize) < entries.len() {
        Some(low)
    } else if (links[high] as usize) < entries.len() {
        Some(high)
    } else {
        None
    }
}

/// Puts an entry that no link leads to in the place of the one behind the link.
fn put_in_place(buckets: usize, links: &mut [u32], link: usize, new: u32)
    requires inside { link < length links.old }
    requires old { link_under buckets (link_at links.old link) 1 < length links.old }
    requires new { link_under buckets new 1 < length links.old }
    requires other { link_at links.old link ≢ new }
    requires not_under_old { (link ≢ link_under buckets (link_at links.old link) 0) × (link ≢ link_under buckets (link_at links.old link) 1) }
    requires not_under_new { (link ≢ link_under buckets new 0) × (link ≢ link_under buckets new 1) }
    ensures place { IsInPlace buckets (link_at links.old) (link_at links.new) link (link_at links.old link) new }
    ensures size { length links.new ≡ length links.old }
{
    let old = links[link];
    let from = link_under(buckets, old, 0);
    let to = link_under(buckets, new, 0);
    links[to] = links[from];
    links[to + 1] = links[from + 1];
    links[from] = NONE;
    links[from + 1] = NONE;
    links[link] = new;
}

/// The link under an entry by which the numbers go on that have this bit.
fn link_under(buckets: usize, at: u32, bit: usize) -> usize
    requires { buckets + 2 * at + bit < 2 ^ 64 }
    ensures { result ≡ link_under buckets at bit }
{
    buckets + 2 * at as usize + bit
}

/// The bucket of a number among so many, which are a power of two.
fn bucket_of(id: u64, buckets: usize) -> usize
    requires { 0 < buckets }
    ensures bucket { result ≡ bucket_of buckets id }
    ensures within { result < buckets }
{
    mix(id) as usize & (buckets - 1)
}

/// The number with each of its bits mixed into all: the finalizer of the 64-bit MurmurHash3 of Austin Appleby. Numbers
/// in a row, and multiples of a power of two, so spread over the buckets.
fn mix(id: u64) -> u64
    ensures { result ≡ mixed_number id }
{
    let mut mixed = id;
    mixed = (mixed ^ (mixed >> 33)).wrapping_mul(0xff51_afd7_ed55_8ccd);
    mixed = (mixed ^ (mixed >> 33)).wrapping_mul(0xc4ce_b9fe_1a85_ec53);
    mixed ^ (mixed >> 33)
}
