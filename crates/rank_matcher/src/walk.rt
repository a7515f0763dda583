//! The walk of a slice, from the rows of the highest rank down.

ghost use Rattle.std.specs.Prelude.{◌≡◌, ℕ, ◌+◌, ◌<◌, ◌^◌, ◌&&◌, true, All, IfSome, OnOk};
ghost use Rattle.rank_matcher.specs.Walk.{AreLeft, CanWalk, FindsAll, FindsPart, HasReadPlace, ReadsAll, ReadsPart, all_have, bit_in};
ghost use Rattle.row_read.specs.Bits.{has_bit};
ghost use Rattle.row_read.specs.Readable.{StaysReadable};

use crate::words::push_words;
use funnel_model::{Candidates, Memory};
use row_layout::{Plan, Row};
use row_read::Rows;

/// A slice, the pool's word at which it begins, and the plan by which it is searched.
#[derive(Clone, Copy)]
pub(crate) struct Search<'a> {
    pub(crate) plan: &'a Plan,
    pub(crate) slice: u32,
    pub(crate) first: u32,
}

/// Reads the rows below rank `ranks` over the words from `from` up to `to` of rank 0, where `running` has the bits that
/// are left of the rows from that rank on, and appends the columns that are left.
pub(crate) fn visit<R: Rows>(
    rows: &mut R,
    search: &Search<'_>,
    ranks: u8,
    from: u32,
    to: u32,
    running: u64,
    out: &mut Candidates,
) -> Result<(), Memory>
    requires walk { CanWalk (R.reach rows.old) search.now ranks from to }
    requires some { 0 < running }
    requires running { AreLeft (R.told rows.old) (R.least rows.old) (R.seen rows.old) search.now ranks from to running }
    ensures found { OnOk result (FindsAll (R.told rows.old) (R.least rows.old) (R.seen rows.new) search.now from to out.old out.new) }
    ensures part { FindsPart (R.told rows.old) (R.least rows.old) (R.seen rows.new) search.now from to out.old out.new }
    ensures reads { OnOk result (ReadsAll (R.told rows.old) search.now ranks from to (R.reads rows.old) (R.reads rows.new)) }
    ensures reads_at_most { ReadsPart (R.told rows.old) search.now ranks from to (R.reads rows.old) (R.reads rows.new) }
    ensures stays { StaysReadable R.reach R.least R.seen R.told R.kept rows.old rows.new }
{
    if ranks == 0 {
        return push_words(out, search.slice, from, to, running);
    }
    let rank = ranks - 1;
    let planned = search.plan.of_rank(rank);
    if planned.is_empty() {
        return visit(rows, search, rank, from, to, running, out);
    }
    for word in from >> rank..to >> rank {
        let left = intersect(rows, planned, search.first + word, running);
        if left != 0 {
            visit(
                rows,
                search,
                rank,
                word << rank,
                (word + 1) << rank,
                left,
                out,
            )?;
        }
    }
    Ok(())
}

/// The bits of `running` that are left after the words of these rows at a place, of which it reads no more once none is
/// left. The place is the word within the row, with the first word of the slice added.
fn intersect<R: Rows>(rows: &mut R, planned: &[Row], place: u32, running: u64) -> u64
    requires fits { All (λ row. place + row.start < 2 ^ 32) planned.now }
    requires reach { All (λ row. R.reach rows.old (place + row.start)) planned.now }
    ensures told { IfSome (R.told rows.old) (λ words. (bit : ℕ) → has_bit result bit ≡ (has_bit running bit && all_have words place planned.now bit)) }
    ensures least { (bit : ℕ) → has_bit running bit ≡ true → All (λ row. R.least rows.old (bit_in place bit row)) planned.now → has_bit result bit ≡ true }
    ensures running { (bit : ℕ) → has_bit result bit ≡ true → has_bit running bit ≡ true }
    ensures seen { (bit : ℕ) → has_bit result bit ≡ true → All (λ row. R.seen rows.new (bit_in place bit row)) planned.now }
    ensures reads { HasReadPlace (R.told rows.old) place running planned.now (R.reads rows.old) (R.reads rows.new) }
    ensures stays { StaysReadable R.reach R.least R.seen R.told R.kept rows.old rows.new }
{
    let mut left = running;
    for row in planned {
        left &= rows.read(place + row.start);
        if left == 0 {
            return 0;
        }
    }
    left
}
