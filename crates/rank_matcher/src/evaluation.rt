//! The evaluation of a search for 64 columns at once.

ghost use Rattle.std.specs.Prelude.{◌≡◌, ℕ, ◌+◌, ◌*◌, ◌<◌, ◌≤◌, ◌++◌, true, length};
ghost use Rattle.funnel_model.specs.Searches.{Search, Searches};
ghost use Rattle.rank_matcher.specs.Evaluation.{CanRead, ForEachBit, HasReadAll, HasReadRows, HasReadSearch, HasReadSome, IsWithin};
ghost use Rattle.row_layout.specs.AtomReads.{AtomPlan};
ghost use Rattle.row_layout.specs.SearchPlans.{ArePlansOfSearches, HasParts, IsFirstOf, IsPlanOfSearch};
ghost use Rattle.row_read.specs.Bits.{has_bit};
ghost use Rattle.row_read.specs.Readable.{StaysReadable};

use row_layout::{Node, NodeKind, Row};
use row_read::Rows;

/// A word of rank 0 of a slice, which has the bits of 64 columns, and the pool's word at which the slice begins.
#[derive(Clone, Copy)]
pub(crate) struct Place {
    pub(crate) first: u32,
    pub(crate) word: u32,
}

/// The nodes of a search, or of several one after the other, and the rows of their atoms.
#[derive(Clone, Copy)]
pub(crate) struct Part<'a> {
    pub(crate) nodes: &'a [Node],
    pub(crate) rows: &'a [Row],
}

impl<'a> Part<'a> {
    /// What the node of a search is, and its parts.
    fn head(self) -> (NodeKind, Part<'a>)
        requires plan { (search : Search AtomPlan) × IsPlanOfSearch search self.nodes.now self.rows.now }
        ensures parts { (search : Search AtomPlan) → IsPlanOfSearch search self.entry.nodes.now self.entry.rows.now →
            HasParts search result.0 result.1.nodes.now result.1.rows.now }
        ensures shorter { length result.1.nodes.now < length self.entry.nodes.now }
        ensures rows { result.1.rows.now ≡ self.entry.rows.now }
    {
        let parts = Part {
            nodes: &self.nodes[1..],
            rows: self.rows,
        };
        (self.nodes[0].kind, parts)
    }

    /// The first of several searches, and the others.
    fn split(self) -> (Part<'a>, Part<'a>)
        requires some { 0 < length self.nodes.now }
        requires plans { (searches : Searches AtomPlan) × ArePlansOfSearches searches self.nodes.now self.rows.now }
        ensures parts { (searches : Searches AtomPlan) → ArePlansOfSearches searches self.entry.nodes.now self.entry.rows.now →
            IsFirstOf searches result.0.nodes.now result.0.rows.now result.1.nodes.now result.1.rows.now }
        ensures nodes { result.0.nodes.now ++ result.1.nodes.now ≡ self.entry.nodes.now }
        ensures rows { result.0.rows.now ++ result.1.rows.now ≡ self.entry.rows.now }
    {
        let head = self.nodes[0];
        let (nodes, later_nodes) = self.nodes.split_at(head.nodes);
        let (rows, later_rows) = self.rows.split_at(head.rows);
        let later = Part {
            nodes: later_nodes,
            rows: later_rows,
        };
        (Part { nodes, rows }, later)
    }
}

/// Which of 64 columns may be such as a search keeps, by what was read, and which surely are. Each that surely is may be.
#[derive(Clone, Copy, Debug, PartialEq, Eq)]
pub struct Told {
    pub may: u64,
    pub sure: u64,
}

/// Evaluates a search for the columns of the mask, from left to right. It ends an `And` where no column is left that may.
#[cycle(evaluate)]
fn evaluate<R: Rows>(rows: &mut R, place: Place, part: Part<'_>, mask: u64) -> Told
    requires plan { (search : Search AtomPlan) × IsPlanOfSearch search part.nodes.now part.rows.now }
    requires can_read { CanRead (R.reach rows.old) place.first place.word part.rows.now }
    ensures told { (search : Search AtomPlan) → IsPlanOfSearch search part.entry.nodes.now part.entry.rows.now →
        ForEachBit (λ column. HasReadSearch (R.told rows.old) (R.least rows.old) (R.seen rows.new) place.first column search)
        place.word mask result.may result.sure }
    ensures within { IsWithin result.may mask }
    ensures sure { IsWithin result.sure result.may }
    ensures reads { R.reads rows.new ≤ R.reads rows.old + length part.entry.rows.now }
    ensures stays { StaysReadable R.reach R.least R.seen R.told R.kept rows.old rows.new }
{
    let (kind, parts) = part.head();
    match kind {
        NodeKind::Atom { exact } => {
            let may = read_atom(rows, place, parts.rows, mask);
            Told {
                may,
                sure: if exact { may } else { 0 },
            }
        }
        NodeKind::And => evaluate_all(rows, place, parts, mask),
        NodeKind::Or => evaluate_some(rows, place, parts, mask),
        NodeKind::Not => {
            let told = evaluate(rows, place, parts, mask);
            Told {
                may: mask & !told.sure,
                sure: mask & !told.may,
            }
        }
    }
}

/// The same of all of several searches. Each is evaluated for the columns that those before it leave.
#[cycle(evaluate)]
pub(crate) fn evaluate_all<R: Rows>(rows: &mut R, place: Place, part: Part<'_>, mask: u64) -> Told
    requires plan { (searches : Searches AtomPlan) × ArePlansOfSearches searches part.nodes.now part.rows.now }
    requires can_read { CanRead (R.reach rows.old) place.first place.word part.rows.now }
    ensures told { (searches : Searches AtomPlan) → ArePlansOfSearches searches part.entry.nodes.now part.entry.rows.now →
        ForEachBit (λ column. HasReadAll (R.told rows.old) (R.least rows.old) (R.seen rows.new) place.first column searches)
        place.word mask result.may result.sure }
    ensures within { IsWithin result.may mask }
    ensures sure { IsWithin result.sure result.may }
    ensures reads { R.reads rows.new ≤ R.reads rows.old + length part.entry.rows.now }
    ensures stays { StaysReadable R.reach R.least R.seen R.told R.kept rows.old rows.new }
{
    let mut left = part;
    let mut all = Told {
        may: mask,
        sure: mask,
    };
    while !left.nodes.is_empty() {
        let (entry, later) = left.split();
        let told = evaluate(rows, place, entry, all.may);
        all = Told {
            may: told.may,
            sure: all.sure & told.sure,
        };
        if all.may == 0 {
            return all;
        }
        left = later;
    }
    all
}

/// The same of some of several searches.
#[cycle(evaluate)]
fn evaluate_some<R: Rows>(rows: &mut R, place: Place, part: Part<'_>, mask: u64) -> Told
    requires plan { (searches : Searches AtomPlan) × ArePlansOfSearches searches part.nodes.now part.rows.now }
    requires can_read { CanRead (R.reach rows.old) place.first place.word part.rows.now }
    ensures told { (searches : Searches AtomPlan) → ArePlansOfSearches searches part.entry.nodes.now part.entry.rows.now →
        ForEachBit (λ column. HasReadSome (R.told rows.old) (R.least rows.old) (R.seen rows.new) place.first column searches)
        place.word mask result.may result.sure }
    ensures within { IsWithin result.may mask }
    ensures sure { IsWithin result.sure result.may }
    ensures reads { R.reads rows.new ≤ R.reads rows.old + length part.entry.rows.now }
    ensures stays { StaysReadable R.reach R.least R.seen R.told R.kept rows.old rows.new }
{
    let mut left = part;
    let mut some = Told { may: 0, sure: 0 };
    while !left.nodes.is_empty() {
        let (entry, later) = left.split();
        let told = evaluate(rows, place, entry, mask);
        some = Told {
            may: some.may | told.may,
            sure: some.sure | told.sure,
        };
        left = later;
    }
    some
}

/// The columns of the mask whose bit is set in each of these rows, each read at the word that covers the place. It reads no more once
/// none is left.
fn read_atom<R: Rows>(rows: &mut R, place: Place, planned: &[Row], mask: u64) -> u64
    requires { CanRead (R.reach rows.old) place.first place.word planned.now }
    ensures told { (bit : ℕ) → bit < 64 → has_bit mask bit ≡ true →
        HasReadRows (R.told rows.old) (R.least rows.old) (R.seen rows.new) place.first (64 * place.word + bit) planned.now (has_bit result bit) }
    ensures within { IsWithin result mask }
    ensures reads { R.reads rows.new ≤ R.reads rows.old + length planned.now }
    ensures stays { StaysReadable R.reach R.least R.seen R.told R.kept rows.old rows.new }
{
    let mut left = mask;
    for row in planned {
        left &= rows.read(place.first + row.start + (place.word >> row.rank));
        if left == 0 {
            return 0;
        }
    }
    left
}
