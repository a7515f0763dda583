ghost use Rattle.std.specs.Prelude.{◌≡◌, [], ℕ, ◌+◌, ◌*◌, ◌/◌, ◌^◌, ◌<◌, ◌≤◌, Bool, List, OnOk, length};
ghost use Rattle.funnel_model.specs.Searches.{Searches};
ghost use Rattle.funnel_model.specs.Sizes.{columns_of_slice};
ghost use Rattle.rank_matcher.specs.Appended.{appended};
ghost use Rattle.rank_matcher.specs.Left.{AreLeftFrom};
ghost use Rattle.rank_matcher.specs.Reads.{ScansTold};
ghost use Rattle.rank_matcher.specs.SearchScans.{CanSearch, HasSearched, ReadsFewFor, ScansFor};
ghost use Rattle.rank_matcher.specs.SliceScans.{CanScanSlice};
ghost use Rattle.row_layout.specs.AtomReads.{AtomPlan};
ghost use Rattle.row_layout.specs.DocumentBits.{slice_start};
ghost use Rattle.row_layout.specs.SearchPlans.{ArePlansOfSearches};
ghost use Rattle.row_read.specs.Bits.{has_bit};
ghost use Rattle.row_read.specs.Readable.{StaysReadable};

use crate::hits::Hits;
use crate::left::Left;
use crate::scanning::scan;
use crate::searching::search_word;
use crate::words::push_columns;
use funnel_model::{Candidates, Memory};
use row_layout::{Layout, Plan, SearchPlan};
use row_read::Rows;

/// Scans a slice for a search, by the plan of the words that it requires and by that of what else it asks. Of the columns that the required
/// words leave, it appends those that are sure to one list and those that only may be kept to the other, in rising order. Where nothing
/// else is asked, each column that is left is sure, and it reads what `scan` does.
pub fn scan_search<R: Rows>(
    rows: &mut R,
    layout: &Layout,
    plan: &Plan,
    search: &SearchPlan,
    slice: u32,
    hits: &mut Hits,
) -> Result<(), Memory>
    requires required { CanScanSlice (R.reach rows.old) layout.now plan.now slice }
    requires search { CanSearch (R.reach rows.old) layout.now search.now slice }
    ensures scans { (searches : Searches AtomPlan) → ArePlansOfSearches searches search.now.nodes.items search.now.rows.items →
        OnOk result (ScansFor (R.told rows.old) (R.least rows.old) (R.seen rows.new) layout.now plan.now searches slice
        hits.old.sure hits.old.unsure hits.new.sure hits.new.unsure) }
    ensures alone { search.now.nodes.items ≡ [] →
        ScansTold (R.told rows.old) layout.now plan.now slice result (appended hits.old.sure hits.new.sure) (R.reads rows.old) (R.reads rows.new) }
    ensures reads { ReadsFewFor layout.now plan.now search.now (R.reads rows.old) (R.reads rows.new) }
    ensures stays { StaysReadable R.reach R.least R.seen R.told R.kept rows.old rows.new }
{
    if search.nodes.is_empty() {
        return scan(rows, layout, plan, slice, &mut hits.sure);
    }
    let asked = Asked {
        layout,
        plan: search,
        slice,
    };
    if plan.len() == 0 {
        return search_slice(rows, &asked, Left::All, &mut hits.sure, &mut hits.unsure);
    }
    hits.left.clear();
    scan(rows, layout, plan, slice, &mut hits.left)?;
    let left = Left::Columns(hits.left.as_slice());
    search_slice(rows, &asked, left, &mut hits.sure, &mut hits.unsure)
}

/// What is asked of a slice beside the required words.
#[derive(Clone, Copy)]
struct Asked<'a> {
    layout: &'a Layout,
    plan: &'a SearchPlan,
    slice: u32,
}

/// Evaluates what is asked for the columns that are left of the slice, word by word.
fn search_slice<R: Rows>(
    rows: &mut R,
    asked: &Asked<'_>,
    left: Left<'_>,
    sure: &mut Candidates,
    unsure: &mut Candidates,
) -> Result<(), Memory>
    requires search { CanSearch (R.reach rows.old) asked.now.layout.now asked.now.plan.now asked.now.slice }
    ensures searched { (searches : Searches AtomPlan) (is_left : ℕ → Bool) →
        ArePlansOfSearches searches asked.now.plan.now.nodes.items asked.now.plan.now.rows.items → AreLeftFrom is_left 0 left.entry → OnOk result (HasSearched (R.told rows.old) (R.least rows.old) (R.seen rows.new)
        (slice_start asked.now.layout.now.room asked.now.slice) searches is_left asked.now.slice (columns_of_slice asked.now.layout.now.config)
        sure.old sure.new unsure.old unsure.new) }
    ensures reads { R.reads rows.new ≤ R.reads rows.old + columns_of_slice asked.now.layout.now.config / 64 * length asked.now.plan.now.rows.items }
    ensures stays { StaysReadable R.reach R.least R.seen R.told R.kept rows.old rows.new }
{
    let mut later = left;
    for word in 0..asked.layout.columns() / 64 {
        let (mask, next) = later.split(word);
        later = next;
        search_columns(rows, asked, word, mask, sure, unsure)?;
    }
    Ok(())
}

/// Evaluates what is asked for the columns of a word of the slice, of those that the mask has.
fn search_columns<R: Rows>(
    rows: &mut R,
    asked: &Asked<'_>,
    word: u32,
    mask: u64,
    sure: &mut Candidates,
    unsure: &mut Candidates,
) -> Result<(), Memory>
    requires search { CanSearch (R.reach rows.old) asked.now.layout.now asked.now.plan.now asked.now.slice }
    requires word { 64 * word < columns_of_slice asked.now.layout.now.config }
    requires small { columns_of_slice asked.now.layout.now.config < 2 ^ 32 }
    ensures searched { (searches : Searches AtomPlan) (is_left : ℕ → Bool) (first_sure first_unsure : List (ℕ × ℕ)) →
        ArePlansOfSearches searches asked.now.plan.now.nodes.items asked.now.plan.now.rows.items →
        ((bit : ℕ) → bit < 64 → has_bit mask bit ≡ is_left (64 * word + bit)) →
        HasSearched (R.told rows.old) (R.least rows.old) (R.seen rows.old) (slice_start asked.now.layout.now.room asked.now.slice) searches is_left
        asked.now.slice (64 * word) first_sure sure.old first_unsure unsure.old →
        OnOk result (HasSearched (R.told rows.old) (R.least rows.old) (R.seen rows.new) (slice_start asked.now.layout.now.room asked.now.slice) searches
        is_left asked.now.slice (64 * (word + 1)) first_sure sure.new first_unsure unsure.new) }
    ensures reads { R.reads rows.new ≤ R.reads rows.old + length asked.now.plan.now.rows.items }
    ensures stays { StaysReadable R.reach R.least R.seen R.told R.kept rows.old rows.new }
{
    if mask == 0 {
        return Ok(());
    }
    let told = search_word(rows, asked.layout, asked.plan, asked.slice, word, mask);
    push_columns(sure, asked.slice, 64 * word, told.sure)?;
    push_columns(unsure, asked.slice, 64 * word, told.may & !told.sure)?;
    Ok(())
}
