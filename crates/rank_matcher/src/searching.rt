ghost use Rattle.std.specs.Prelude.{◌≡◌, ℕ, ◌+◌, ◌*◌, ◌<◌, ◌≤◌, length};
ghost use Rattle.funnel_model.specs.Searches.{Searches};
ghost use Rattle.funnel_model.specs.Sizes.{columns_of_slice};
ghost use Rattle.rank_matcher.specs.Evaluation.{ForEachBit, HasReadAll, IsWithin};
ghost use Rattle.rank_matcher.specs.SliceScans.{CanScanSlice};
ghost use Rattle.row_layout.specs.AtomReads.{AtomPlan};
ghost use Rattle.row_layout.specs.DocumentBits.{slice_start};
ghost use Rattle.row_layout.specs.SearchPlans.{ArePlansOfSearches};
ghost use Rattle.row_read.specs.Readable.{StaysReadable};

use crate::evaluation::{Part, Place, Told, evaluate_all};
use row_layout::{Layout, SearchPlan};
use row_read::Rows;

/// Which of the 64 columns of a word of a slice, of those that the mask has, may be such as all of some searches keep, and which surely
/// are. Each atom's place goes by its own reads. It reads from left to right, and within an "all of" no more once no column is left
/// that may; how much it reads is told only to be no more than each row once for each place.
pub fn search_word<R: Rows>(
    rows: &mut R,
    layout: &Layout,
    plan: &SearchPlan,
    slice: u32,
    word: u32,
    mask: u64,
) -> Told
    requires slice { CanScanSlice (R.reach rows.old) layout.now plan.now.rows.items slice }
    requires word { 64 * word < columns_of_slice layout.now.config }
    requires plan { (searches : Searches AtomPlan) × ArePlansOfSearches searches plan.now.nodes.items plan.now.rows.items }
    ensures told { (searches : Searches AtomPlan) → ArePlansOfSearches searches plan.now.nodes.items plan.now.rows.items →
        ForEachBit (λ column. HasReadAll (R.told rows.old) (R.least rows.old) (R.seen rows.new) (slice_start layout.now.room slice) column searches)
        word mask result.may result.sure }
    ensures within { IsWithin result.may mask }
    ensures sure { IsWithin result.sure result.may }
    ensures reads { R.reads rows.new ≤ R.reads rows.old + length plan.now.rows.items }
    ensures stays { StaysReadable R.reach R.least R.seen R.told R.kept rows.old rows.new }
{
    let (first, _) = layout.slice_range(slice);
    let part = Part {
        nodes: plan.nodes.as_slice(),
        rows: plan.rows.as_slice(),
    };
    let place = Place { first, word };
    evaluate_all(rows, place, part, mask)
}
