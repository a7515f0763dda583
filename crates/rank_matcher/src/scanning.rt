ghost use Rattle.rank_matcher.specs.Appended.{appended};
ghost use Rattle.rank_matcher.specs.Reads.{ScansTold};
ghost use Rattle.rank_matcher.specs.SliceScans.{CanScanSlice, ScansSlice};
ghost use Rattle.row_read.specs.Readable.{StaysReadable};

use crate::walk::{Search, visit};
use funnel_model::{Candidates, Memory};
use row_layout::{Layout, Plan};
use row_read::Rows;

/// Appends the columns of a slice whose bit is set in every planned row, in rising order. Where other threads set bits
/// meanwhile, it appends every column that it must find, and none whose bits it did not see.
pub fn scan<R: Rows>(
    rows: &mut R,
    layout: &Layout,
    plan: &Plan,
    slice: u32,
    out: &mut Candidates,
) -> Result<(), Memory>
    requires { CanScanSlice (R.reach rows.old) layout.now plan.now slice }
    ensures scans { ScansSlice (R.least rows.old) (R.seen rows.new) layout.now plan.now slice result out.old out.new (R.reads rows.old) (R.reads rows.new) }
    ensures told { ScansTold (R.told rows.old) layout.now plan.now slice result (appended out.old out.new) (R.reads rows.old) (R.reads rows.new) }
    ensures stays { StaysReadable R.reach R.least R.seen R.told R.kept rows.old rows.new }
{
    let (first, _) = layout.slice_range(slice);
    let search = Search { plan, slice, first };
    visit(rows, &search, 7, 0, layout.columns() / 64, u64::MAX, out)
}
