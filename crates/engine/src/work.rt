ghost use Rattle.std.specs.Prelude.{◌≡◌, None, OnOk};
ghost use Rattle.column_writer.specs.Written.{CanWrite, SetsBits};
ghost use Rattle.funnel_model.specs.declared.bit_list.Bit.{Bit};
ghost use Rattle.funnel_model.specs.Searches.{Searches};
ghost use Rattle.rank_matcher.specs.SearchScans.{CanSearch, ReadsFewFor, ScansFor};
ghost use Rattle.rank_matcher.specs.SliceScans.{CanScanSlice};
ghost use Rattle.row_layout.specs.AtomReads.{AtomPlan};
ghost use Rattle.row_layout.specs.SearchPlans.{ArePlansOfSearches};
ghost use Rattle.row_read.specs.SharedRows.{IsCommittedUnder, IsInReach, WasReadSet, kept_of};

use column_writer::write_column;
use funnel_model::{Claim, ClearJob, Memory};
use rank_matcher::{Hits, scan_search};
use row_layout::{Bits, Layout, Plan, SearchPlan};
use row_read::Shared;
use slice_recycler::{Clearer, clear_slice};
use slice_rule::{PassSeat, Pool};

/// What a call does between its turns, while the lock is free. An implementation may do more than it has to,
/// which is how a test sees that others are answered meanwhile; each of its calls returns. It must not call the engine by itself: an
/// add may wait until the slice is open that the very caller is clearing.
pub trait Work: Clearer {
    /// Sets the bits of a document in its column.
    fn write(&mut self, pool: &Pool, seat: &mut PassSeat, claim: &Claim, bits: &Bits)
        requires { CanWrite pool.now seat.old claim.now bits.now.bits }
        ensures { SetsBits seat.old seat.new bits.now.bits };

    /// Appends the columns of a slice that may hold documents which a search keeps, by the plan of the words that it requires and by that
    /// of what else it asks.
    fn scan(
        &mut self,
        rows: &mut Shared<'_>,
        layout: &Layout,
        plan: &Plan,
        residue: &SearchPlan,
        slice: u32,
        hits: &mut Hits,
    ) -> Result<(), Memory>
        requires required { CanScanSlice (IsInReach rows.old) layout.now plan.now slice }
        requires residue { CanSearch (IsInReach rows.old) layout.now residue.now slice }
        ensures scans { (searches : Searches AtomPlan) → ArePlansOfSearches searches residue.now.nodes.items residue.now.rows.items →
            OnOk result (ScansFor None (IsCommittedUnder rows.old) (WasReadSet rows.new) layout.now plan.now searches slice
            hits.old.sure hits.old.unsure hits.new.sure hits.new.unsure) }
        ensures reads { ReadsFewFor layout.now plan.now residue.now rows.old.count rows.new.count }
        ensures seen_stays { (bit : Bit) → WasReadSet rows.old bit → WasReadSet rows.new bit }
        ensures kept { kept_of rows.new ≡ kept_of rows.old };
}

/// The work, and nothing else.
#[derive(Drop)]
pub struct Direct;

impl Clearer for Direct {
    fn clear(&mut self, pool: &Pool, seat: &mut PassSeat, room: u32, job: &ClearJob) {
        clear_slice(pool, seat, room, job)
    }
}

impl Work for Direct {
    fn write(&mut self, pool: &Pool, seat: &mut PassSeat, claim: &Claim, bits: &Bits) {
        write_column(pool, seat, claim, bits)
    }

    fn scan(
        &mut self,
        rows: &mut Shared<'_>,
        layout: &Layout,
        plan: &Plan,
        residue: &SearchPlan,
        slice: u32,
        hits: &mut Hits,
    ) -> Result<(), Memory> {
        scan_search(rows, layout, plan, residue, slice, hits)
    }
}
