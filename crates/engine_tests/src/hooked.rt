//! Work that a test watches: it is told before each part of it.
use engine::{Clearer, Direct, Hits, Work};
use funnel_model::{Claim, ClearJob, Memory};
use row_layout::{Bits, Layout, Plan, SearchPlan};
use row_read::Shared;
use slice_rule::{PassSeat, Pool};

/// What a test does while the lock is free.
pub(crate) trait Hook {
    /// Before a slice is cleared.
    fn clears(&mut self);

    /// Before a column is written.
    fn writes(&mut self);

    /// Before a slice is scanned.
    fn scans(&mut self);

    /// After a slice was scanned: all columns up to then that are sure to hold a document which the search keeps, as far as bits tell.
    fn scanned(&mut self, candidates: &[(u32, u32)]);
}

/// The work, and what a test does beside it.
#[derive(Drop)]
pub(crate) struct Hooked<H: Hook> {
    pub hook: H,
}

impl<H: Hook> Clearer for Hooked<H> {
    fn clear(&mut self, pool: &Pool, seat: &mut PassSeat, room: u32, job: &ClearJob) {
        self.hook.clears();
        Direct.clear(pool, seat, room, job)
    }
}

impl<H: Hook> Work for Hooked<H> {
    fn write(&mut self, pool: &Pool, seat: &mut PassSeat, claim: &Claim, bits: &Bits) {
        self.hook.writes();
        Direct.write(pool, seat, claim, bits)
    }

    fn scan(
        &mut self,
        rows: &mut Shared<'_>,
        layout: &Layout,
        plan: &Plan,
        residue: &SearchPlan,
        slice: u32,
        hits: &mut Hits,
    ) -> Result<(), Memory> {
        self.hook.scans();
        Direct.scan(rows, layout, plan, residue, slice, hits)?;
        self.hook.scanned(hits.sure.as_slice());
        Ok(())
    }
}
