//! The scans of a find for its search, while the lock is free.
ghost use Rattle.std.specs.Prelude.{◌≡◌, [], IfOk, OnOk};
ghost use Rattle.engine.specs.Finds.{CanLookIn};
ghost use Rattle.engine.specs.Scans.{AreScanned, CanScan, IsPlannedFor, IsScannedEntry, part_of};
ghost use Rattle.row_read.specs.SharedRows.{kept_of};

use crate::engine_pool::EnginePool;
use crate::search::Search;
use crate::work::Work;
use commit_desk::FindLayout;
use funnel_model::{Memory, Token};
use plan_rows::{Rest, plan, plan_search};
use rank_matcher::Hits;
use row_layout::{Layout, Plan, SearchPlan};
use row_read::Shared;
use slice_rule::PassSeat;

// How a search goes by a layout: by the rows of the words that it requires, of which this rest is left to look for, and by the plan of what
// else it asks.
#[derive(Drop)]
pub(crate) struct Planned {
    pub plan: Plan,
    pub rest: Rest,
    pub residue: SearchPlan,
}

impl Planned {
    // Plans a search for a layout.
    fn of(layout: &Layout, search: &Search) -> Result<Planned, Memory>
        ensures { IfOk result (λ planned. IsPlannedFor layout.now.config search.now planned) }
    {
        let required = plan(search.alloc, layout, &search.words)?;
        let (plan, rest) = required;
        let residue = plan_search(search.alloc, layout, search.residue.as_slice())?;
        Ok(Planned {
            plan,
            rest,
            residue,
        })
    }
}

// What slices of one layout were scanned for, with the candidates, and with the words that are left to look for in their documents.
#[derive(Drop)]
pub(crate) struct Scanned<'a> {
    pub search: &'a Search,
    pub hits: Hits,
    pub rest: Rest,
}

impl EnginePool {
    // Scans the slices of an entry for a search, by their layout.
    pub(crate) fn scan_entry<'a, W: Work>(
        &self,
        pass: &mut PassSeat,
        token: &Token,
        entry: &FindLayout,
        search: &'a Search,
        work: &mut W,
    ) -> Result<Scanned<'a>, Memory>
        requires can { CanLookIn self.now pass.old token.now entry.now }
        ensures scanned { IfOk result (λ scanned. IsScannedEntry entry.now pass.new token.now scanned) }
        ensures search { IfOk result (λ scanned. scanned.search.now ≡ search.now) }
        ensures seat { pass.new ≡ record pass.old { own = pass.new.own; told = pass.new.told } }
    {
        let planned = Planned::of(entry.layout.layout(), search)?;
        let mut hits = Hits::new(search.alloc);
        let mut rows = Shared::new(&self.pool, pass, token);
        self.scan_slices(&mut rows, entry, &planned, work, &mut hits)?;
        Ok(Scanned {
            search,
            hits,
            rest: planned.rest,
        })
    }

    // Scans the slices of an entry, one after the other.
    fn scan_slices<W: Work>(
        &self,
        rows: &mut Shared<'_>,
        entry: &FindLayout,
        planned: &Planned,
        work: &mut W,
        hits: &mut Hits,
    ) -> Result<(), Memory>
        requires scan { (search : Search) × CanScan self.now rows.old entry.now search planned.now }
        requires none_sure { hits.old.sure ≡ [] }
        requires none_unsure { hits.old.unsure ≡ [] }
        ensures scanned { (search : Search) → IsPlannedFor entry.now.layout.config search planned.now →
            OnOk result (AreScanned entry.now.layout.config rows.new.seat.now (part_of entry.now rows.new) search hits.new.sure hits.new.unsure) }
        ensures kept { kept_of rows.new ≡ kept_of rows.old }
    {
        let _ = &self.pool;
        let mut from = 0;
        while let Some(slice) = entry.slices.next(from) {
            work.scan(
                rows,
                entry.layout.layout(),
                &planned.plan,
                &planned.residue,
                slice,
                hits,
            )?;
            from = slice + 1;
        }
        Ok(())
    }
}
