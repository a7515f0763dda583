ghost use Rattle.std.specs.Prelude.{◌≡◌, ℕ, ◌+◌, ◌<◌, ◌≤◌, ◌↔◌, All, Contains, IfOk, IsTrue, MatchOption, count_by, false, length, replicate};
ghost use Rattle.funnel_model.specs.declared.config.TheConstants.{MOST_SLICES};
ghost use Rattle.slice_stages.specs.Stages.{ClaimsNext, EndsColumn, HasLeft, HoldsOfNone, IsLowest, IsRetiredBy, IsUsed, RetiredBefore, RetiredIn, after_end, empty_stage, free_in, free_of, held_in};
ghost use Rattle.slice_stages.specs.Stages.{is_retired, ready_in, ready_of, spare_of, stage_of, with_stage};
ghost use Rattle.slice_stages.specs.declared.stage.Stage.TheVariants as stage;

use crate::stage::Stage;
use circular_buffer::HeapCircularBuffer;
use funnel_model::{Memory, SliceSet};
use std::alloc::Global;
use std::marker::Model;

/// A slice of which no column is claimed.
const EMPTY: Stage = Stage::InUse {
    claimed: 0,
    over: 0,
};

/// How far each slice is. Slices count from 0. Only `new` takes memory.
#[derive(Drop)]
pub struct Stages {
    columns: u32,
    stages: Vec<Stage>,
    mark: u64,
    in_use: SliceSet,
    with_room: SliceSet,
    clearable: SliceSet,
    waiting: HeapCircularBuffer<u32>,
    spare: u64,
}

impl Model for Stages {
    ghost use Rattle.slice_stages.specs.Stages.{StageTable};
    ghost use Rattle.slice_stages.specs.Sets.{AreKept};

    ghost Value = { StageTable };

    ghost view = { λ s. record { columns = s.columns; stages = s.stages.items; mark = s.mark } };

    ghost invariant = { λ s. AreKept (record { columns = s.columns; stages = s.stages.items; mark = s.mark }) s.in_use s.with_room s.clearable s.waiting s.spare };
}

impl Stages {
    /// So many slices of so many columns, none of which is claimed.
    pub fn new(alloc: Global, slices: u32, columns: u32) -> Result<Stages, Memory>
        requires few { slices ≤ MOST_SLICES }
        requires some { 1 ≤ columns }
        ensures columns { IfOk result (λ s. s.columns ≡ columns) }
        ensures stages { IfOk result (λ s. s.stages ≡ replicate slices empty_stage) }
        ensures mark { IfOk result (λ s. s.mark ≡ 0) }
    {
        Ok(Stages {
            columns,
            stages: vec![in alloc; EMPTY; slices as usize]?,
            mark: 0,
            in_use: all_below(slices),
            with_room: all_below(slices),
            clearable: SliceSet::new(),
            waiting: HeapCircularBuffer::with_capacity(alloc, slices as usize)?,
            spare: slices as u64 * columns as u64,
        })
    }

    /// How far the slice is.
    pub fn stage(&self, slice: u32) -> Stage
        requires { slice < length self.now.stages }
        ensures { result ≡ stage_of self.now slice }
    {
        self.stages[slice as usize]
    }

    /// The lowest slice with a column that is left.
    pub fn with_room(&self) -> Option<u32>
        ensures { MatchOption result (HoldsOfNone (HasLeft self.now.columns) self.now) (IsLowest (HasLeft self.now.columns) self.now) }
    {
        self.with_room.lowest()
    }

    /// How many columns are spare.
    pub fn spare(&self) -> u64
        ensures { result ≡ spare_of self.now }
    {
        self.spare
    }

    /// How many of them are ready. It looks through the slices.
    pub fn ready(&self) -> u64
        ensures { result ≡ ready_of self.now }
    {
        let mut ready = 0;
        for stage in &self.stages {
            ready += self.ready_in(*stage) as u64;
        }
        ready
    }

    /// How many columns are unclaimed. It looks through the slices.
    pub fn free(&self) -> u64
        ensures { result ≡ free_of self.now }
    {
        let mut free = 0;
        for stage in &self.stages {
            free += self.free_in(*stage) as u64;
        }
        free
    }

    /// How many slices are retired. It looks through them.
    pub fn retired(&self) -> u64
        ensures { result ≡ count_by is_retired self.now.stages }
    {
        let mut retired = 0;
        for stage in &self.stages {
            retired += is_retired(*stage) as u64;
        }
        retired
    }

    /// How many columns of the slice are claimed and not over: none where it is retired or being cleared, or where there is no such slice.
    pub fn held(&self, slice: u32) -> u32
        ensures { result ≡ held_in (stage_of self.now slice) }
    {
        match self.stages.get(slice as usize) {
            Some(Stage::InUse { claimed, over }) => claimed.saturating_sub(*over),
            _ => 0,
        }
    }

    /// The slices that a find may read.
    pub fn in_use(&self) -> SliceSet
        ensures { (slice : ℕ) → Contains result slice ↔ ((slice < length self.now.stages) × IsUsed (stage_of self.now slice)) }
    {
        self.in_use.copy()
    }

    /// The lowest slice that retired up to the mark.
    pub fn clearable(&self) -> Option<u32>
        ensures { MatchOption result (HoldsOfNone (IsRetiredBy self.now.mark) self.now) (IsLowest (IsRetiredBy self.now.mark) self.now) }
    {
        self.clearable.lowest()
    }

    /// Claims the next column of a slice that has one left, and gives it.
    pub fn claim(&mut self, slice: u32) -> u32
        requires in_range { slice < length self.old.stages }
        requires left { HasLeft self.old.columns (stage_of self.old slice) }
        ensures { ClaimsNext self.old slice result self.new }
    {
        let Stage::InUse { claimed, over } = self.stages[slice as usize] else {
            unreachable!()
        };
        self.stages[slice as usize] = Stage::InUse {
            claimed: claimed + 1,
            over,
        };
        self.spare -= 1;
        if claimed + 1 == self.columns {
            self.with_room.remove(slice);
        }
        claimed
    }

    /// One more column of the slice is over, by the event with this number. With the last one it retires.
    pub fn end_column(&mut self, slice: u32, event: u64)
        requires in_range { slice < length self.old.stages }
        requires used { IsUsed (stage_of self.old slice) }
        requires last { All (RetiredBefore event) self.old.stages }
        requires later { self.old.mark < event }
        ensures { EndsColumn self.old slice event self.new }
    {
        let Stage::InUse { claimed, over } = self.stages[slice as usize] else {
            unreachable!()
        };
        if over + 1 == self.columns {
            self.retire(slice, claimed, event);
        } else {
            self.stages[slice as usize] = Stage::InUse {
                claimed,
                over: over + 1,
            };
        }
    }

    /// Moves the mark up to the event with this number: slices that retired up to it can be cleared.
    pub fn look(&mut self, mark: u64)
        requires { self.old.mark ≤ mark }
        ensures { self.new ≡ record self.old { mark = mark } }
    {
        while self.look_once(mark) {}
        self.mark = mark;
    }

    /// A pass begins to clear a slice that retired up to the mark.
    pub fn clear(&mut self, slice: u32, pass: u32)
        requires in_range { slice < length self.old.stages }
        requires clearable { IsRetiredBy self.old.mark (stage_of self.old slice) }
        ensures { self.new ≡ with_stage self.old slice (stage.Clearing pass) }
    {
        self.clearable.remove(slice);
        self.stages[slice as usize] = Stage::Clearing { pass };
    }

    /// A slice that was being cleared may be filled and read again.
    pub fn open(&mut self, slice: u32)
        requires in_range { slice < length self.old.stages }
        requires clearing { (pass : ℕ) × (stage_of self.old slice ≡ stage.Clearing pass) }
        ensures { self.new ≡ with_stage self.old slice empty_stage }
    {
        self.stages[slice as usize] = EMPTY;
        self.in_use.add(slice);
        self.with_room.add(slice);
    }

    // How many columns of a slice that is as far are ready.
    fn ready_in(&self, stage: Stage) -> u32
        ensures { result ≡ ready_in self.now.columns self.now.mark stage }
    {
        match stage {
            Stage::InUse { claimed, .. } => self.columns.saturating_sub(claimed),
            Stage::Retired { at } if at <= self.mark => self.columns,
            _ => 0,
        }
    }

    // How many columns of a slice that is as far are unclaimed.
    fn free_in(&self, stage: Stage) -> u32
        ensures { result ≡ free_in self.now.columns stage }
    {
        match stage {
            Stage::InUse { claimed, .. } => self.columns.saturating_sub(claimed),
            _ => 0,
        }
    }

    // The last column of a slice in use is over: the slice retires, and waits.
    fn retire(&mut self, slice: u32, claimed: u32, event: u64)
        requires in_range { slice < length self.old.stages }
        requires used { (over : ℕ) × (stage_of self.old slice ≡ stage.InUse claimed over) }
        requires last { All (RetiredBefore event) self.old.stages }
        requires later { self.old.mark < event }
        ensures { self.new ≡ with_stage self.old slice (stage.Retired event) }
    {
        self.in_use.remove(slice);
        self.with_room.remove(slice);
        self.stages[slice as usize] = Stage::Retired { at: event };
        self.spare += claimed.min(self.columns) as u64;
        let Ok(()) = self.waiting.try_push_back(slice) else {
            unreachable!()
        };
    }

    // Moves the mark up to the retirement of the slice that has waited longest, where that is up to this event.
    fn look_once(&mut self, mark: u64) -> bool
        requires { self.old.mark ≤ mark }
        ensures same { self.new ≡ record self.old { mark = self.new.mark } }
        ensures within { self.new.mark ≤ mark }
        ensures moved { IsTrue result → self.old.mark < self.new.mark }
        ensures done { (result ≡ false) → (self.new.mark ≡ self.old.mark) × HoldsOfNone (RetiredIn self.old.mark mark) self.old }
    {
        let Some(slice) = self.waiting.front().copied() else {
            return false;
        };
        let Stage::Retired { at } = self.stages[slice as usize] else {
            unreachable!()
        };
        if mark < at {
            return false;
        }
        self.waiting.pop_front();
        self.clearable.add(slice);
        self.mark = at;
        true
    }
}

// Whether a slice that is as far is retired.
fn is_retired(stage: Stage) -> bool
    ensures { result ≡ is_retired stage }
{
    matches!(stage, Stage::Retired { .. })
}

/// The set of so many slices.
pub fn all_below(slices: u32) -> SliceSet
    requires { slices ≤ MOST_SLICES }
    ensures { (slice : ℕ) → Contains result slice ↔ (slice < slices) }
{
    let mut set = SliceSet::new();
    for slice in 0..slices {
        set.add(slice);
    }
    set
}
