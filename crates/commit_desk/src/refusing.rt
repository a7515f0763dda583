//! What the refusals of adds for want of room, and of recycles, say: they walk over the slices.
ghost use Rattle.std.specs.Prelude.{◌≡◌, ◌<◌, ◌≤◌, false, [], MatchOption, vec_capacity};
ghost use Rattle.funnel_model.specs.Blocks.{AreBlocks, IsBlock};
ghost use Rattle.funnel_model.specs.Legal.{IsFull, NoneCanClear};
ghost use Rattle.funnel_model.specs.Slices.{IsFilled, IsRetired, is_clearing};
ghost use Rattle.commit_desk.specs.Answers.{IsBeingCleared, NoneIsCleared, RefusesClear};

use crate::answers::ClearRefusal;
use crate::desk::Desk;
use document_store::Column;
use funnel_model::{Block, Blocked};
use slice_stages::Stage;

impl Desk {
    // What keeps documents out of each slice, where no slice has room and none can be cleared.
    pub(crate) fn blocks(&self, room: Vec<Block>) -> Blocked
        requires empty { room.items ≡ [] }
        requires enough { self.now.pool.limits.slices ≤ vec_capacity room }
        requires full { IsFull self.now.pool.limits self.now.history }
        ensures { AreBlocks self.now.pool.limits self.now.history result }
    {
        let mut blocks = room;
        for slice in 0..self.slices {
            blocks.push_reserved(self.block(slice));
        }
        Blocked::new(blocks)
    }

    // What keeps documents out of the slice, where something does.
    fn block(&self, slice: u32) -> Block
        requires in_range { slice < self.now.pool.limits.slices }
        requires full { IsFull self.now.pool.limits self.now.history }
        ensures { IsBlock self.now.pool.limits.columns self.now.history slice result }
    {
        match self.stages.stage(slice) {
            Stage::InUse { .. } => self.lowest_held(slice),
            Stage::Retired { at } => {
                let Some((pass, opened_at)) = self.tokens.guard_of(at) else {
                    unreachable!()
                };
                Block::Guarded { pass, opened_at }
            }
            Stage::Clearing { pass } => Block::Clearing { pass },
        }
    }

    // The lowest column of the slice that is live or pending, where the slice is filled and not retired.
    fn lowest_held(&self, slice: u32) -> Block
        requires in_range { slice < self.now.pool.limits.slices }
        requires filled { IsFilled self.now.pool.limits.columns slice self.now.history }
        requires not_retired { IsRetired self.now.pool.limits.columns slice self.now.history → ⊥ }
        requires not_clearing { is_clearing slice self.now.history ≡ false }
        ensures { IsBlock self.now.pool.limits.columns self.now.history slice result }
    {
        for column in self.records.first_over(slice)..self.columns {
            match self.records.state(slice, column) {
                Column::Live { .. } => return Block::Live { column },
                Column::Pending(pass) => return Block::Pending { column, pass },
                _ => {}
            }
        }
        unreachable!()
    }

    // A slice that is being cleared, where there is one.
    pub(crate) fn being_cleared(&self) -> Option<u32>
        ensures { MatchOption result (NoneIsCleared self.now.pool.limits self.now.history) (IsBeingCleared self.now.pool.limits self.now.history) }
    {
        for slice in 0..self.slices {
            if self.is_clearing(slice) {
                return Some(slice);
            }
        }
        None
    }

    /// Whether a pass is clearing the slice.
    pub fn is_clearing(&self, slice: u32) -> bool
        requires { slice < self.now.pool.limits.slices }
        ensures { result ≡ is_clearing slice self.now.history }
    {
        let _ = &self.home;
        matches!(self.stages.stage(slice), Stage::Clearing { .. })
    }

    // Why no slice can be cleared, where none can.
    pub(crate) fn clear_refusal(&self) -> ClearRefusal
        requires { NoneCanClear self.now.pool.limits self.now.history }
        ensures { RefusesClear self.now.pool.limits self.now.history result }
    {
        for slice in 0..self.slices {
            if let Stage::Retired { at } = self.stages.stage(slice) {
                let Some((pass, opened_at)) = self.tokens.guard_of(at) else {
                    unreachable!()
                };
                return ClearRefusal::Guarded {
                    slice,
                    pass,
                    opened_at,
                };
            }
        }
        ClearRefusal::NoneRetired
    }
}
