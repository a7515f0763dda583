//! How an add or a put gets a column, or a slice to clear for one.
ghost use Rattle.std.specs.Prelude.{◌≡◌, ◌≤◌, [], vec_capacity};
ghost use Rattle.funnel_model.specs.Legal.{IsLegal};
ghost use Rattle.commit_desk.specs.Passes.{IsResting, IsToDo};
ghost use Rattle.engine.specs.Adds.{TakeTurns};

use crate::engine_pool::EnginePool;
use crate::turns::Turns;
use commit_desk::Taken;
use document_store::Doc;
use funnel_model::Block;
use slice_rule::PassSeat;

impl EnginePool {
    // The looks of an add, or of a put, which replaces, for a column, up to the one that claims it, or a slice for it, or is refused. Where the
    // engine is full but a slice is being cleared, it looks again once that slice is open, as often as there are passes. Room that it doesn't
    // need is dropped when the turn is over.
    pub(crate) fn take<T: Turns>(
        &self,
        turns: &mut T,
        pass: &mut PassSeat,
        doc: &Doc,
        replaces: bool,
        room: Vec<Block>,
    ) -> Taken
        requires at { T.made_at turns.old ≡ self.now }
        requires rests { IsResting self.now pass.old }
        requires empty { room.items ≡ [] }
        requires enough { self.now.limits.slices ≤ vec_capacity room }
        ensures turns { TakeTurns self.now.limits pass.old.number replaces doc.now.id doc.now.text pass.old.front pass.new.front result }
        ensures next { IsToDo self.now result pass.new }
        ensures number { pass.new.number ≡ pass.old.number }
        ensures legal { IsLegal self.now.limits pass.new.front }
        ensures at { T.made_at turns.new ≡ self.now }
    {
        let mut room = Some(room);
        let mut awaited = None;
        for _ in 0..self.base.passes {
            match turns.look_for_room(self, pass, doc, replaces, &mut room, awaited, false) {
                Taken::Wait(slice) => awaited = Some(slice),
                taken => return taken,
            }
        }
        turns.look_for_room(self, pass, doc, replaces, &mut room, awaited, true)
    }
}
