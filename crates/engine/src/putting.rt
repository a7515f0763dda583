//! Puts.
ghost use Rattle.std.specs.Prelude.{◌≡◌, ◌≤◌, [], IfOk, vec_capacity};
ghost use Rattle.funnel_model.specs.declared.call.Call.TheVariants as call;
ghost use Rattle.funnel_model.specs.Legal.{IsLegal};
ghost use Rattle.commit_desk.specs.Passes.{IsResting};
ghost use Rattle.engine.specs.Adds.{IsToBeAdded};
ghost use Rattle.engine.specs.Passes.{MakesCall, view_of};
ghost use Rattle.engine.specs.Puts.{OwnPutTurns, PutTurns};
ghost use Rattle.engine.specs.Replies.{reply_of_put};

use crate::adding::document;
use crate::engine::Engine;
use crate::engine_pool::EnginePool;
use crate::pass::Pass;
use crate::turns::Turns;
use crate::work::{Direct, Work};
use commit_desk::{AddFault, Put};
use document_store::Doc;
use funnel_model::{Block, Blocked, Memory};
use row_layout::Bits;
use slice_rule::{PassSeat, PoolName};
use std::alloc::Global;
use std::sync::Wait;

/// Why no document was put.
#[derive(Debug, Drop)]
pub enum PutFault {
    /// No slice has a column left, and none can be cleared: what keeps documents out of each.
    Full(Blocked),
    /// The history has this many events, and no call is taken any more.
    Spent(u64),
    /// There was no memory, before a column was taken or a slice cleared for the document.
    Memory,
}

impl<N: PoolName> Engine<N> {
    /// Adds a document, in the place of the live one with its number where there is one, and gives the place of the add. A find beside it
    /// finds the old text or the new one, and never none. It is refused for no live number.
    ///
    /// It takes its memory, moves documents, waits for the lock and for slices, and claims its column as an add does. What is live in its
    /// last turn, which takes no memory, tells whether it replaces. Unless an open find may ask for the old document, it is dropped when the
    /// lock is free again.
    pub fn put<R: Wait>(
        &self,
        rt: &R,
        alloc: Global,
        pass: &mut Pass<N>,
        id: u64,
        text: &str,
    ) -> Result<Put, PutFault>
        ensures call { MakesCall N.pool.limits (call.Put id text.now) (reply_of_put result) pass.old pass.new }
        ensures turns { PutTurns N.pool.config N.pool.limits pass.old.number id text.now pass.old.front pass.new.front result }
    {
        self.put_by(rt, alloc, pass, id, text, &mut Direct)
    }

    /// A put whose column, and those of the documents that it moves, are written by `work`, and whose slice is cleared by it,
    /// while the lock is free.
    pub fn put_by<R: Wait, W: Work>(
        &self,
        rt: &R,
        alloc: Global,
        pass: &mut Pass<N>,
        id: u64,
        text: &str,
        work: &mut W,
    ) -> Result<Put, PutFault>
        ensures call { MakesCall N.pool.limits (call.Put id text.now) (reply_of_put result) pass.old pass.new }
        ensures turns { PutTurns N.pool.config N.pool.limits pass.old.number id text.now pass.old.front pass.new.front result }
    {
        let mut turns = self.locked(rt);
        let answer = self
            .pool
            .put(&mut turns, alloc, &mut pass.seat, id, text, work);
        turns.free_some(&mut pass.gone);
        answer
    }
}

impl EnginePool {
    // A put.
    pub(crate) fn put<T: Turns, W: Work>(
        &self,
        turns: &mut T,
        alloc: Global,
        pass: &mut PassSeat,
        id: u64,
        text: &str,
        work: &mut W,
    ) -> Result<Put, PutFault>
        requires at { T.made_at turns.old ≡ self.now }
        requires rests { IsResting self.now pass.old }
        ensures call { MakesCall self.now.limits (call.Put id text.now) (reply_of_put result) (view_of pass.old) (view_of pass.new) }
        ensures turns { PutTurns self.now.config self.now.limits pass.old.number id text.now pass.old.front pass.new.front result }
        ensures rests { IsResting self.now pass.new }
        ensures at { T.made_at turns.new ≡ self.now }
    {
        let _ = pass.number();
        match self.prepare(alloc, id, text) {
            Ok(prepared) => {
                let (doc, bits, room) = prepared;
                self.move_some(turns, alloc, pass, true, id, work);
                self.put_prepared(turns, pass, doc, bits, room, work)
            }
            Err(Memory) => Err(PutFault::Memory),
        }
    }

    // The document, and room for its bits and for what `Full` tells.
    fn prepare(&self, alloc: Global, id: u64, text: &str) -> Result<(Doc, Bits, Vec<Block>), Memory>
        ensures id { IfOk result (λ prepared. prepared.0.id ≡ id) }
        ensures text { IfOk result (λ prepared. prepared.0.text ≡ text.now) }
        ensures prepared { IfOk result (λ prepared. IsToBeAdded prepared.0 prepared.1) }
        ensures empty { IfOk result (λ prepared. prepared.2.items ≡ []) }
        ensures enough { IfOk result (λ prepared. self.now.limits.slices ≤ vec_capacity prepared.2) }
    {
        let doc = document(alloc, id, text)?;
        let rooms = self.rooms(alloc, &doc)?;
        let (bits, room) = rooms;
        Ok((doc, bits, room))
    }

    // The turns of a put for its own document.
    fn put_prepared<T: Turns, W: Work>(
        &self,
        turns: &mut T,
        pass: &mut PassSeat,
        doc: Doc,
        mut bits: Bits,
        room: Vec<Block>,
        work: &mut W,
    ) -> Result<Put, PutFault>
        requires at { T.made_at turns.old ≡ self.now }
        requires rests { IsResting self.now pass.old }
        requires prepared { IsToBeAdded doc bits }
        requires empty { room.items ≡ [] }
        requires enough { self.now.limits.slices ≤ vec_capacity room }
        ensures turns { OwnPutTurns self.now.config self.now.limits pass.old.number doc.id doc.text pass.old.front pass.new.front result }
        ensures legal { IsLegal self.now.limits pass.new.front }
        ensures rests { IsResting self.now pass.new }
        ensures number { pass.new.number ≡ pass.old.number }
        ensures at { T.made_at turns.new ≡ self.now }
    {
        let claimed = match self.claim(turns, pass, &doc, true, room, work) {
            Ok(claimed) => claimed,
            Err(AddFault::Full(blocks)) => return Err(PutFault::Full(blocks)),
            Err(AddFault::Spent(events)) => return Err(PutFault::Spent(events)),
            Err(AddFault::Memory) => return Err(PutFault::Memory),
            Err(AddFault::Present(_)) => unreachable!(),
        };
        let (claim, layout) = claimed;
        self.write(pass, &claim, &layout, doc.words(), &mut bits, work);
        let did = turns.put_last(self, pass, claim, doc, &bits);
        let (put, old) = did;
        drop(old);
        Ok(put)
    }
}
