//! Adds.
ghost use Rattle.std.specs.Prelude.{◌≡◌, ◌*◌, ◌≤◌, [], IfOk, MatchResult, length, vec_capacity};
ghost use Rattle.funnel_model.specs.declared.call.Call.TheVariants as call;
ghost use Rattle.funnel_model.specs.Legal.{IsLegal};
ghost use Rattle.commit_desk.specs.Passes.{HasWritten, IsResting, IsToWrite};
ghost use Rattle.engine.specs.Adds.{AddTurns, ClaimTurns, IsToBeAdded, OwnTurns, RefusedTurn, fault_of_drop};
ghost use Rattle.engine.specs.Passes.{MakesCall, view_of};
ghost use Rattle.engine.specs.Replies.{reply_of_add};
ghost use Rattle.row_layout.specs.declared.row.TheConstants.{MOST_ROWS};

use crate::engine::Engine;
use crate::engine_pool::EnginePool;
use crate::pass::Pass;
use crate::turns::Turns;
use crate::work::{Direct, Work};
use commit_desk::{AddFault, CommitFault, SharedLayout, Taken, ToClear};
use document_store::Doc;
use funnel_model::{Block, Claim, Memory, Text, WordSet};
use row_layout::{Bits, fill_bits};
use slice_rule::{PassSeat, PoolName};
use std::alloc::Global;
use std::sync::Wait;
use word_cut::words;

impl<N: PoolName> Engine<N> {
    /// Adds a document, and gives the place of its add. It takes all its memory at first: for the words, the text, the bits,
    /// and what `Full` tells. Where there is none it makes no event. Only an owner more of the layout of its slice, which takes no memory
    /// but may be refused, comes when it first has the lock for its own document; where that is refused it makes no event there.
    ///
    /// With a `reserve` in the configuration it then waits for the lock to see whether fewer columns are left. While so, it moves
    /// documents out of the filled slice that holds the fewest, at most 16, so that the slice can be cleared, if the others have
    /// room for them. For each it waits for the lock three times: to see which one is next, to take a column for it, and to move
    /// it; and once more to see that none is. It takes memory for a copy of it and for its bits; where there is none it moves no more, and
    /// goes on.
    ///
    /// For its own document it waits for the lock twice, or three times where it clears a slice; where it is refused in the first
    /// of these turns, once; and once more each time that it waits for a slice. The documents of a slice that it clears are dropped while the lock is free. Its bits are set by the
    /// treatment of its slice.
    ///
    /// Where documents wait to be freed, for which open finds could ask, it waits for the lock once more at its end, and frees some of them.
    ///
    /// Where the engine is full but another pass is clearing a slice, it waits, without the lock, until that slice is open, and looks
    /// again: as often as there are passes, before it is refused as full.
    pub fn add<R: Wait>(
        &self,
        rt: &R,
        alloc: Global,
        pass: &mut Pass<N>,
        id: u64,
        text: &str,
    ) -> Result<u64, AddFault>
        ensures call { MakesCall N.pool.limits (call.Add id text.now) (reply_of_add result) pass.old pass.new }
        ensures turns { AddTurns N.pool.config N.pool.limits pass.old.number id text.now pass.old.front pass.new.front result }
    {
        self.add_by(rt, alloc, pass, id, text, &mut Direct)
    }

    /// An add whose column, and those of the documents that it moves, are written by `work`, and whose slice is cleared by it,
    /// while the lock is free.
    pub fn add_by<R: Wait, W: Work>(
        &self,
        rt: &R,
        alloc: Global,
        pass: &mut Pass<N>,
        id: u64,
        text: &str,
        work: &mut W,
    ) -> Result<u64, AddFault>
        ensures call { MakesCall N.pool.limits (call.Add id text.now) (reply_of_add result) pass.old pass.new }
        ensures turns { AddTurns N.pool.config N.pool.limits pass.old.number id text.now pass.old.front pass.new.front result }
    {
        let mut turns = self.locked(rt);
        let answer = self
            .pool
            .add(&mut turns, alloc, &mut pass.seat, id, text, work);
        turns.free_some(&mut pass.gone);
        answer
    }
}

impl EnginePool {
    // An add, which takes the words of its text first.
    pub(crate) fn add<T: Turns, W: Work>(
        &self,
        turns: &mut T,
        alloc: Global,
        pass: &mut PassSeat,
        id: u64,
        text: &str,
        work: &mut W,
    ) -> Result<u64, AddFault>
        requires at { T.made_at turns.old ≡ self.now }
        requires rests { IsResting self.now pass.old }
        ensures call { MakesCall self.now.limits (call.Add id text.now) (reply_of_add result) (view_of pass.old) (view_of pass.new) }
        ensures turns { AddTurns self.now.config self.now.limits pass.old.number id text.now pass.old.front pass.new.front result }
        ensures rests { IsResting self.now pass.new }
        ensures at { T.made_at turns.new ≡ self.now }
    {
        let _ = pass.number();
        match document(alloc, id, text) {
            Ok(doc) => self.add_doc(turns, alloc, pass, doc, work),
            Err(Memory) => Err(AddFault::Memory),
        }
    }

    // An add of a document whose words are taken.
    pub(crate) fn add_doc<T: Turns, W: Work>(
        &self,
        turns: &mut T,
        alloc: Global,
        pass: &mut PassSeat,
        doc: Doc,
        work: &mut W,
    ) -> Result<u64, AddFault>
        requires at { T.made_at turns.old ≡ self.now }
        requires rests { IsResting self.now pass.old }
        ensures call { MakesCall self.now.limits (call.Add doc.id doc.text) (reply_of_add result) (view_of pass.old) (view_of pass.new) }
        ensures turns { AddTurns self.now.config self.now.limits pass.old.number doc.id doc.text pass.old.front pass.new.front result }
        ensures rests { IsResting self.now pass.new }
        ensures at { T.made_at turns.new ≡ self.now }
    {
        let _ = pass.number();
        match self.rooms(alloc, &doc) {
            Ok(rooms) => {
                let (bits, room) = rooms;
                self.move_some(turns, alloc, pass, false, doc.id(), work);
                self.add_prepared(turns, pass, doc, bits, room, work)
            }
            Err(Memory) => Err(AddFault::Memory),
        }
    }

    // The turns of an add for its own document.
    fn add_prepared<T: Turns, W: Work>(
        &self,
        turns: &mut T,
        pass: &mut PassSeat,
        doc: Doc,
        mut bits: Bits,
        room: Vec<Block>,
        work: &mut W,
    ) -> Result<u64, AddFault>
        requires at { T.made_at turns.old ≡ self.now }
        requires rests { IsResting self.now pass.old }
        requires prepared { IsToBeAdded doc bits }
        requires empty { room.items ≡ [] }
        requires enough { self.now.limits.slices ≤ vec_capacity room }
        ensures turns { OwnTurns self.now.config self.now.limits pass.old.number doc.id doc.text pass.old.front pass.new.front result }
        ensures legal { IsLegal self.now.limits pass.new.front }
        ensures rests { IsResting self.now pass.new }
        ensures number { pass.new.number ≡ pass.old.number }
        ensures at { T.made_at turns.new ≡ self.now }
    {
        let claimed = self.claim(turns, pass, &doc, false, room, work)?;
        let (claim, layout) = claimed;
        self.write(pass, &claim, &layout, doc.words(), &mut bits, work);
        match turns.commit(self, pass, claim, doc, &bits) {
            Ok(place) => Ok(place),
            Err(fault) => Err(dropped(fault)),
        }
    }

    // Room for the bits of a document, and for what the answer `Full` tells.
    pub(crate) fn rooms(&self, alloc: Global, doc: &Doc) -> Result<(Bits, Vec<Block>), Memory>
        ensures prepared { IfOk result (λ rooms. IsToBeAdded doc.now rooms.0) }
        ensures empty { IfOk result (λ rooms. rooms.1.items ≡ []) }
        ensures enough { IfOk result (λ rooms. self.now.limits.slices ≤ vec_capacity rooms.1) }
    {
        let bits = Bits::for_words(alloc, doc.words())?;
        let room = Vec::with_capacity(alloc, self.slices as usize)?;
        Ok((bits, room))
    }

    // Claims a column for a document that is added, or put where it replaces, after it cleared a slice where there is need to, and gives the
    // layout of its slice.
    pub(crate) fn claim<T: Turns, W: Work>(
        &self,
        turns: &mut T,
        pass: &mut PassSeat,
        doc: &Doc,
        replaces: bool,
        room: Vec<Block>,
        work: &mut W,
    ) -> Result<(Claim, SharedLayout), AddFault>
        requires at { T.made_at turns.old ≡ self.now }
        requires rests { IsResting self.now pass.old }
        requires empty { room.items ≡ [] }
        requires enough { self.now.limits.slices ≤ vec_capacity room }
        ensures turns { MatchResult result (λ claimed. ClaimTurns self.now.limits pass.old.number replaces doc.now.id doc.now.text pass.old.front pass.new.front
            claimed.0) (λ fault. RefusedTurn self.now.limits pass.old.number replaces doc.now.id doc.now.text pass.old.front pass.new.front fault) }
        ensures next { MatchResult result (λ claimed. IsToWrite self.now claimed.0 claimed.1 pass.new) (λ _. IsResting self.now pass.new) }
        ensures legal { IsLegal self.now.limits pass.new.front }
        ensures number { pass.new.number ≡ pass.old.number }
        ensures at { T.made_at turns.new ≡ self.now }
    {
        match self.take(turns, pass, doc, replaces, room) {
            Taken::Claim(claim, layout) => Ok((claim, layout)),
            Taken::Clear(to_clear, layout) => {
                let ToClear {
                    job,
                    slots,
                    old_layout,
                } = to_clear;
                drop(old_layout);
                work.clear(&self.pool, pass, self.room, &job);
                Ok((turns.opened_take(self, pass, job, slots.empty()), layout))
            }
            Taken::Refused(fault) => Err(fault),
            Taken::Wait(_) => unreachable!(),
        }
    }

    // Fills in the bits of these words at the column that was claimed, by the layout of its slice, and sets them. There is room for
    // them.
    pub(crate) fn write<W: Work>(
        &self,
        pass: &mut PassSeat,
        claim: &Claim,
        layout: &SharedLayout,
        words: &WordSet,
        bits: &mut Bits,
        work: &mut W,
    )
        requires claimed { IsToWrite self.now claim.now layout.now pass.old }
        requires no_bits { bits.old.bits ≡ [] }
        requires room { MOST_ROWS * length words.now ≤ bits.old.room }
        ensures written { HasWritten self.now claim.now words.now bits.new.bits pass.new }
        ensures seat { pass.new ≡ record pass.old { own = pass.new.own } }
    {
        let _ = &self.pool;
        fill_bits(layout.layout(), words, claim.slice, claim.column, bits);
        work.write(&self.pool, pass, claim, bits);
    }
}

// A document of the text, with its words.
pub(crate) fn document(alloc: Global, id: u64, text: &str) -> Result<Doc, Memory>
    ensures id { IfOk result (λ doc. doc.id ≡ id) }
    ensures text { IfOk result (λ doc. doc.text ≡ text.now) }
{
    let Ok(words) = words(alloc, text) else {
        return Err(Memory);
    };
    let text = Text::new(String::from_str(alloc, text)?);
    Ok(Doc::new(id, text, words))
}

// What an add is answered whose document was dropped.
fn dropped(fault: CommitFault) -> AddFault
    ensures { result ≡ fault_of_drop fault }
{
    match fault {
        CommitFault::Present(place) => AddFault::Present(place),
    }
}
