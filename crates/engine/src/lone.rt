//! Turns at a desk that has one owner.
ghost use Rattle.std.specs.Prelude.{◌≡◌, ◌^◌, length};

use crate::engine_pool::EnginePool;
use crate::turns::{Turns, resolve_or_end};
use commit_desk::{
    CommitFault, DeleteFault, Desk, EndedMove, FindFault, FindLayouts, JournalFault, Look, Looks,
    NotTaken, Part, Put, Spent, Taken, TakenMove, TextRead,
};
use document_store::{Doc, Found, FreeSlots, Judge};
use funnel_model::{Block, Claim, ClearJob, Commits, Memory, Stats, Token};
use row_layout::Bits;
use slice_rule::PassSeat;
use std::alloc::Global;

/// The desk of a pool with one pass, and the look that this has open: whoever owns them makes the turns of the pass, and waits for nobody. No
/// find is open while another call is made, so no document waits to be freed: each comes back from the turn that ends its column.
#[derive(Drop)]
pub(crate) struct Lone {
    pub desk: Desk,
    pub looks: Looks,
    pub ghost limit: { desk.events_limit ≡ 2 ^ 62 },
    pub ghost pool_limit: { desk.pool.limits.events ≡ 2 ^ 62 },
    pub ghost each_pass: { length looks ≡ desk.pool.limits.passes },
    pub ghost one_pass: { desk.pool.limits.passes ≡ 1 },
}

impl Turns for Lone {
    ghost made_at = { λ lone. lone.desk.pool };

    // The pass is between two calls, so no slice is being cleared, and there is nothing to wait for.
    fn look_for_room(
        &mut self,
        pool: &EnginePool,
        pass: &mut PassSeat,
        doc: &Doc,
        replaces: bool,
        room: &mut Option<Vec<Block>>,
        awaited: Option<u32>,
        last: bool,
    ) -> Taken {
        let _ = awaited;
        let _ = pass.number();
        self.desk.take(&pool.pool, pass, doc, replaces, room, last)
    }

    fn opened_take(
        &mut self,
        pool: &EnginePool,
        pass: &mut PassSeat,
        job: ClearJob,
        slots: FreeSlots,
    ) -> Claim {
        self.desk.opened_take(&pool.pool, pass, job, slots)
    }

    fn commit(
        &mut self,
        pool: &EnginePool,
        pass: &mut PassSeat,
        claim: Claim,
        doc: Doc,
        bits: &Bits,
    ) -> Result<u64, CommitFault> {
        self.desk.commit(&pool.pool, pass, claim, doc, bits)
    }

    fn put_last(
        &mut self,
        pool: &EnginePool,
        pass: &mut PassSeat,
        claim: Claim,
        doc: Doc,
        bits: &Bits,
    ) -> (Put, Option<Doc>) {
        self.desk.put(&pool.pool, pass, claim, doc, bits)
    }

    fn look(
        &mut self,
        alloc: Global,
        pool: &EnginePool,
        pass: &mut PassSeat,
        replaces: bool,
        id: u64,
    ) -> Result<Option<Look>, Memory> {
        self.desk.look(
            alloc,
            &pool.pool,
            pass,
            &mut self.looks,
            pool.reserve,
            replaces,
            id,
        )
    }

    fn drop_look(&mut self, look: Look) -> Doc {
        self.looks.end(look)
    }

    fn take_move(
        &mut self,
        pool: &EnginePool,
        pass: &mut PassSeat,
        look: Look,
    ) -> Result<TakenMove, NotTaken> {
        self.desk.take_move(&pool.pool, pass, &mut self.looks, look)
    }

    fn end_move(
        &mut self,
        pool: &EnginePool,
        pass: &mut PassSeat,
        claim: Claim,
        look: Look,
        bits: &Bits,
    ) -> EndedMove {
        self.desk
            .end_move(&pool.pool, pass, &mut self.looks, claim, look, bits)
    }

    fn open_find(
        &mut self,
        pool: &EnginePool,
        pass: &mut PassSeat,
        query: &str,
        layouts: &mut FindLayouts,
    ) -> Result<Token, FindFault> {
        self.desk.open_find(&pool.pool, pass, query, layouts)
    }

    fn resolve_turn<J: Judge>(
        &mut self,
        pool: &EnginePool,
        pass: &mut PassSeat,
        token: Token,
        part: Part<'_, J>,
        last: bool,
        out: &mut Found,
    ) -> Option<(Token, usize)> {
        resolve_or_end(&mut self.desk, pool, pass, token, part, last, out)
    }

    fn drop_find(&mut self, pool: &EnginePool, pass: &mut PassSeat, token: Token) {
        self.desk.end_find(&pool.pool, pass, token)
    }

    fn delete(
        &mut self,
        pool: &EnginePool,
        pass: &mut PassSeat,
        id: u64,
    ) -> (Result<u64, DeleteFault>, Option<Doc>) {
        self.desk.delete(&pool.pool, pass, id)
    }

    fn look_for_text(
        &mut self,
        pool: &EnginePool,
        pass: &mut PassSeat,
        id: u64,
        room: &mut String,
    ) -> TextRead {
        self.desk.read_text(&pool.pool, pass, id, room)
    }

    fn read_place(&mut self, pool: &EnginePool, pass: &mut PassSeat) -> Result<u64, Spent> {
        self.desk.read_place(&pool.pool, pass)
    }

    fn read_journal(
        &mut self,
        alloc: Global,
        pool: &EnginePool,
        pass: &mut PassSeat,
        from: u64,
    ) -> Result<Commits, JournalFault> {
        self.desk.read_journal(alloc, &pool.pool, pass, from)
    }

    fn read_stats(&mut self, pool: &EnginePool, pass: &mut PassSeat) -> Result<Stats, Spent> {
        self.desk.read_stats(&pool.pool, pass)
    }
}
