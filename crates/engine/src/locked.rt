//! Turns at a desk that threads share.
ghost use Rattle.std.specs.Prelude.{◌≡◌, ◌<◌, [], IfSome};
ghost use Rattle.std.specs.Sync.Mutex.{mutex_guard_value};
ghost use Rattle.engine.specs.Adds.{IsOpenAgain};

use crate::engine_pool::EnginePool;
use crate::turns::{Turns, resolve_or_end};
use commit_desk::{
    CommitFault, DeleteFault, Desk, EndedMove, FindFault, FindLayouts, Gone, JournalFault, Look,
    Named, NotTaken, Part, Put, Spent, Taken, TakenMove, TextRead,
};
use document_store::{Doc, Found, FreeSlots, Judge};
use funnel_model::{Block, Claim, ClearJob, Commits, Memory, Stats, Token};
use row_layout::Bits;
use slice_rule::{PassSeat, PoolName};
use std::alloc::Global;
use std::sync::atomic::{AtomicBool, Ordering};
use std::sync::{Condvar, Mutex, MutexGuard, Wait};

/// Turns that take the lock of an engine, each for one call of its desk. A look for room may wait before, with the lock given up.
#[derive(Drop)]
pub(crate) struct Locked<'a, N: PoolName, R: Wait> {
    pub desk: &'a Mutex<Named<N>>,
    /// Told of each slice that was cleared and is open again.
    pub opened: &'a Condvar,
    /// Whether documents may wait to be freed, which the desk knows: so no call takes the lock for them where none does.
    pub to_free: &'a AtomicBool,
    pub rt: &'a R,
}

impl<'a, N: PoolName, R: Wait> Locked<'a, N, R> {
    // Takes the lock, and waits without it while the slice is being cleared, where one is named.
    fn lock_once_open(&self, awaited: Option<u32>) -> MutexGuard<'a, Named<N>>
        requires { IfSome awaited (λ slice. slice < N.pool.limits.slices) }
        ensures { IsOpenAgain (mutex_guard_value result).desk.history awaited }
    {
        let mut named = self.desk.lock(self.rt);
        let Some(slice) = awaited else {
            return named;
        };
        for _ in self.rt.forever() {
            if !named.desk.is_clearing(slice) {
                return named;
            }
            named = self.opened.wait(self.rt, named);
        }
        unreachable!()
    }

    // Tells calls after this turn that documents wait to be freed, where they do.
    fn tell_to_free(&self, desk: &Desk) {
        if desk.has_to_free() {
            self.to_free.store(true, Ordering::SeqCst);
        }
    }

    /// Drops some of the documents that wait to be freed, where there are such: a turn hands them over, and they go when the lock is free again.
    /// It makes no event.
    pub fn free_some(&self, gone: &mut Gone)
        requires { gone.old ≡ [] }
        ensures { gone.new ≡ [] }
    {
        if self.to_free.load(Ordering::SeqCst) {
            self.take_some(gone);
            gone.drop_all();
        }
    }

    // The turn in which documents are handed over that may go.
    fn take_some(&self, gone: &mut Gone)
        requires { gone.old ≡ [] }
    {
        let mut named = self.desk.lock(self.rt);
        named.desk.free_some(gone);
        if !named.desk.has_to_free() {
            self.to_free.store(false, Ordering::SeqCst);
        }
    }
}

impl<'a, N: PoolName, R: Wait> Turns for Locked<'a, N, R> {
    ghost made_at = { λ locked. N.pool };

    fn look_for_room(
        &mut self,
        pool: &EnginePool,
        pass: &mut PassSeat,
        doc: &Doc,
        replaces: bool,
        room: &mut Option<Vec<Block>>,
        awaited: Option<u32>,
        last: bool,
    ) -> Taken {
        let mut named = self.lock_once_open(awaited);
        named.desk.take(&pool.pool, pass, doc, replaces, room, last)
    }

    fn opened_take(
        &mut self,
        pool: &EnginePool,
        pass: &mut PassSeat,
        job: ClearJob,
        slots: FreeSlots,
    ) -> Claim {
        let claim = self
            .desk
            .lock(self.rt)
            .desk
            .opened_take(&pool.pool, pass, job, slots);
        self.opened.notify_all();
        claim
    }

    fn commit(
        &mut self,
        pool: &EnginePool,
        pass: &mut PassSeat,
        claim: Claim,
        doc: Doc,
        bits: &Bits,
    ) -> Result<u64, CommitFault> {
        self.desk
            .lock(self.rt)
            .desk
            .commit(&pool.pool, pass, claim, doc, bits)
    }

    fn put_last(
        &mut self,
        pool: &EnginePool,
        pass: &mut PassSeat,
        claim: Claim,
        doc: Doc,
        bits: &Bits,
    ) -> (Put, Option<Doc>) {
        self.desk
            .lock(self.rt)
            .desk
            .put(&pool.pool, pass, claim, doc, bits)
    }

    fn look(
        &mut self,
        alloc: Global,
        pool: &EnginePool,
        pass: &mut PassSeat,
        replaces: bool,
        id: u64,
    ) -> Result<Option<Look>, Memory> {
        let mut named = self.desk.lock(self.rt);
        let named = &mut *named;
        named.desk.look(
            alloc,
            &pool.pool,
            pass,
            &mut named.looks,
            pool.reserve,
            replaces,
            id,
        )
    }

    fn drop_look(&mut self, look: Look) -> Doc {
        self.desk.lock(self.rt).looks.end(look)
    }

    fn take_move(
        &mut self,
        pool: &EnginePool,
        pass: &mut PassSeat,
        look: Look,
    ) -> Result<TakenMove, NotTaken> {
        let mut named = self.desk.lock(self.rt);
        let named = &mut *named;
        named
            .desk
            .take_move(&pool.pool, pass, &mut named.looks, look)
    }

    fn end_move(
        &mut self,
        pool: &EnginePool,
        pass: &mut PassSeat,
        claim: Claim,
        look: Look,
        bits: &Bits,
    ) -> EndedMove {
        let mut named = self.desk.lock(self.rt);
        let named = &mut *named;
        named
            .desk
            .end_move(&pool.pool, pass, &mut named.looks, claim, look, bits)
    }

    fn open_find(
        &mut self,
        pool: &EnginePool,
        pass: &mut PassSeat,
        query: &str,
        layouts: &mut FindLayouts,
    ) -> Result<Token, FindFault> {
        self.desk
            .lock(self.rt)
            .desk
            .open_find(&pool.pool, pass, query, layouts)
    }

    fn resolve_turn<J: Judge>(
        &mut self,
        pool: &EnginePool,
        pass: &mut PassSeat,
        token: Token,
        part: Part<'_, J>,
        last: bool,
        out: &mut Found,
    ) -> Option<(Token, usize)> {
        let mut named = self.desk.lock(self.rt);
        let next = resolve_or_end(&mut named.desk, pool, pass, token, part, last, out);
        self.tell_to_free(&named.desk);
        next
    }

    fn drop_find(&mut self, pool: &EnginePool, pass: &mut PassSeat, token: Token) {
        let mut named = self.desk.lock(self.rt);
        named.desk.end_find(&pool.pool, pass, token);
        self.tell_to_free(&named.desk);
    }

    fn delete(
        &mut self,
        pool: &EnginePool,
        pass: &mut PassSeat,
        id: u64,
    ) -> (Result<u64, DeleteFault>, Option<Doc>) {
        self.desk.lock(self.rt).desk.delete(&pool.pool, pass, id)
    }

    fn look_for_text(
        &mut self,
        pool: &EnginePool,
        pass: &mut PassSeat,
        id: u64,
        room: &mut String,
    ) -> TextRead {
        self.desk
            .lock(self.rt)
            .desk
            .read_text(&pool.pool, pass, id, room)
    }

    fn read_place(&mut self, pool: &EnginePool, pass: &mut PassSeat) -> Result<u64, Spent> {
        self.desk.lock(self.rt).desk.read_place(&pool.pool, pass)
    }

    fn read_journal(
        &mut self,
        alloc: Global,
        pool: &EnginePool,
        pass: &mut PassSeat,
        from: u64,
    ) -> Result<Commits, JournalFault> {
        self.desk
            .lock(self.rt)
            .desk
            .read_journal(alloc, &pool.pool, pass, from)
    }

    fn read_stats(&mut self, pool: &EnginePool, pass: &mut PassSeat) -> Result<Stats, Spent> {
        self.desk.lock(self.rt).desk.read_stats(&pool.pool, pass)
    }
}
