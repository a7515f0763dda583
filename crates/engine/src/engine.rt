ghost use Rattle.std.specs.Prelude.{◌≡◌, length, map, All, IfOk};
ghost use Rattle.std.specs.List.{range_with_len};
ghost use mathlib.Core.List.{IsPrefix};
ghost use Rattle.funnel_model.specs.declared.call.Call.TheVariants as call;
ghost use Rattle.funnel_model.specs.History.{IsFrontOf, MovesAreCaused, base, commits_after};
ghost use Rattle.funnel_model.specs.Legal.{IsLegal};
ghost use Rattle.engine.specs.Engines.{EndsIn, HasItsCalls};
ghost use Rattle.engine.specs.Passes.{MakesCall, MakesNoCall, new_pass};
ghost use Rattle.engine.specs.Replies.{reply_of_delete, reply_of_journal, reply_of_place};
ghost use Rattle.engine.specs.Turns.{DeleteTurn, JournalTurn, PlaceTurn};
ghost use Rattle.row_layout.specs.Sound.{IsSound};
ghost use Rattle.slice_recycler.specs.Recycles.{RecycleTurns, reply_of_recycle};

use crate::blank::Blank;
use crate::closed::Closed;
use crate::engine_pool::EnginePool;
use crate::locked::Locked;
use crate::pass::{Note, Pass, end_passes, name_passes};
use crate::work::{Direct, Work};
use commit_desk::{DeleteFault, JournalFault, Named, Spent};
use funnel_model::{Commits, Config, Memory};
use slice_recycler::Recycled;
use slice_rule::PoolName;
use std::alloc::Global;
use std::marker::{Model, PhantomData};
use std::sync::atomic::AtomicBool;
use std::sync::{Condvar, Mutex, Wait};

/// An index that threads share: the one over the pool that `N` names. Contracts see this pool, by its sizes and its configuration.
#[derive(Drop)]
pub struct Engine<N: PoolName> {
    pub(crate) pool: EnginePool,
    pub(crate) desk: Mutex<Named<N>>,
    /// Told of each slice that was cleared and is open again. An add waits for it with the desk's lock given up.
    pub(crate) opened: Condvar,
    /// Whether documents may wait to be freed.
    pub(crate) to_free: AtomicBool,
}

impl<N: PoolName> Model for Engine<N> {
    ghost use Rattle.std.specs.Prelude.{◌≡◌};
    ghost use Rattle.slice_rule.specs.Pools.{PoolId};

    ghost Value = { PoolId };

    ghost view = { λ e. e.pool };

    ghost invariant = { λ e. e.pool ≡ N.pool };
}

impl<N: PoolName> Engine<N> {
    /// An empty index over the words of the blank, and its passes by their numbers. It takes the memory of the index but for
    /// the words, which the blank has, and for the documents. Where there is none the blank is gone. It waits for nobody.
    pub fn open(
        alloc: Global,
        config: &Config,
        blank: Blank,
    ) -> Result<(Engine<N>, Vec<Pass<N>>), Memory>
        requires made_with { blank.config ≡ config.now }
        requires named { blank ≡ N.pool }
        ensures engine { IfOk result (λ opened. opened.0 ≡ blank) }
        ensures passes { IfOk result (λ opened. opened.1.items ≡ map new_pass (range_with_len 0 config.now.passes)) }
    {
        let Blank { pool, home, passes } = blank;
        let opened = EnginePool::open(alloc, config, pool, home)?;
        let (pool, desk, looks) = opened;
        let passes = name_passes(alloc, passes, config.slices)?;
        let of = PhantomData;
        let engine = Engine {
            pool,
            desk: Mutex::new(Named { desk, looks, of }),
            opened: Condvar::new(),
            to_free: AtomicBool::new(false),
        };
        Ok((engine, passes))
    }

    /// Deletes the live document with this number, and gives the place of the delete. It waits for the lock once, and takes
    /// no memory. Unless an open find may ask for the document, it is dropped when the lock is free again. Where documents wait to be freed,
    /// for which open finds could ask, it waits for the lock once more, and frees some of them.
    pub fn delete<R: Wait>(&self, rt: &R, pass: &mut Pass<N>, id: u64) -> Result<u64, DeleteFault>
        ensures call { MakesCall N.pool.limits (call.Delete id) (reply_of_delete result) pass.old pass.new }
        ensures turn { DeleteTurn N.pool.limits id result pass.old pass.new }
    {
        let mut turns = self.locked(rt);
        let answer = self.pool.delete(&mut turns, &mut pass.seat, id);
        turns.free_some(&mut pass.gone);
        answer
    }

    /// The number of commits so far. It is refused where the engine is spent alone. It waits for the lock once, and takes no
    /// memory.
    pub fn place<R: Wait>(&self, rt: &R, pass: &mut Pass<N>) -> Result<u64, Spent>
        ensures call { MakesCall N.pool.limits call.Place (reply_of_place result) pass.old pass.new }
        ensures turn { PlaceTurn N.pool.limits result pass.old pass.new }
    {
        let mut turns = self.locked(rt);
        self.pool.place(&mut turns, &mut pass.seat)
    }

    /// The commits after the first so many, in order, or how many are no longer kept where one of these is asked for. It takes
    /// memory for the commits while it holds the lock, for which it waits once; where there is none it makes no event. Where
    /// the engine is spent, or the commits are no longer kept, it takes none.
    pub fn journal<R: Wait>(
        &self,
        rt: &R,
        alloc: Global,
        pass: &mut Pass<N>,
        from: u64,
    ) -> Result<Commits, JournalFault>
        ensures call { MakesCall N.pool.limits (call.Journal from) (reply_of_journal result) pass.old pass.new }
        ensures turn { JournalTurn N.pool.limits from result pass.old pass.new }
    {
        let mut turns = self.locked(rt);
        self.pool.journal(&mut turns, alloc, &mut pass.seat, from)
    }

    /// Clears the lowest slice that is retired and that no running find guards, and makes it ready for new documents. It
    /// waits for the lock, and takes no memory.
    pub fn recycle<R: Wait>(&self, rt: &R, pass: &mut Pass<N>) -> Recycled
        ensures call { MakesCall N.pool.limits call.Recycle (reply_of_recycle result) pass.old pass.new }
        ensures turns { RecycleTurns N.pool.limits pass.old.number pass.old.front pass.new.front result }
    {
        self.recycle_by(rt, pass, &mut Direct)
    }

    /// A recycle whose slice is cleared by `work`, while the lock is free.
    pub fn recycle_by<R: Wait, W: Work>(&self, rt: &R, pass: &mut Pass<N>, work: &mut W) -> Recycled
        ensures call { MakesCall N.pool.limits call.Recycle (reply_of_recycle result) pass.old pass.new }
        ensures turns { RecycleTurns N.pool.limits pass.old.number pass.old.front pass.new.front result }
    {
        let recycled = self.pool.recycle(rt, &self.desk, &mut pass.seat, work);
        self.opened.notify_all();
        recycled
    }

    /// What the pass has seen, for another pass to meet. It waits for nobody, and takes no memory.
    pub fn note(&self, pass: &mut Pass<N>) -> Note<N>
        ensures pass { pass.new ≡ pass.old }
        ensures front { result ≡ pass.old.front }
    {
        Note {
            note: self.pool.shared().split_pass(&mut pass.seat),
            of: PhantomData,
        }
    }

    /// The pass sees what the note has seen. It waits for nobody, and takes no memory.
    pub fn meet(&self, pass: &mut Pass<N>, note: Note<N>)
        ensures seen { IsFrontOf pass.old.number pass.old.front pass.new.front }
        ensures met { IsPrefix note pass.new.front }
        ensures pass { MakesNoCall N.pool.limits pass.old pass.new }
    {
        let Note { note, of: _ } = note;
        self.pool.shared().join(&mut pass.seat, note)
    }

    /// Ends the engine, to which its passes come back: of each that does, the history has its calls, each once. It waits for nobody, and
    /// takes no memory.
    pub fn close(self, passes: Vec<Pass<N>>) -> Closed
        ensures legal { IsLegal N.pool.limits result.history }
        ensures sound { IsSound N.pool.config result.history }
        ensures caused { MovesAreCaused result.history }
        ensures passes { All (EndsIn result.history) passes.items }
        ensures calls { All (HasItsCalls result.history) passes.items }
        ensures base { result.base ≡ base N.pool.limits.commits result.history }
        ensures commits { result.commits ≡ commits_after result.history (base N.pool.limits.commits result.history) }
        ensures events { result.events ≡ length result.history }
    {
        let Engine {
            pool,
            desk,
            opened: _,
            to_free: _,
        } = self;
        let pool = pool.into_shared();
        let Named {
            desk,
            looks: _,
            of: _,
        } = desk.into_inner();
        let (mut home, base, commits) = desk.into_parts();
        end_passes(&pool, &mut home, passes);
        let ended = pool.close(home);
        Closed {
            base,
            commits,
            events: ended.events,
            ended,
        }
    }

    // The turns of a call that take the engine's lock.
    pub(crate) fn locked<'a, R: Wait>(&'a self, rt: &'a R) -> Locked<'a, N, R> {
        Locked {
            desk: &self.desk,
            opened: &self.opened,
            to_free: &self.to_free,
            rt,
        }
    }
}
