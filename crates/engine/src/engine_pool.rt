ghost use Rattle.std.specs.Prelude.{◌≡◌, ◌<◌, ◌≤◌, ◌^◌, [], Err, IfErr, IfOk, MatchResult, None, Ok, replicate};
ghost use Rattle.funnel_model.specs.Configuration.{IsTuning};
ghost use Rattle.funnel_model.specs.declared.call.Call.TheVariants as call;
ghost use Rattle.funnel_model.specs.Sizes.{words_of_slice};
ghost use Rattle.funnel_stats.specs.Reading.{IsFaultOfBytes};
ghost use Rattle.funnel_stats.specs.Tunings.{tuning};
ghost use Rattle.row_layout.specs.declared.fault.LayoutFault.TheVariants as layout;
ghost use Rattle.slice_recycler.specs.Recycles.{AnswersRecycle};
ghost use Rattle.commit_desk.specs.Passes.{IsResting};
ghost use Rattle.engine.specs.Engines.{IsOfConfig};
ghost use Rattle.engine.specs.Passes.{MakesCall, view_of};
ghost use Rattle.engine.specs.Replies.{reply_of_delete, reply_of_journal, reply_of_place, reply_of_stats};
ghost use Rattle.engine.specs.Turns.{DeleteTurn, JournalTurn, PlaceTurn, StatsTurn};
ghost use Rattle.slice_rule.specs.Seats.{new_home_state};

use crate::reading::without_words;
use crate::turns::Turns;
use crate::work::Work;
use commit_desk::{DeleteFault, Desk, JournalFault, Looks, Named, Spent};
use funnel_model::{Commits, Config, Memory, Stats};
use funnel_stats::{ConfigFault, read_tuning};
use row_layout::{Layout, LayoutFault};
use slice_recycler::{Recycled, recycle_by};
use slice_rule::{Home, PassSeat, Pool, PoolName};
use std::alloc::Global;
use std::marker::Model;
use std::sync::{Mutex, Wait};

/// The pool of an engine, with its sizes and its configuration. It has the calls of an engine, each with the pass that makes it and with what makes
/// its turns. Contracts see the pool.
#[derive(Drop)]
pub(crate) struct EnginePool {
    pub pool: Pool,
    /// The row words of each slice.
    pub room: u32,
    pub slices: u32,
    pub reserve: u32,
    /// The configuration that it was opened with, without its listed words.
    pub base: Config,
}

impl Model for EnginePool {
    ghost use Rattle.engine.specs.Engines.{IsEnginePool};
    ghost use Rattle.slice_rule.specs.Pools.{PoolId};

    ghost Value = { PoolId };

    ghost view = { λ e. e.pool };

    ghost invariant = { λ e. IsEnginePool e.pool e.room e.slices e.reserve e.base };
}

impl EnginePool {
    // The pool of an empty engine, and its desk, with no look open.
    pub(crate) fn open(
        alloc: Global,
        config: &Config,
        pool: Pool,
        home: Home,
    ) -> Result<(EnginePool, Desk, Looks), Memory>
        requires of_config { IsOfConfig pool }
        requires made_with { pool.config ≡ config.now }
        requires new_home { home ≡ new_home_state pool }
        ensures pool { IfOk result (λ opened. opened.0 ≡ pool) }
        ensures desk { IfOk result (λ opened. opened.1 ≡ record { pool = pool; events_limit = 2 ^ 62; history = [] }) }
        ensures looks { IfOk result (λ opened. opened.2 ≡ replicate config.now.passes None) }
    {
        let layout = Layout::new(alloc, config)?;
        let range = layout.slice_range(0);
        let base = without_words(alloc, config);
        let made = Desk::new(alloc, config, home, 1 << 62, layout)?;
        let (desk, looks) = made;
        let opened = EnginePool {
            pool,
            room: range.1,
            slices: config.slices,
            reserve: config.reserve,
            base,
        };
        Ok((opened, desk, looks))
    }

    // The words that its slices share.
    pub(crate) fn shared(&self) -> &Pool
        ensures { result.now ≡ self.now }
    {
        &self.pool
    }

    // The same, to be closed.
    pub(crate) fn into_shared(self) -> Pool
        ensures { result ≡ self }
    {
        self.pool
    }

    pub(crate) fn delete<T: Turns>(
        &self,
        turns: &mut T,
        pass: &mut PassSeat,
        id: u64,
    ) -> Result<u64, DeleteFault>
        requires at { T.made_at turns.old ≡ self.now }
        requires rests { IsResting self.now pass.old }
        ensures call { MakesCall self.now.limits (call.Delete id) (reply_of_delete result) (view_of pass.old) (view_of pass.new) }
        ensures turn { DeleteTurn self.now.limits id result (view_of pass.old) (view_of pass.new) }
        ensures rests { IsResting self.now pass.new }
        ensures at { T.made_at turns.new ≡ self.now }
    {
        let did = turns.delete(self, pass, id);
        let (answer, old) = did;
        drop(old);
        answer
    }

    pub(crate) fn place<T: Turns>(&self, turns: &mut T, pass: &mut PassSeat) -> Result<u64, Spent>
        requires at { T.made_at turns.old ≡ self.now }
        requires rests { IsResting self.now pass.old }
        ensures call { MakesCall self.now.limits call.Place (reply_of_place result) (view_of pass.old) (view_of pass.new) }
        ensures turn { PlaceTurn self.now.limits result (view_of pass.old) (view_of pass.new) }
        ensures rests { IsResting self.now pass.new }
        ensures at { T.made_at turns.new ≡ self.now }
    {
        turns.read_place(self, pass)
    }

    pub(crate) fn journal<T: Turns>(
        &self,
        turns: &mut T,
        alloc: Global,
        pass: &mut PassSeat,
        from: u64,
    ) -> Result<Commits, JournalFault>
        requires at { T.made_at turns.old ≡ self.now }
        requires rests { IsResting self.now pass.old }
        ensures call { MakesCall self.now.limits (call.Journal from) (reply_of_journal result) (view_of pass.old) (view_of pass.new) }
        ensures turn { JournalTurn self.now.limits from result (view_of pass.old) (view_of pass.new) }
        ensures rests { IsResting self.now pass.new }
        ensures at { T.made_at turns.new ≡ self.now }
    {
        turns.read_journal(alloc, self, pass, from)
    }

    pub(crate) fn stats<T: Turns>(&self, turns: &mut T, pass: &mut PassSeat) -> Result<Stats, Spent>
        requires at { T.made_at turns.old ≡ self.now }
        requires rests { IsResting self.now pass.old }
        ensures call { MakesCall self.now.limits call.Stats (reply_of_stats result) (view_of pass.old) (view_of pass.new) }
        ensures turn { StatsTurn self.now.limits result (view_of pass.old) (view_of pass.new) }
        ensures rests { IsResting self.now pass.new }
        ensures at { T.made_at turns.new ≡ self.now }
    {
        turns.read_stats(self, pass)
    }

    // A recycle, by the lock of the desk.
    pub(crate) fn recycle<N: PoolName, R: Wait, W: Work>(
        &self,
        rt: &R,
        desk: &Mutex<Named<N>>,
        pass: &mut PassSeat,
        work: &mut W,
    ) -> Recycled
        requires named { self.now ≡ N.pool }
        requires rests { IsResting self.now pass.old }
        ensures { AnswersRecycle self.now pass.old pass.new result }
    {
        recycle_by(rt, &self.pool, desk, self.room, pass, work)
    }

    // The layout of the rows that slices get by a tuning, within the room that they have.
    pub(crate) fn lay_out(&self, alloc: Global, config: &Config) -> Result<Layout, LayoutFault>
        requires tuning { IsTuning self.now.config config.now }
        ensures laid { IfOk result (λ layout. layout ≡ record { config = config.now; room = self.now.limits.slice_words }) }
        ensures wide { self.now.limits.slice_words < words_of_slice config.now →
            result ≡ Err (layout.Wide (words_of_slice config.now) self.now.limits.slice_words) }
        ensures fits { words_of_slice config.now ≤ self.now.limits.slice_words → IfErr result (λ refused. refused ≡ layout.Memory) }
    {
        Layout::within(alloc, config, self.room)
    }

    // The configuration that a text gives, by the one that the engine was opened with.
    pub(crate) fn read_tuning(&self, alloc: Global, text: &str) -> Result<Config, ConfigFault>
        ensures read { MatchResult result (λ config. tuning self.now.config text.now ≡ Ok config)
            (λ fault. IsFaultOfBytes fault (tuning self.now.config text.now)) }
        ensures tunes { IfOk result (IsTuning self.now.config) }
        ensures room { self.now.limits.slice_words ≡ words_of_slice self.now.config }
    {
        read_tuning(alloc, text, &self.base)
    }
}
