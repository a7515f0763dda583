ghost use Rattle.std.specs.Prelude.{◌≡◌, ◌+◌, ◌*◌, ◌≤◌, ◌^◌, [], IfOk, IsTrue, None, ◌↔◌, length, replicate};
ghost use Rattle.funnel_model.specs.Configuration.{IsInRange};
ghost use Rattle.funnel_model.specs.History.{MovesAreCaused, base, commits_after, live_place};
ghost use Rattle.funnel_model.specs.Legal.{IsLegal};
ghost use Rattle.funnel_model.specs.Sizes.{words_of_slice};
ghost use Rattle.row_layout.specs.Layouts.{own_layout};
ghost use Rattle.row_layout.specs.Sound.{IsSound};
ghost use Rattle.slice_rule.specs.Pools.{limits_of};
ghost use Rattle.commit_desk.specs.Answers.{in_the_way};

use crate::journal::Journal;
use crate::look::Looks;
use crate::slice_layouts::SliceLayouts;
use document_store::{Column, Leaving, LiveList, Records};
use funnel_model::{Commits, Config, Memory};
use row_layout::Layout;
use slice_rule::Home;
use slice_stages::Stages;
use std::alloc::Global;
use std::marker::Model;
use token_manager::Tokens;

/// The one place where events are made: the pool's home, and what answers calls by the history that it stands for.
/// Contracts see the pool, the limit of events and the history.
#[derive(Drop)]
pub struct Desk {
    pub(crate) home: Home,
    pub(crate) events_limit: u64,
    pub(crate) slices: u32,
    pub(crate) columns: u32,
    pub(crate) events: u64,
    pub(crate) journal: Journal,
    pub(crate) records: Records,
    pub(crate) live: LiveList,
    pub(crate) tokens: Tokens,
    pub(crate) stages: Stages,
    pub(crate) layouts: SliceLayouts,
    // Which columns that are over have their documents still.
    pub(crate) leaving: Leaving,
}

impl Model for Desk {
    ghost use Rattle.std.specs.Coded.{codes};
    ghost use Rattle.funnel_model.specs.contracts.expr.Expr as e;
    ghost use Rattle.commit_desk.specs.Desks.{DeskState};
    ghost use Rattle.commit_desk.specs.Leaving.{IsKeepingDesk};

    ghost Value = { DeskState };

    ghost coded = { Prim.hlevel (codes, e.the_row.coded) };

    ghost view = { λ d. record { pool = d.home.pool; events_limit = d.events_limit; history = d.home.history } };

    ghost invariant = { λ d. IsKeepingDesk d.home.pool d.events_limit d.home.history (record {
      slices = d.slices;
      columns = d.columns;
      events = d.events;
      journal = d.journal;
      table = d.records;
      live = d.live;
      tokens = d.tokens;
      stages = d.stages;
      layouts = d.layouts;
    }) d.leaving };
}

impl Desk {
    ghost use Rattle.commit_desk.specs.Desks.{DeskState};

    /// An empty desk of the pool whose home it is given, each of whose slices has this layout, that of the configuration, and the looks of
    /// its passes, of which none is open. There are no other looks, so none ends elsewhere. From so many events on the desk takes no call. It
    /// takes all memory that it ever needs, but for that of a journal's answer, of a look, and of the layouts of a find.
    pub fn new(
        alloc: Global,
        config: &Config,
        home: Home,
        events_limit: u64,
        layout: Layout,
    ) -> Result<(Desk, Looks), Memory>
        requires config { IsInRange config.now }
        requires made_with { home.pool.config ≡ config.now }
        requires sizes { home.pool.limits ≡ limits_of config.now (words_of_slice config.now) }
        requires empty { home.history ≡ [] }
        requires some { 1 ≤ events_limit }
        requires bounded { events_limit ≤ 2 ^ 62 }
        requires laid { layout ≡ own_layout config.now }
        ensures desk { IfOk result (λ made. made.0 ≡ record { pool = home.pool; events_limit = events_limit; history = [] }) }
        ensures looks { IfOk result (λ made. made.1 ≡ replicate config.now.passes None) }
    {
        let columns = 64 * (1 << config.max_rank as u32) * config.blocks;
        let desk = Desk {
            home,
            events_limit,
            slices: config.slices,
            columns,
            events: 0,
            journal: Journal::new(alloc, config.commits)?,
            records: Records::new(alloc, config.slices, columns)?,
            live: LiveList::new(alloc, config.slices, columns)?,
            tokens: Tokens::new(alloc, config.passes)?,
            stages: Stages::new(alloc, config.slices, columns)?,
            layouts: SliceLayouts::new(alloc, layout, config.slices)?,
            leaving: Leaving::new(alloc, config.passes, config.slices * columns)?,
        };
        let looks = Looks::new(alloc, config.passes)?;
        Ok((desk, looks))
    }

    /// The home, which has the whole history, how many of the history's commits come before those that the journal keeps, and these.
    /// After the limit of events each pass made three at most, with which it ended the call that it was in.
    pub fn into_parts(self) -> (Home, u64, Commits)
        ensures pool { result.0.pool ≡ self.pool }
        ensures history { result.0.history ≡ self.history }
        ensures base { result.1 ≡ base self.pool.limits.commits self.history }
        ensures commits { result.2 ≡ commits_after self.history (base self.pool.limits.commits self.history) }
        ensures legal { IsLegal self.pool.limits self.history }
        ensures sound { IsSound self.pool.config self.history }
        ensures caused { MovesAreCaused self.history }
        ensures few { length self.history ≤ self.events_limit + 3 * self.pool.limits.passes }
    {
        let Desk { home, journal, .. } = self;
        let (base, commits) = journal.into_parts();
        (home, base, commits)
    }

    // Whether calls are taken no more.
    pub(crate) fn is_spent(&self) -> bool
        ensures spent { IsTrue result ↔ (self.now.events_limit ≤ length self.now.history) }
    {
        let _ = &self.home;
        self.events_limit <= self.events
    }

    // The place of the live document that keeps one with this number out. What replaces it isn't kept out.
    pub(crate) fn in_the_way(&self, replaces: bool, id: u64) -> Option<u64>
        ensures { result ≡ in_the_way replaces id self.now.history }
    {
        if replaces {
            return None;
        }
        self.place_of(id)
    }

    // The place of the add of the live document with this number.
    pub(crate) fn place_of(&self, id: u64) -> Option<u64>
        ensures { result ≡ live_place id self.now.history }
    {
        let _ = &self.home;
        let (slice, column) = self.live.get(id)?;
        match self.records.state(slice, column) {
            Column::Live { place, .. } => Some(place),
            _ => None,
        }
    }
}
