//! An engine of one owner.
ghost use Rattle.std.specs.Prelude.{◌≡◌, [], IfOk, length};
ghost use Rattle.funnel_model.specs.Configuration.{IsValid};
ghost use Rattle.funnel_model.specs.declared.call.Call.TheVariants as call;
ghost use Rattle.funnel_model.specs.declared.reply.Reply.TheVariants as reply;
ghost use Rattle.funnel_model.specs.History.{MovesAreCaused, base, commits_after};
ghost use Rattle.funnel_model.specs.Legal.{IsLegal};
ghost use Rattle.funnel_model.specs.Sizes.{words_of_slice};
ghost use Rattle.engine.specs.Adds.{AddTurns};
ghost use Rattle.engine.specs.Finds.{FindTurns};
ghost use Rattle.engine.specs.Gets.{GetTurn};
ghost use Rattle.engine.specs.Passes.{MakesCall};
ghost use Rattle.engine.specs.Puts.{PutTurns};
ghost use Rattle.engine.specs.Replies.{reply_of_add, reply_of_delete, reply_of_find, reply_of_get, reply_of_journal, reply_of_place, reply_of_put, reply_of_stats};
ghost use Rattle.engine.specs.Searches.{MakesQuery, MakesTold, QueryTurns, ToldTurns, first_of, last_of, reply_to_some};
ghost use Rattle.engine.specs.Solos.{sole_pass, with_one_pass};
ghost use Rattle.engine.specs.Turns.{DeleteTurn, JournalTurn, PlaceTurn, StatsTurn};
ghost use Rattle.line_proto.specs.Forms.{Amount, First, Last};
ghost use Rattle.line_proto.specs.Requests.{sought};
ghost use Rattle.row_layout.specs.Sound.{IsSound};
ghost use Rattle.slice_rule.specs.Pools.{limits_of};

use crate::blank::Blank;
use crate::closed::Closed;
use crate::engine_pool::EnginePool;
use crate::getting::GetFault;
use crate::lone::Lone;
use crate::putting::PutFault;
use crate::querying::{SearchFault, SomeFound};
use crate::work::Direct;
use commit_desk::{AddFault, DeleteFault, FindFault, FindLayouts, JournalFault, Put, Spent};
use document_store::Doc;
use funnel_model::{Commits, Config, Ids, Memory, Stats, Text};
use line_proto::Search as Sought;
use slice_rule::PassSeat;
use std::alloc::Global;
use std::marker::Model;

/// An index that its owner alone uses: it has one pass, makes the calls of an engine without a lock, and waits for nobody. It may go to
/// another thread. Contracts see its pool, by its sizes and its configuration, and its history, all of which it has seen.
///
/// A full one stays full until a document is deleted: no find of another pass guards a slice, and none clears one. It isn't tuned, and not
/// recycled: an add or a put clears the slice that it needs.
#[derive(Drop)]
pub struct Solo {
    pool: EnginePool,
    lone: Lone,
    seat: PassSeat,
    /// Where its finds keep the layouts of their slices, with room for an entry for each.
    layouts: FindLayouts,
}

impl Model for Solo {
    ghost use Rattle.std.specs.Coded.{codes};
    ghost use Rattle.funnel_model.specs.contracts.expr.Expr as e;
    ghost use Rattle.engine.specs.Solos.{IsSolo, SoloState};

    ghost Value = { SoloState };

    ghost coded = { Prim.hlevel (codes, e.the_row.coded) };

    ghost view = { λ s. record { pool = s.pool; history = s.seat.front } };

    ghost invariant = { λ s. IsSolo s.pool s.lone.desk.pool s.seat s.layouts };
}

impl Solo {
    /// An empty index with a configuration as `parse_config` gives it, of which the passes count as one. It takes the memory of the index,
    /// but for the documents, and for a moment that of its words once more.
    pub fn open(alloc: Global, config: Config) -> Result<Solo, Memory>
        requires valid { IsValid config }
        ensures config { IfOk result (λ solo. solo.pool.config ≡ with_one_pass config) }
        ensures limits { IfOk result (λ solo. solo.pool.limits ≡ limits_of (with_one_pass config) (words_of_slice config)) }
        ensures empty { IfOk result (λ solo. solo.history ≡ []) }
    {
        let config = one_pass(config);
        let blank = Blank::new(alloc, &config)?;
        let Blank {
            pool,
            home,
            mut passes,
        } = blank;
        let Some(seat) = passes.pop() else {
            unreachable!()
        };
        let opened = EnginePool::open(alloc, &config, pool, home)?;
        let (pool, desk, looks) = opened;
        let layouts = FindLayouts::with_room(alloc, config.slices as usize)?;
        Ok(Solo {
            pool,
            lone: Lone { desk, looks },
            seat,
            layouts,
        })
    }

    /// Adds a document, and gives the place of its add. It takes memory as an engine's add does, and moves as many documents first where
    /// few columns are left.
    pub fn add(&mut self, alloc: Global, id: u64, text: &str) -> Result<u64, AddFault>
        ensures call { MakesCall self.old.pool.limits (call.Add id text.now) (reply_of_add result) (sole_pass self.old) (sole_pass self.new) }
        ensures turns { AddTurns self.old.pool.config self.old.pool.limits 0 id text.now self.old.history self.new.history result }
        ensures pool { self.new.pool ≡ self.old.pool }
    {
        self.pool.add(&mut self.lone, alloc, &mut self.seat, id, text, &mut Direct)
    }

    /// The same of a document whose words are taken already. Where it is refused the document is gone.
    pub fn add_doc(&mut self, alloc: Global, doc: Doc) -> Result<u64, AddFault>
        ensures call { MakesCall self.old.pool.limits (call.Add doc.id doc.text) (reply_of_add result) (sole_pass self.old) (sole_pass self.new) }
        ensures turns { AddTurns self.old.pool.config self.old.pool.limits 0 doc.id doc.text self.old.history self.new.history result }
        ensures pool { self.new.pool ≡ self.old.pool }
    {
        self.pool
            .add_doc(&mut self.lone, alloc, &mut self.seat, doc, &mut Direct)
    }

    /// Adds a document, in the place of the live one with its number where there is one, and gives the place of the add.
    pub fn put(&mut self, alloc: Global, id: u64, text: &str) -> Result<Put, PutFault>
        ensures call { MakesCall self.old.pool.limits (call.Put id text.now) (reply_of_put result) (sole_pass self.old) (sole_pass self.new) }
        ensures turns { PutTurns self.old.pool.config self.old.pool.limits 0 id text.now self.old.history self.new.history result }
        ensures pool { self.new.pool ≡ self.old.pool }
    {
        self.pool.put(&mut self.lone, alloc, &mut self.seat, id, text, &mut Direct)
    }

    /// The place and the text of the live document with this number. It takes memory for a copy of the text.
    pub fn get(&mut self, alloc: Global, id: u64) -> Result<(u64, Text), GetFault>
        ensures call { MakesCall self.old.pool.limits (call.Get id) (reply_of_get result) (sole_pass self.old) (sole_pass self.new) }
        ensures turn { GetTurn self.old.pool.limits 0 id self.old.history self.new.history result }
        ensures pool { self.new.pool ≡ self.old.pool }
    {
        self.pool.get(&mut self.lone, alloc, &mut self.seat, id)
    }

    /// Deletes the live document with this number, and gives the place of the delete. It takes no memory.
    pub fn delete(&mut self, id: u64) -> Result<u64, DeleteFault>
        ensures call { MakesCall self.old.pool.limits (call.Delete id) (reply_of_delete result) (sole_pass self.old) (sole_pass self.new) }
        ensures turn { DeleteTurn self.old.pool.limits id result (sole_pass self.old) (sole_pass self.new) }
        ensures pool { self.new.pool ≡ self.old.pool }
    {
        self.pool.delete(&mut self.lone, &mut self.seat, id)
    }

    /// The numbers of the live documents that have every word of the query, in the order of their adds. It takes memory for its words, its
    /// candidates and its answer.
    pub fn find(&mut self, alloc: Global, query: &str) -> Result<Ids, FindFault>
        ensures call { MakesCall self.old.pool.limits (call.Find query.now) (reply_of_find result) (sole_pass self.old) (sole_pass self.new) }
        ensures turns { FindTurns self.old.pool.limits 0 query.now self.old.history self.new.history result }
        ensures pool { self.new.pool ≡ self.old.pool }
    {
        self.pool.find(
            &mut self.lone,
            alloc,
            &mut self.seat,
            &mut self.layouts,
            query,
            &mut Direct,
        )
    }

    /// The numbers of the live documents that the expression of a boolean query keeps, in the order of their adds.
    pub fn query(&mut self, alloc: Global, text: &str) -> Result<Ids, SearchFault>
        ensures call { MakesQuery self.old.pool.limits text.now result (sole_pass self.old) (sole_pass self.new) }
        ensures turns { QueryTurns self.old.pool.limits 0 text.now self.old.history self.new.history result }
        ensures pool { self.new.pool ≡ self.old.pool }
    {
        self.pool.query(
            &mut self.lone,
            alloc,
            &mut self.seat,
            &mut self.layouts,
            text,
            &mut Direct,
        )
    }

    /// How many live documents a search keeps.
    pub fn count(&mut self, alloc: Global, kept: Sought<'_>) -> Result<u64, SearchFault>
        ensures call { MakesTold Amount reply.Count self.old.pool.limits (sought kept.entry) result (sole_pass self.old) (sole_pass self.new) }
        ensures turns { ToldTurns length self.old.pool.limits 0 (sought kept.entry) self.old.history self.new.history result }
        ensures pool { self.new.pool ≡ self.old.pool }
    {
        self.pool.count(
            &mut self.lone,
            alloc,
            &mut self.seat,
            &mut self.layouts,
            kept,
        )
    }

    /// How many live documents a search keeps, and the numbers of at most so many of them, of those that were added last, the newest first.
    pub fn newest(
        &mut self,
        alloc: Global,
        most: u64,
        kept: Sought<'_>,
    ) -> Result<SomeFound, SearchFault>
        ensures call { MakesTold (Last most) reply_to_some self.old.pool.limits (sought kept.entry) result (sole_pass self.old) (sole_pass self.new) }
        ensures turns { ToldTurns (last_of most) self.old.pool.limits 0 (sought kept.entry) self.old.history self.new.history result }
        ensures pool { self.new.pool ≡ self.old.pool }
    {
        self.pool.newest(
            &mut self.lone,
            alloc,
            &mut self.seat,
            &mut self.layouts,
            most,
            kept,
        )
    }

    /// How many live documents a search keeps, and the numbers of at most so many of them, of those that were added first, the oldest first.
    pub fn oldest(
        &mut self,
        alloc: Global,
        most: u64,
        kept: Sought<'_>,
    ) -> Result<SomeFound, SearchFault>
        ensures call { MakesTold (First most) reply_to_some self.old.pool.limits (sought kept.entry) result (sole_pass self.old) (sole_pass self.new) }
        ensures turns { ToldTurns (first_of most) self.old.pool.limits 0 (sought kept.entry) self.old.history self.new.history result }
        ensures pool { self.new.pool ≡ self.old.pool }
    {
        self.pool.oldest(
            &mut self.lone,
            alloc,
            &mut self.seat,
            &mut self.layouts,
            most,
            kept,
        )
    }

    /// How full it is. It takes no memory.
    pub fn stats(&mut self) -> Result<Stats, Spent>
        ensures call { MakesCall self.old.pool.limits call.Stats (reply_of_stats result) (sole_pass self.old) (sole_pass self.new) }
        ensures turn { StatsTurn self.old.pool.limits result (sole_pass self.old) (sole_pass self.new) }
        ensures pool { self.new.pool ≡ self.old.pool }
    {
        self.pool.stats(&mut self.lone, &mut self.seat)
    }

    /// The number of commits so far. It takes no memory.
    pub fn place(&mut self) -> Result<u64, Spent>
        ensures call { MakesCall self.old.pool.limits call.Place (reply_of_place result) (sole_pass self.old) (sole_pass self.new) }
        ensures turn { PlaceTurn self.old.pool.limits result (sole_pass self.old) (sole_pass self.new) }
        ensures pool { self.new.pool ≡ self.old.pool }
    {
        self.pool.place(&mut self.lone, &mut self.seat)
    }

    /// The commits after the first so many, in order, or how many are no longer kept where one of these is asked for.
    pub fn journal(&mut self, alloc: Global, from: u64) -> Result<Commits, JournalFault>
        ensures call { MakesCall self.old.pool.limits (call.Journal from) (reply_of_journal result) (sole_pass self.old) (sole_pass self.new) }
        ensures turn { JournalTurn self.old.pool.limits from result (sole_pass self.old) (sole_pass self.new) }
        ensures pool { self.new.pool ≡ self.old.pool }
    {
        self.pool
            .journal(&mut self.lone, alloc, &mut self.seat, from)
    }

    /// Ends it, with its history. It takes no memory.
    pub fn close(self) -> Closed
        ensures history { result.history ≡ self.history }
        ensures legal { IsLegal self.pool.limits result.history }
        ensures sound { IsSound self.pool.config result.history }
        ensures caused { MovesAreCaused result.history }
        ensures base { result.base ≡ base self.pool.limits.commits result.history }
        ensures commits { result.commits ≡ commits_after result.history (base self.pool.limits.commits result.history) }
        ensures events { result.events ≡ length result.history }
    {
        let Solo {
            pool,
            lone,
            seat,
            ..
        } = self;
        let pool = pool.into_shared();
        let Lone { desk, looks: _ } = lone;
        let (mut home, base, commits) = desk.into_parts();
        pool.end_pass(&mut home, seat);
        let ended = pool.close(home);
        Closed {
            base,
            commits,
            events: ended.events,
            ended,
        }
    }
}

// The configuration, but that it has one pass.
fn one_pass(mut config: Config) -> Config
    ensures { result ≡ with_one_pass config }
{
    config.passes = 1;
    config
}
