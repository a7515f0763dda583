ghost use Rattle.std.specs.Prelude.{◌≡◌, ◌<◌, ◌≤◌, ℕ, List, [], length, IfOk, vec_len};
ghost use Rattle.std.specs.List.{All, AllZip};
ghost use Rattle.funnel_model.specs.Configuration.{IsValid};
ghost use Rattle.funnel_model.specs.declared.event.Event.{Event};
ghost use Rattle.shard_set.specs.Calls.{AnswersAdd, AnswersDelete, AnswersFind, AnswersQuery, AsksAdd, AsksDelete};
ghost use Rattle.shard_set.specs.Opening.{IsLeftOf, IsOpened};
ghost use Rattle.shard_set.specs.declared.parting.TheConstants.{MOST_SHARDS};
ghost use Rattle.shard_set.specs.Sets.{StandsFor};

use crate::asking::{ask_add, ask_delete, find_each, search_each};
use crate::home::Home;
use crate::merging::in_order;
use crate::opening::{close_each, open_each};
use crate::parting::{document, shard_for, word_count};
use engine::{AddFault, Closed, DeleteFault, FindFault, SearchFault, Solo};
use funnel_model::{Config, Ids, Memory};
use std::alloc::Global;
use std::collections::HashMap;
use std::marker::Model;

/// As many commits as a set takes.
const MOST_COMMITS: u64 = 1 << 62;

/// An index of several shards under one caller. Contracts see its shards, the table of its live numbers, and how many commits there were.
#[derive(Drop)]
pub struct ShardSet {
    shards: Vec<Solo>,
    homes: HashMap<u64, Home>,
    commits: u64,
    /// Room for what is left of each shard.
    left: Vec<Closed>,
}

impl Model for ShardSet {
    ghost use Rattle.std.specs.Coded.{codes};
    ghost use Rattle.std.specs.Prelude.{vec_capacity};
    ghost use Rattle.funnel_model.specs.contracts.expr.Expr as e;
    ghost use Rattle.shard_set.specs.Sets.{IsSet, SetState};

    ghost Value = { SetState };

    ghost coded = { Prim.hlevel (codes, e.the_row.coded) };

    ghost view = { λ s. record { shards = s.shards.items; homes = s.homes.entries; commits = s.commits } };

    ghost invariant = { λ s. IsSet (record { shards = s.shards.items; homes = s.homes.entries; commits = s.commits }) s.left.items (vec_capacity s.left) };
}

impl ShardSet {
    /// An empty set of shards with these configurations, of each of which the passes count as one.
    pub fn open(alloc: Global, configs: Vec<Config>) -> Result<ShardSet, Memory>
        requires some { 0 < vec_len configs }
        requires few { vec_len configs ≤ MOST_SHARDS }
        requires valid { All IsValid configs.items }
        ensures opened { IfOk result (λ set. AllZip IsOpened configs.items set.shards) }
        ensures empty { IfOk result (λ set. StandsFor set []) }
    {
        let shards = open_each(alloc, configs)?;
        let left = Vec::with_capacity(alloc, shards.len())?;
        Ok(ShardSet {
            shards,
            homes: HashMap::new(alloc),
            commits: 0,
            left,
        })
    }

    /// Adds a document, and gives the place of its add among the commits of the set.
    pub fn add(&mut self, alloc: Global, id: u64, text: &str) -> Result<u64, AddFault>
        ensures { (list : List Event) → StandsFor self.old list → AnswersAdd id text.now list self.old self.new result }
    {
        if self.commits >= MOST_COMMITS {
            return Err(AddFault::Spent(self.commits));
        }
        if let Some(home) = self.homes.get(&id) {
            return Err(AddFault::Present(home.place));
        }
        let Ok(doc) = document(alloc, id, text) else {
            return Err(AddFault::Memory);
        };
        let Ok(()) = self.homes.reserve(1) else {
            return Err(AddFault::Memory);
        };
        let shard = shard_for(self.shards.len(), word_count(&doc));
        ask_add(&mut self.shards, shard, alloc, doc)?;
        self.commits += 1;
        let place = self.commits;
        let Ok(_) = self.homes.insert(id, Home { shard, place }) else {
            unreachable!()
        };
        Ok(place)
    }

    /// Deletes the live document with this number, and gives the place of the delete. It takes no memory.
    pub fn delete(&mut self, id: u64) -> Result<u64, DeleteFault>
        ensures { (list : List Event) → StandsFor self.old list → AnswersDelete id list self.old self.new result }
    {
        if self.commits >= MOST_COMMITS {
            return Err(DeleteFault::Spent(self.commits));
        }
        let Some(home) = self.homes.get(&id) else {
            return Err(DeleteFault::Absent);
        };
        let shard = home.shard;
        ask_delete(&mut self.shards, shard, id)?;
        self.homes.remove(&id);
        self.commits += 1;
        Ok(self.commits)
    }

    /// The numbers of the live documents that have every word of the query, in the order of their adds.
    pub fn find(&mut self, alloc: Global, query: &str) -> Result<Ids, FindFault>
        ensures stands { (list : List Event) → StandsFor self.old list → StandsFor self.new list }
        ensures found { (list : List Event) → StandsFor self.old list → AnswersFind query.now list self.old self.new result }
    {
        let found = find_each(alloc, &mut self.shards, &self.homes, query)?;
        let Ok(ids) = in_order(alloc, found) else {
            return Err(FindFault::Memory);
        };
        Ok(ids)
    }

    /// The numbers of the live documents that the expression of a boolean query keeps, in the order of their adds.
    pub fn query(&mut self, alloc: Global, text: &str) -> Result<Ids, SearchFault>
        ensures stands { (list : List Event) → StandsFor self.old list → StandsFor self.new list }
        ensures found { (list : List Event) → StandsFor self.old list → AnswersQuery text.now list self.old self.new result }
    {
        let found = search_each(alloc, &mut self.shards, &self.homes, text)?;
        let Ok(ids) = in_order(alloc, found) else {
            return Err(SearchFault::Memory);
        };
        Ok(ids)
    }

    /// The number of commits so far.
    pub fn place(&self) -> u64
        ensures { result ≡ self.now.commits }
    {
        self.commits
    }

    /// Closes every shard, and gives what is left of each, by its number. It takes no memory.
    pub fn close(self) -> Vec<Closed>
        ensures { AllZip IsLeftOf self.shards result.items }
    {
        close_each(self.shards, self.left)
    }
}
