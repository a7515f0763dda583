//! A pass of an engine as what answers a client's lines.
ghost use Rattle.std.specs.Prelude.{◌≡◌};
ghost use Rattle.funnel_model.specs.declared.call.Call.TheVariants as call;
ghost use Rattle.engine.specs.Clients.{caller_of};
ghost use Rattle.engine.specs.Replies.{reply_of_add, reply_of_count, reply_of_delete, reply_of_find, reply_of_get, reply_of_journal, reply_of_place, reply_of_put};
ghost use Rattle.engine.specs.Replies.{reply_of_query, reply_of_search_fault, reply_of_some, reply_of_stats, reply_of_tune, reply_of_tuning_fault};
ghost use Rattle.funnel_stats.specs.Tunings.{tuned};
ghost use Rattle.line_proto.specs.Forms as forms;
ghost use Rattle.line_proto.specs.Forms.{Amount, ByQuery, First, Last};
ghost use Rattle.line_proto.specs.Requests.{sought};
ghost use Rattle.line_proto.specs.Services.{AnswersCall, AnswersSearch, AnswersTuned};
ghost use Rattle.slice_recycler.specs.Recycles.{reply_of_recycle};

use crate::engine::Engine;
use crate::getting::GetFault;
use crate::pass::Pass;
use crate::putting::PutFault;
use crate::querying::{SearchFault, SomeFound};
use crate::retuning::TuneFault;
use commit_desk::{AddFault, DeleteFault, FindFault, JournalFault, Put, Spent};
use funnel_model::{Commits, Ids, Reply, Stats, Text};
use funnel_stats::ConfigFault;
use line_proto::{Request, Search, Service};
use slice_recycler::Recycled;
use slice_rule::PoolName;
use std::alloc::Global;
use std::marker::Model;
use std::sync::Wait;

/// A pass of an engine that answers requests, one after another. It is a `Service`, whose calls wait for the engine's lock
/// as the engine's own do. Contracts see the pass.
#[derive(Drop)]
pub struct Client<'a, N: PoolName, R: Wait> {
    pub engine: &'a Engine<N>,
    pub pass: Pass<N>,
    pub rt: &'a R,
    pub alloc: Global,
}

impl<'a, N: PoolName, R: Wait> Model for Client<'a, N, R> {
    ghost use Rattle.std.specs.Coded.{codes};
    ghost use Rattle.funnel_model.specs.contracts.expr.Expr as e;
    ghost use Rattle.engine.specs.Passes.{PassView};

    ghost Value = { PassView };

    ghost coded = { Prim.hlevel (codes, e.the_row.coded) };

    ghost view = { λ c. c.pass };
}

impl<'a, N: PoolName, R: Wait> Service for Client<'a, N, R> {
    ghost use Rattle.engine.specs.Clients.{caller_of};

    ghost caller = { λ pass. caller_of N.pool.config N.pool.limits pass };

    ghost front = { λ pass. pass.front };

    fn call(&mut self, request: &Request<'_>) -> Reply {
        match request {
            Request::Add { id, text } => self.add(*id, text),
            Request::Put { id, text } => self.put(*id, text),
            Request::Delete { id } => self.delete(*id),
            Request::Get { id } => self.get(*id),
            Request::Find { query } => self.find(query),
            Request::Query { text } => self.query(text),
            Request::Count { kept } => self.count(*kept),
            Request::Newest { most, kept } => self.newest(*most, *kept),
            Request::Oldest { most, kept } => self.oldest(*most, *kept),
            Request::Place => self.place(),
            Request::Journal { from } => self.journal(*from),
            Request::Stats => self.stats(),
            Request::Recycle => self.recycle(),
            Request::Tune { text } => self.tune(text),
        }
    }
}

impl<'a, N: PoolName, R: Wait> Client<'a, N, R> {
    fn add(&mut self, id: u64, text: &str) -> Reply
        ensures caller { caller_of N.pool.config N.pool.limits self.new ≡ caller_of N.pool.config N.pool.limits self.old }
        ensures answers { AnswersCall (caller_of N.pool.config N.pool.limits self.old) self.old.front self.new.front (call.Add id text.now) result }
    {
        reply_to_add(
            self.engine
                .add(self.rt, self.alloc, &mut self.pass, id, text),
        )
    }

    fn put(&mut self, id: u64, text: &str) -> Reply
        ensures caller { caller_of N.pool.config N.pool.limits self.new ≡ caller_of N.pool.config N.pool.limits self.old }
        ensures answers { AnswersCall (caller_of N.pool.config N.pool.limits self.old) self.old.front self.new.front (call.Put id text.now) result }
    {
        reply_to_put(
            self.engine
                .put(self.rt, self.alloc, &mut self.pass, id, text),
        )
    }

    fn get(&mut self, id: u64) -> Reply
        ensures caller { caller_of N.pool.config N.pool.limits self.new ≡ caller_of N.pool.config N.pool.limits self.old }
        ensures answers { AnswersCall (caller_of N.pool.config N.pool.limits self.old) self.old.front self.new.front (call.Get id) result }
    {
        reply_to_get(self.engine.get(self.rt, self.alloc, &mut self.pass, id))
    }

    fn delete(&mut self, id: u64) -> Reply
        ensures caller { caller_of N.pool.config N.pool.limits self.new ≡ caller_of N.pool.config N.pool.limits self.old }
        ensures answers { AnswersCall (caller_of N.pool.config N.pool.limits self.old) self.old.front self.new.front (call.Delete id) result }
    {
        reply_to_delete(self.engine.delete(self.rt, &mut self.pass, id))
    }

    fn find(&mut self, query: &str) -> Reply
        ensures caller { caller_of N.pool.config N.pool.limits self.new ≡ caller_of N.pool.config N.pool.limits self.old }
        ensures answers { AnswersCall (caller_of N.pool.config N.pool.limits self.old) self.old.front self.new.front (call.Find query.now) result }
    {
        reply_to_find(self.engine.find(self.rt, self.alloc, &mut self.pass, query))
    }

    // A text that is no query is refused, and no call is made.
    fn query(&mut self, text: &str) -> Reply
        ensures caller { caller_of N.pool.config N.pool.limits self.new ≡ caller_of N.pool.config N.pool.limits self.old }
        ensures answers { AnswersSearch (caller_of N.pool.config N.pool.limits self.old) self.old.front self.new.front forms.Ids (ByQuery text.now) result }
    {
        reply_to_query(self.engine.query(self.rt, self.alloc, &mut self.pass, text))
    }

    // So it is with these three.
    fn count(&mut self, kept: Search<'_>) -> Reply
        ensures caller { caller_of N.pool.config N.pool.limits self.new ≡ caller_of N.pool.config N.pool.limits self.old }
        ensures answers { AnswersSearch (caller_of N.pool.config N.pool.limits self.old) self.old.front self.new.front Amount (sought kept.entry) result }
    {
        reply_to_count(self.engine.count(self.rt, self.alloc, &mut self.pass, kept))
    }

    fn newest(&mut self, most: u64, kept: Search<'_>) -> Reply
        ensures caller { caller_of N.pool.config N.pool.limits self.new ≡ caller_of N.pool.config N.pool.limits self.old }
        ensures answers { AnswersSearch (caller_of N.pool.config N.pool.limits self.old) self.old.front self.new.front (Last most) (sought kept.entry) result }
    {
        reply_to_some(
            self.engine
                .newest(self.rt, self.alloc, &mut self.pass, most, kept),
        )
    }

    fn oldest(&mut self, most: u64, kept: Search<'_>) -> Reply
        ensures caller { caller_of N.pool.config N.pool.limits self.new ≡ caller_of N.pool.config N.pool.limits self.old }
        ensures answers { AnswersSearch (caller_of N.pool.config N.pool.limits self.old) self.old.front self.new.front (First most) (sought kept.entry) result }
    {
        reply_to_some(
            self.engine
                .oldest(self.rt, self.alloc, &mut self.pass, most, kept),
        )
    }

    fn stats(&mut self) -> Reply
        ensures caller { caller_of N.pool.config N.pool.limits self.new ≡ caller_of N.pool.config N.pool.limits self.old }
        ensures answers { AnswersCall (caller_of N.pool.config N.pool.limits self.old) self.old.front self.new.front call.Stats result }
    {
        reply_to_stats(self.engine.stats(self.rt, &mut self.pass))
    }

    fn place(&mut self) -> Reply
        ensures caller { caller_of N.pool.config N.pool.limits self.new ≡ caller_of N.pool.config N.pool.limits self.old }
        ensures answers { AnswersCall (caller_of N.pool.config N.pool.limits self.old) self.old.front self.new.front call.Place result }
    {
        reply_to_place(self.engine.place(self.rt, &mut self.pass))
    }

    fn journal(&mut self, from: u64) -> Reply
        ensures caller { caller_of N.pool.config N.pool.limits self.new ≡ caller_of N.pool.config N.pool.limits self.old }
        ensures answers { AnswersCall (caller_of N.pool.config N.pool.limits self.old) self.old.front self.new.front (call.Journal from) result }
    {
        reply_to_journal(
            self.engine
                .journal(self.rt, self.alloc, &mut self.pass, from),
        )
    }

    fn recycle(&mut self) -> Reply
        ensures caller { caller_of N.pool.config N.pool.limits self.new ≡ caller_of N.pool.config N.pool.limits self.old }
        ensures answers { AnswersCall (caller_of N.pool.config N.pool.limits self.old) self.old.front self.new.front call.Recycle result }
    {
        reply_to_recycle(self.engine.recycle(self.rt, &mut self.pass))
    }

    // A text that gives no configuration, or one whose rows have no room, is refused, and no call is made.
    fn tune(&mut self, text: &str) -> Reply
        ensures caller { caller_of N.pool.config N.pool.limits self.new ≡ caller_of N.pool.config N.pool.limits self.old }
        ensures answers { AnswersTuned (caller_of N.pool.config N.pool.limits self.old) self.old.front self.new.front
            (tuned N.pool.config text.now) result }
    {
        let _ = self.pass.number();
        match self.engine.read_tuning(self.alloc, text) {
            Ok(config) => reply_to_tune(
                self.engine
                    .retune(self.rt, self.alloc, &mut self.pass, &config),
            ),
            Err(fault) => reply_to_tuning_fault(fault),
        }
    }
}

fn reply_to_add(answer: Result<u64, AddFault>) -> Reply
    ensures { result ≡ reply_of_add answer }
{
    match answer {
        Ok(place) => Reply::Added(place),
        Err(AddFault::Present(place)) => Reply::Present(place),
        Err(AddFault::Full(_)) => Reply::Full,
        Err(AddFault::Spent(_)) => Reply::Spent,
        Err(AddFault::Memory) => Reply::Memory,
    }
}

fn reply_to_put(answer: Result<Put, PutFault>) -> Reply
    ensures { result ≡ reply_of_put answer }
{
    match answer {
        Ok(Put::Added(place)) => Reply::Added(place),
        Ok(Put::Replaced(place)) => Reply::Replaced(place),
        Err(PutFault::Full(_)) => Reply::Full,
        Err(PutFault::Spent(_)) => Reply::Spent,
        Err(PutFault::Memory) => Reply::Memory,
    }
}

fn reply_to_get(answer: Result<(u64, Text), GetFault>) -> Reply
    ensures { result ≡ reply_of_get answer }
{
    match answer {
        Ok((place, text)) => Reply::Text { place, text },
        Err(GetFault::Absent) => Reply::Absent,
        Err(GetFault::Spent(_)) => Reply::Spent,
        Err(GetFault::Memory) => Reply::Memory,
    }
}

fn reply_to_delete(answer: Result<u64, DeleteFault>) -> Reply
    ensures { result ≡ reply_of_delete answer }
{
    match answer {
        Ok(place) => Reply::Deleted(place),
        Err(DeleteFault::Absent) => Reply::Absent,
        Err(DeleteFault::Spent(_)) => Reply::Spent,
    }
}

fn reply_to_find(answer: Result<Ids, FindFault>) -> Reply
    ensures { result ≡ reply_of_find answer }
{
    match answer {
        Ok(ids) => Reply::Found(ids),
        Err(FindFault::Spent(_)) => Reply::Spent,
        Err(FindFault::Memory) => Reply::Memory,
    }
}

fn reply_to_query(answer: Result<Ids, SearchFault>) -> Reply
    ensures { result ≡ reply_of_query answer }
{
    match answer {
        Ok(ids) => Reply::Found(ids),
        Err(fault) => reply_to_search_fault(fault),
    }
}

fn reply_to_count(answer: Result<u64, SearchFault>) -> Reply
    ensures { result ≡ reply_of_count answer }
{
    match answer {
        Ok(count) => Reply::Count(count),
        Err(fault) => reply_to_search_fault(fault),
    }
}

fn reply_to_some(answer: Result<SomeFound, SearchFault>) -> Reply
    ensures { result ≡ reply_of_some answer }
{
    match answer {
        Ok(SomeFound { count, ids }) => Reply::FoundSome { count, ids },
        Err(fault) => reply_to_search_fault(fault),
    }
}

fn reply_to_search_fault(fault: SearchFault) -> Reply
    ensures { result ≡ reply_of_search_fault fault }
{
    match fault {
        SearchFault::Syntax(at) => Reply::Query(at),
        SearchFault::Deep(at) => Reply::Deep(at),
        SearchFault::Spent(_) => Reply::Spent,
        SearchFault::Memory => Reply::Memory,
    }
}

fn reply_to_stats(answer: Result<Stats, Spent>) -> Reply
    ensures { result ≡ reply_of_stats answer }
{
    match answer {
        Ok(stats) => Reply::Stats(stats),
        Err(_) => Reply::Spent,
    }
}

fn reply_to_place(answer: Result<u64, Spent>) -> Reply
    ensures { result ≡ reply_of_place answer }
{
    match answer {
        Ok(place) => Reply::Place(place),
        Err(_) => Reply::Spent,
    }
}

fn reply_to_journal(answer: Result<Commits, JournalFault>) -> Reply
    ensures { result ≡ reply_of_journal answer }
{
    match answer {
        Ok(commits) => Reply::Commits(commits),
        Err(JournalFault::Trimmed(base)) => Reply::Trimmed(base),
        Err(JournalFault::Spent(_)) => Reply::Spent,
        Err(JournalFault::Memory) => Reply::Memory,
    }
}

fn reply_to_recycle(answer: Recycled) -> Reply
    ensures { result ≡ reply_of_recycle answer }
{
    match answer {
        Recycled::Done(slice) => Reply::Recycled(slice),
        Recycled::NoneRetired => Reply::NothingRetired,
        Recycled::Guarded { slice, pass, .. } => Reply::Guarded { slice, pass },
        Recycled::Spent(_) => Reply::Spent,
    }
}

fn reply_to_tune(answer: Result<u64, TuneFault>) -> Reply
    ensures { result ≡ reply_of_tune answer }
{
    match answer {
        Ok(count) => Reply::Tuned(count),
        Err(TuneFault::Wide { needed, room }) => Reply::Wide { needed, room },
        Err(TuneFault::Spent(_)) => Reply::Spent,
        Err(TuneFault::Memory) => Reply::Memory,
    }
}

fn reply_to_tuning_fault(fault: ConfigFault) -> Reply
    ensures { result ≡ reply_of_tuning_fault fault }
{
    match fault {
        ConfigFault::Memory => Reply::Memory,
        _ => Reply::Tuning(fault.number()),
    }
}
