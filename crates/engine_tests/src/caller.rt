//! A pass with its calls.
use engine::{
    AddFault, DeleteFault, Engine, FindFault, JournalFault, OpenFind, Pass, PoolName, Recycled,
    SearchFault, Spent, Work,
};
use funnel_model::{Block, Blocked, Commits, Ids, Memory};
use std::alloc::Global;
use std::sync::Wait;

/// Why an add was refused. Of a full engine it tells what keeps documents out, where that is one slice alone.
#[derive(Clone, Copy, PartialEq)]
pub(crate) enum Refused {
    Present(u64),
    Full(Option<Block>),
    Spent(u64),
    Memory,
}

/// A pass of an engine, and what its calls take.
#[derive(Drop)]
pub(crate) struct Caller<'e, N: PoolName, R: Wait> {
    pub engine: &'e Engine<N>,
    pub pass: Pass<N>,
    pub rt: &'e R,
    pub alloc: Global,
}

impl<'e, N: PoolName, R: Wait> Caller<'e, N, R> {
    pub fn number(&self) -> u32 {
        self.pass.number()
    }

    pub fn add(&mut self, id: u64, text: &str) -> Result<u64, Refused> {
        told(self.add_told(id, text))
    }

    /// An add that tells all slices of a full engine.
    pub fn add_told(&mut self, id: u64, text: &str) -> Result<u64, AddFault> {
        self.engine
            .add(self.rt, self.alloc, &mut self.pass, id, text)
    }

    pub fn add_by<W: Work>(&mut self, id: u64, text: &str, work: &mut W) -> Result<u64, Refused> {
        let (rt, alloc) = (self.rt, self.alloc);
        told(
            self.engine
                .add_by(rt, alloc, &mut self.pass, id, text, work),
        )
    }

    pub fn delete(&mut self, id: u64) -> Result<u64, DeleteFault> {
        self.engine.delete(self.rt, &mut self.pass, id)
    }

    pub fn find(&mut self, query: &str) -> Result<Ids, FindFault> {
        self.engine.find(self.rt, self.alloc, &mut self.pass, query)
    }

    pub fn find_by<W: Work>(&mut self, query: &str, work: &mut W) -> Result<Ids, FindFault> {
        self.engine
            .find_by(self.rt, self.alloc, &mut self.pass, query, work)
    }

    pub fn query_by<W: Work>(&mut self, text: &str, work: &mut W) -> Result<Ids, SearchFault> {
        self.engine
            .query_by(self.rt, self.alloc, &mut self.pass, text, work)
    }

    /// Whether a find has the numbers from the first up to the second, in order.
    pub fn finds(&mut self, query: &str, range: (u64, u64)) -> bool {
        match self.find(query) {
            Ok(ids) => is_range(&ids, range),
            Err(_) => false,
        }
    }

    pub fn place(&mut self) -> Result<u64, Spent> {
        self.engine.place(self.rt, &mut self.pass)
    }

    pub fn journal(&mut self, from: u64) -> Result<Commits, JournalFault> {
        self.engine
            .journal(self.rt, self.alloc, &mut self.pass, from)
    }

    pub fn recycle(&mut self) -> Recycled {
        self.engine.recycle(self.rt, &mut self.pass)
    }

    pub fn recycle_by<W: Work>(&mut self, work: &mut W) -> Recycled {
        self.engine.recycle_by(self.rt, &mut self.pass, work)
    }

    /// Sees what the other one has seen.
    pub fn see_as_much(&mut self, other: &mut Caller<'_, N, R>) {
        let note = other.engine.note(&mut other.pass);
        self.engine.meet(&mut self.pass, note)
    }

    /// Begins a find, where it can.
    pub fn begin(self, query: &str) -> Option<Finding<'e, N, R>> {
        let Caller {
            engine,
            pass,
            rt,
            alloc,
        } = self;
        match engine.begin_find(rt, alloc, pass, query) {
            Ok(find) => Some(Finding { engine, find, rt }),
            Err(_) => None,
        }
    }

    /// Adds documents with these numbers and one word. Whether they were answered by the places after `before`.
    pub fn add_all(&mut self, ids: (u64, u64), before: u64) -> bool {
        let mut as_wanted = true;
        let mut place = before;
        for id in ids.0..ids.1 {
            place = place.wrapping_add(1);
            as_wanted = as_wanted && self.add(id, "x") == Ok(place);
        }
        as_wanted
    }

    /// So by `work`.
    pub fn add_all_by<W: Work>(&mut self, ids: (u64, u64), before: u64, work: &mut W) -> bool {
        let mut as_wanted = true;
        let mut place = before;
        for id in ids.0..ids.1 {
            place = place.wrapping_add(1);
            as_wanted = as_wanted && self.add_by(id, "x", work) == Ok(place);
        }
        as_wanted
    }

    /// Deletes documents with these numbers. Whether they were answered by the places after `before`.
    pub fn delete_all(&mut self, ids: (u64, u64), before: u64) -> bool {
        let mut as_wanted = true;
        let mut place = before;
        for id in ids.0..ids.1 {
            place = place.wrapping_add(1);
            as_wanted = as_wanted && self.delete(id) == Ok(place);
        }
        as_wanted
    }
}

/// A find that was begun by a caller.
pub(crate) struct Finding<'e, N: PoolName, R: Wait> {
    engine: &'e Engine<N>,
    find: OpenFind<N>,
    rt: &'e R,
}

impl<'e, N: PoolName, R: Wait> Finding<'e, N, R> {
    /// Ends the find.
    pub fn end(self) -> Result<Ids, Memory> {
        let Finding { engine, find, rt } = self;
        let (_, ids) = engine.finish_find(rt, find);
        ids
    }

    /// Ends the find. Whether it has the numbers from the first up to the second, in order.
    pub fn has(self, range: (u64, u64)) -> bool {
        match self.end() {
            Ok(ids) => is_range(&ids, range),
            Err(Memory) => false,
        }
    }
}

/// So of a find that could begin.
pub(crate) fn has<N: PoolName, R: Wait>(
    find: Option<Finding<'_, N, R>>,
    range: (u64, u64),
) -> bool {
    match find {
        Some(find) => find.has(range),
        None => false,
    }
}

/// Whether these are the numbers from the first up to the second, in order.
pub(crate) fn is_range(ids: &Ids, range: (u64, u64)) -> bool {
    ids.as_slice().iter().copied().eq(range.0..range.1)
}

fn told(answer: Result<u64, AddFault>) -> Result<u64, Refused> {
    match answer {
        Ok(place) => Ok(place),
        Err(AddFault::Present(place)) => Err(Refused::Present(place)),
        Err(AddFault::Full(blocks)) => Err(Refused::Full(only(&blocks))),
        Err(AddFault::Spent(events)) => Err(Refused::Spent(events)),
        Err(AddFault::Memory) => Err(Refused::Memory),
    }
}

fn only(blocks: &Blocked) -> Option<Block> {
    match blocks.as_slice() {
        [block] => Some(*block),
        _ => None,
    }
}
