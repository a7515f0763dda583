//! Searches by boolean queries, or by words: for the numbers of what they keep, for how many these are, or for some of them.
ghost use Rattle.std.specs.Prelude.{◌≡◌, ◌≤◌, [], length, vec_capacity};
ghost use Rattle.commit_desk.specs.Passes.{IsResting};
ghost use Rattle.engine.specs.Faults.{of_find, of_text};
ghost use Rattle.engine.specs.Passes.{view_of};
ghost use Rattle.engine.specs.Searches.{MakesQuery, MakesSearch, MakesTold, QueryTurns, SearchTurns, ToldTurns, first_of, last_of, reply_to_some};
ghost use Rattle.funnel_model.specs.declared.reply.Reply.TheVariants as reply;
ghost use Rattle.line_proto.specs.Forms.{Amount, First, Last, Told};
ghost use Rattle.line_proto.specs.Requests.{sought};

use crate::engine::Engine;
use crate::engine_pool::EnginePool;
use crate::open_find::Begun;
use crate::pass::Pass;
use crate::search::read_sought;
use crate::turns::Turns;
use crate::work::{Direct, Work};
use bool_query::QueryFault;
use commit_desk::{FindFault, FindLayouts};
use funnel_model::Ids;
use line_proto::Search as Sought;
use slice_rule::{PassSeat, PoolName};
use std::alloc::Global;
use std::error::Error;
use std::fmt;
use std::sync::Wait;

/// How many documents a search keeps, and the numbers of those that were asked for.
#[derive(Debug, Drop)]
pub struct SomeFound {
    pub count: u64,
    pub ids: Ids,
}

/// Why a search is not answered. Places are bytes of its text.
#[derive(Clone, Copy, Debug, PartialEq, Eq)]
pub enum SearchFault {
    /// A token starts here that can't stand where it does, and it is the first; or the text, which ends here, ends too early.
    Syntax(u64),
    /// A `(` or `-` starts here that is the first to open a 65th level.
    Deep(u64),
    /// The history has so many events that no call is taken any more.
    Spent(u64),
    /// No memory was found.
    Memory,
}

impl fmt::Display for SearchFault {
    fn fmt<W: fmt::Write>(&self, f: &mut fmt::Formatter<W>) -> fmt::Result {
        match self {
            SearchFault::Syntax(at) => write!(f, "no query at byte {at}"),
            SearchFault::Deep(at) => write!(f, "too many levels at byte {at}"),
            SearchFault::Spent(events) => write!(f, "no call is taken after {events} events"),
            SearchFault::Memory => f.write_str("out of memory"),
        }
    }
}

impl Error for SearchFault {}

impl From<QueryFault> for SearchFault {
    ghost from_gives = { λ fault e. e ≡ of_text fault };

    fn from(fault: QueryFault) -> Self {
        match fault {
            QueryFault::Syntax(at) => SearchFault::Syntax(at),
            QueryFault::Deep(at) => SearchFault::Deep(at),
            QueryFault::Memory => SearchFault::Memory,
        }
    }
}

impl From<FindFault> for SearchFault {
    ghost from_gives = { λ fault e. e ≡ of_find fault };

    fn from(fault: FindFault) -> Self {
        match fault {
            FindFault::Spent(events) => SearchFault::Spent(events),
            FindFault::Memory => SearchFault::Memory,
        }
    }
}

impl<N: PoolName> Engine<N> {
    /// The numbers of the documents that are live when the query begins and that its expression keeps, in the order in which they were
    /// added. It makes the events of a find of the empty query. It waits for the lock to begin, unless its text is refused or there is no
    /// memory for it, and then, where it did begin, for each turn. One ends as that of a find does, where each document counts as 8 words at
    /// least that is looked at for more than words; and with the last candidate of which bits tell more than of the others. It frees documents
    /// as a find does.
    pub fn query<R: Wait>(
        &self,
        rt: &R,
        alloc: Global,
        pass: &mut Pass<N>,
        text: &str,
    ) -> Result<Ids, SearchFault>
        ensures call { MakesQuery N.pool.limits text.now result pass.old pass.new }
        ensures turns { QueryTurns N.pool.limits pass.old.number text.now pass.old.front pass.new.front result }
    {
        self.query_by(rt, alloc, pass, text, &mut Direct)
    }

    /// A query whose slices are scanned by `work`, while the lock is free.
    pub fn query_by<R: Wait, W: Work>(
        &self,
        rt: &R,
        alloc: Global,
        pass: &mut Pass<N>,
        text: &str,
        work: &mut W,
    ) -> Result<Ids, SearchFault>
        ensures call { MakesQuery N.pool.limits text.now result pass.old pass.new }
        ensures turns { QueryTurns N.pool.limits pass.old.number text.now pass.old.front pass.new.front result }
    {
        let mut turns = self.locked(rt);
        let answer = self.pool.query(
            &mut turns,
            alloc,
            &mut pass.seat,
            &mut pass.layouts,
            text,
            work,
        );
        turns.free_some(&mut pass.gone);
        answer
    }

    /// How many documents are live when the search begins that it keeps: by a boolean query, or by words, as each document has each word of
    /// no text. It is refused, waits and takes memory as a query does.
    pub fn count<R: Wait>(
        &self,
        rt: &R,
        alloc: Global,
        pass: &mut Pass<N>,
        kept: Sought<'_>,
    ) -> Result<u64, SearchFault>
        ensures call { MakesTold Amount reply.Count N.pool.limits (sought kept.entry) result pass.old pass.new }
        ensures turns { ToldTurns length N.pool.limits pass.old.number (sought kept.entry) pass.old.front pass.new.front result }
    {
        let mut turns = self.locked(rt);
        let answer = self
            .pool
            .count(&mut turns, alloc, &mut pass.seat, &mut pass.layouts, kept);
        turns.free_some(&mut pass.gone);
        answer
    }

    /// How many documents the search keeps, and the numbers of at most so many of them, of those that were added last, the newest first. It
    /// is refused, waits and takes memory as a query does.
    pub fn newest<R: Wait>(
        &self,
        rt: &R,
        alloc: Global,
        pass: &mut Pass<N>,
        most: u64,
        kept: Sought<'_>,
    ) -> Result<SomeFound, SearchFault>
        ensures call { MakesTold (Last most) reply_to_some N.pool.limits (sought kept.entry) result pass.old pass.new }
        ensures turns { ToldTurns (last_of most) N.pool.limits pass.old.number (sought kept.entry) pass.old.front pass.new.front result }
    {
        let mut turns = self.locked(rt);
        let answer = self.pool.newest(
            &mut turns,
            alloc,
            &mut pass.seat,
            &mut pass.layouts,
            most,
            kept,
        );
        turns.free_some(&mut pass.gone);
        answer
    }

    /// How many documents the search keeps, and the numbers of at most so many of them, of those that were added first, the oldest first. It
    /// is refused, waits and takes memory as a query does.
    pub fn oldest<R: Wait>(
        &self,
        rt: &R,
        alloc: Global,
        pass: &mut Pass<N>,
        most: u64,
        kept: Sought<'_>,
    ) -> Result<SomeFound, SearchFault>
        ensures call { MakesTold (First most) reply_to_some N.pool.limits (sought kept.entry) result pass.old pass.new }
        ensures turns { ToldTurns (first_of most) N.pool.limits pass.old.number (sought kept.entry) pass.old.front pass.new.front result }
    {
        let mut turns = self.locked(rt);
        let answer = self.pool.oldest(
            &mut turns,
            alloc,
            &mut pass.seat,
            &mut pass.layouts,
            most,
            kept,
        );
        turns.free_some(&mut pass.gone);
        answer
    }
}

impl EnginePool {
    pub(crate) fn query<T: Turns, W: Work>(
        &self,
        turns: &mut T,
        alloc: Global,
        pass: &mut PassSeat,
        layouts: &mut FindLayouts,
        text: &str,
        work: &mut W,
    ) -> Result<Ids, SearchFault>
        requires at { T.made_at turns.old ≡ self.now }
        requires rests { IsResting self.now pass.old }
        requires none { layouts.old.entries.items ≡ [] }
        ensures call { MakesQuery self.now.limits text.now result (view_of pass.old) (view_of pass.new) }
        ensures turns { QueryTurns self.now.limits pass.old.number text.now pass.old.front pass.new.front result }
        ensures rests { IsResting self.now pass.new }
        ensures none { layouts.new.entries.items ≡ [] }
        ensures room { vec_capacity layouts.old.entries ≤ vec_capacity layouts.new.entries }
        ensures number { pass.new.number ≡ pass.old.number }
        ensures at { T.made_at turns.new ≡ self.now }
    {
        self.search(turns, alloc, pass, layouts, Sought::Query(text), work)
    }

    pub(crate) fn count<T: Turns>(
        &self,
        turns: &mut T,
        alloc: Global,
        pass: &mut PassSeat,
        layouts: &mut FindLayouts,
        kept: Sought<'_>,
    ) -> Result<u64, SearchFault>
        requires at { T.made_at turns.old ≡ self.now }
        requires rests { IsResting self.now pass.old }
        requires none { layouts.old.entries.items ≡ [] }
        ensures call { MakesTold Amount reply.Count self.now.limits (sought kept.entry) result (view_of pass.old) (view_of pass.new) }
        ensures turns { ToldTurns length self.now.limits pass.old.number (sought kept.entry) pass.old.front pass.new.front result }
        ensures rests { IsResting self.now pass.new }
        ensures none { layouts.new.entries.items ≡ [] }
        ensures room { vec_capacity layouts.old.entries ≤ vec_capacity layouts.new.entries }
        ensures number { pass.new.number ≡ pass.old.number }
        ensures at { T.made_at turns.new ≡ self.now }
    {
        match self.search(turns, alloc, pass, layouts, kept, &mut Direct) {
            Ok(ids) => Ok(ids.len() as u64),
            Err(fault) => Err(fault),
        }
    }

    pub(crate) fn newest<T: Turns>(
        &self,
        turns: &mut T,
        alloc: Global,
        pass: &mut PassSeat,
        layouts: &mut FindLayouts,
        most: u64,
        kept: Sought<'_>,
    ) -> Result<SomeFound, SearchFault>
        requires at { T.made_at turns.old ≡ self.now }
        requires rests { IsResting self.now pass.old }
        requires none { layouts.old.entries.items ≡ [] }
        ensures call { MakesTold (Last most) reply_to_some self.now.limits (sought kept.entry) result (view_of pass.old) (view_of pass.new) }
        ensures turns { ToldTurns (last_of most) self.now.limits pass.old.number (sought kept.entry) pass.old.front pass.new.front result }
        ensures rests { IsResting self.now pass.new }
        ensures none { layouts.new.entries.items ≡ [] }
        ensures room { vec_capacity layouts.old.entries ≤ vec_capacity layouts.new.entries }
        ensures number { pass.new.number ≡ pass.old.number }
        ensures at { T.made_at turns.new ≡ self.now }
    {
        match self.search(turns, alloc, pass, layouts, kept, &mut Direct) {
            Ok(ids) => Ok(last_of(ids, most)),
            Err(fault) => Err(fault),
        }
    }

    pub(crate) fn oldest<T: Turns>(
        &self,
        turns: &mut T,
        alloc: Global,
        pass: &mut PassSeat,
        layouts: &mut FindLayouts,
        most: u64,
        kept: Sought<'_>,
    ) -> Result<SomeFound, SearchFault>
        requires at { T.made_at turns.old ≡ self.now }
        requires rests { IsResting self.now pass.old }
        requires none { layouts.old.entries.items ≡ [] }
        ensures call { MakesTold (First most) reply_to_some self.now.limits (sought kept.entry) result (view_of pass.old) (view_of pass.new) }
        ensures turns { ToldTurns (first_of most) self.now.limits pass.old.number (sought kept.entry) pass.old.front pass.new.front result }
        ensures rests { IsResting self.now pass.new }
        ensures none { layouts.new.entries.items ≡ [] }
        ensures room { vec_capacity layouts.old.entries ≤ vec_capacity layouts.new.entries }
        ensures number { pass.new.number ≡ pass.old.number }
        ensures at { T.made_at turns.new ≡ self.now }
    {
        match self.search(turns, alloc, pass, layouts, kept, &mut Direct) {
            Ok(ids) => Ok(first_of(ids, most)),
            Err(fault) => Err(fault),
        }
    }

    // The numbers of what a search keeps. Whatever is told of them, it is the call that tells so.
    fn search<T: Turns, W: Work>(
        &self,
        turns: &mut T,
        alloc: Global,
        pass: &mut PassSeat,
        layouts: &mut FindLayouts,
        kept: Sought<'_>,
        work: &mut W,
    ) -> Result<Ids, SearchFault>
        requires at { T.made_at turns.old ≡ self.now }
        requires rests { IsResting self.now pass.old }
        requires none { layouts.old.entries.items ≡ [] }
        ensures call { (told : Told) → MakesSearch told self.now.limits (sought kept.entry) result (view_of pass.old) (view_of pass.new) }
        ensures turns { SearchTurns self.now.limits pass.old.number (sought kept.entry) pass.old.front pass.new.front result }
        ensures rests { IsResting self.now pass.new }
        ensures none { layouts.new.entries.items ≡ [] }
        ensures room { vec_capacity layouts.old.entries ≤ vec_capacity layouts.new.entries }
        ensures number { pass.new.number ≡ pass.old.number }
        ensures at { T.made_at turns.new ≡ self.now }
    {
        let _ = pass.number();
        let search = read_sought(alloc, kept)?;
        let token = self.begin(turns, pass, "", layouts)?;
        let begun = Begun { token, search };
        let Ok(ids) = self.finish(turns, pass, begun, layouts, work) else {
            return Err(SearchFault::Memory);
        };
        Ok(ids)
    }
}

// The last so many, the newest first. The list is cut and turned in its place.
fn last_of(ids: Ids, most: u64) -> SomeFound
    ensures { result ≡ last_of most ids }
{
    let mut ids = ids.into_inner();
    let count = ids.len() as u64;
    ids.reverse();
    ids.truncate(most as usize);
    SomeFound {
        count,
        ids: Ids::new(ids),
    }
}

// The first so many.
fn first_of(ids: Ids, most: u64) -> SomeFound
    ensures { result ≡ first_of most ids }
{
    let mut ids = ids.into_inner();
    let count = ids.len() as u64;
    ids.truncate(most as usize);
    SomeFound {
        count,
        ids: Ids::new(ids),
    }
}
