//! Puts, gets, counts, some of the numbers that a search finds, and how full an engine is.
ghost use Rattle.std.specs.Prelude.{◌≡◌, []};
ghost use Rattle.funnel_model.specs.Configuration.{IsInRange};

use crate::caller::{Caller, has};
use crate::setting::{Case, config, expect};
use engine::{GetFault, PoolName, Put, PutFault, Search, Stats};
use funnel_model::Config;
use std::alloc::Global;
use std::sync::Wait;
use std::test::*;

impl<'e, N: PoolName, R: Wait> Caller<'e, N, R> {
    /// Whether a put is answered so.
    fn puts(&mut self, id: u64, text: &str, wanted: Put) -> bool {
        match self
            .engine
            .put(self.rt, self.alloc, &mut self.pass, id, text)
        {
            Ok(put) => put == wanted,
            Err(_) => false,
        }
    }

    /// Whether a put is refused for want of room.
    fn is_full(&mut self, id: u64, text: &str) -> bool {
        match self
            .engine
            .put(self.rt, self.alloc, &mut self.pass, id, text)
        {
            Err(PutFault::Full(_)) => true,
            _ => false,
        }
    }

    /// Whether a get is answered by this place and this text.
    fn gets(&mut self, id: u64, place: u64, wanted: &str) -> bool {
        match self.engine.get(self.rt, self.alloc, &mut self.pass, id) {
            Ok((at, text)) => at == place && text.as_str() == wanted,
            Err(_) => false,
        }
    }

    /// Whether a get is told that the number is not live.
    fn lacks(&mut self, id: u64) -> bool {
        match self.engine.get(self.rt, self.alloc, &mut self.pass, id) {
            Err(fault) => fault == GetFault::Absent,
            Ok(_) => false,
        }
    }

    /// Whether a count is answered so.
    fn counts(&mut self, kept: Search<'_>, wanted: u64) -> bool {
        match self.engine.count(self.rt, self.alloc, &mut self.pass, kept) {
            Ok(count) => count == wanted,
            Err(_) => false,
        }
    }

    /// Whether these numbers are the newest, of so many.
    fn has_newest(&mut self, most: u64, text: &str, count: u64, wanted: &[u64]) -> bool {
        let kept = Search::Query(text);
        match self
            .engine
            .newest(self.rt, self.alloc, &mut self.pass, most, kept)
        {
            Ok(some) => some.count == count && some.ids.as_slice() == wanted,
            Err(_) => false,
        }
    }

    /// Whether these are the oldest.
    fn has_oldest(&mut self, most: u64, text: &str, count: u64, wanted: &[u64]) -> bool {
        let kept = Search::Query(text);
        match self
            .engine
            .oldest(self.rt, self.alloc, &mut self.pass, most, kept)
        {
            Ok(some) => some.count == count && some.ids.as_slice() == wanted,
            Err(_) => false,
        }
    }

    /// Whether these are the engine's numbers.
    fn has_stats(&mut self, wanted: Stats) -> bool {
        match self.engine.stats(self.rt, &mut self.pass) {
            Ok(stats) => stats == wanted,
            Err(_) => false,
        }
    }
}

/// A document is put, and put again; and another one.
fn are_put<N: PoolName, R: Wait>(caller: &mut Caller<'_, N, R>) -> bool {
    caller.puts(7, "a", Put::Added(1))
        && caller.puts(7, "b", Put::Replaced(2))
        && caller.counts(Search::Query("a"), 0)
        && caller.gets(7, 2, "b")
        && caller.lacks(8)
        && caller.puts(8, "b", Put::Added(3))
}

/// What is told of both.
fn are_told<N: PoolName, R: Wait>(caller: &mut Caller<'_, N, R>) -> bool {
    caller.counts(Search::Query("b"), 2)
        && caller.counts(Search::Words(""), 2)
        && caller.has_newest(1, "b", 2, &[8])
        && caller.has_oldest(1, "b", 2, &[7])
        && caller.has_newest(5, "-x", 2, &[8, 7])
        && caller.has_newest(0, "b", 2, &[])
        && caller.has_stats(Stats {
            documents: 2,
            place: 3,
            base: 0,
            columns: 128,
            free: 125,
            retired: 0,
            finds: 0,
        })
}

/// Calls of one pass.
struct EachCall;

impl Case for EachCall {
    fn holds<N: PoolName, R: Wait>(
        &self,
        caller: &mut Caller<'_, N, R>,
        _: &mut Vec<Caller<'_, N, R>>,
    ) -> bool {
        are_put(caller) && are_told(caller)
    }
}

/// A put replaces, a get tells the text and the place of the last, and of two documents so much is told as is asked for.
#[test]
fn documents_are_replaced_and_told(rt: HostRuntime) {
    let alloc = rt.alloc();
    expect(&rt, alloc, config(alloc, 2, 2, 1, 1024), &EachCall)
}

/// Puts of one number, as many as there are columns, and one more, which is refused.
struct OneNumber;

impl Case for OneNumber {
    fn holds<N: PoolName, R: Wait>(
        &self,
        caller: &mut Caller<'_, N, R>,
        _: &mut Vec<Caller<'_, N, R>>,
    ) -> bool {
        let mut as_wanted = caller.puts(1, "a", Put::Added(1));
        for place in 2..65 {
            as_wanted = as_wanted && caller.puts(1, "a", Put::Replaced(place));
        }
        as_wanted
            && caller.is_full(1, "b")
            && caller.counts(Search::Query("a"), 1)
            && caller.gets(1, 64, "a")
    }
}

/// The one live column keeps the slice, so a put of its own number is refused, and its document stays.
#[test]
fn a_put_without_room_leaves_the_document(rt: HostRuntime) {
    let alloc = rt.alloc();
    expect(&rt, alloc, config(alloc, 2, 1, 1, 1024), &OneNumber)
}

/// Three slices, one of which is to be kept free.
fn with_reserve(alloc: Global) -> Config
    ensures in_range { IsInRange result }
    ensures no_words { result.words ≡ [] }
{
    let mut config = config(alloc, 2, 3, 1, 1024);
    config.reserve = 64;
    config
}

/// Puts of 110 numbers, and then of the even and of the odd ones once more.
struct AllAgain;

impl AllAgain {
    /// Whether the first number and each other one after it are put.
    fn puts_half<N: PoolName, R: Wait>(
        caller: &mut Caller<'_, N, R>,
        first: u64,
        text: &str,
    ) -> bool {
        let mut as_wanted = true;
        for id in (first..111).step_by(2) {
            as_wanted = as_wanted
                && caller
                    .engine
                    .put(caller.rt, caller.alloc, &mut caller.pass, id, text)
                    .is_ok();
        }
        as_wanted
    }
}

impl Case for AllAgain {
    fn holds<N: PoolName, R: Wait>(
        &self,
        caller: &mut Caller<'_, N, R>,
        _: &mut Vec<Caller<'_, N, R>>,
    ) -> bool {
        AllAgain::puts_half(caller, 1, "x")
            && AllAgain::puts_half(caller, 2, "x")
            && AllAgain::puts_half(caller, 2, "y")
            && AllAgain::puts_half(caller, 1, "y")
            && caller.counts(Search::Query("y"), 110)
            && caller.counts(Search::Query("x"), 0)
    }
}

/// With a reserve documents are replaced in any order, and no put is refused.
#[test]
fn puts_move_documents_so_that_slices_retire(rt: HostRuntime) {
    let alloc = rt.alloc();
    expect(&rt, alloc, with_reserve(alloc), &AllAgain)
}

/// Puts of a hundred numbers, and of each of them once more while a find runs that began between.
struct BesideFind;

impl BesideFind {
    /// Whether each number is put.
    fn puts_all<N: PoolName, R: Wait>(caller: &mut Caller<'_, N, R>, text: &str) -> bool {
        let mut as_wanted = true;
        for id in 1..101 {
            as_wanted = as_wanted
                && caller
                    .engine
                    .put(caller.rt, caller.alloc, &mut caller.pass, id, text)
                    .is_ok();
        }
        as_wanted
    }

    fn is_answered<N: PoolName, R: Wait>(
        caller: &mut Caller<'_, N, R>,
        other: Caller<'_, N, R>,
    ) -> bool {
        let find = other.begin("x");
        let replaced = BesideFind::puts_all(caller, "y") && caller.counts(Search::Query("x"), 0);
        has(find, (1, 101)) && replaced && caller.counts(Search::Query("y"), 100)
    }
}

impl Case for BesideFind {
    fn holds<N: PoolName, R: Wait>(
        &self,
        caller: &mut Caller<'_, N, R>,
        others: &mut Vec<Caller<'_, N, R>>,
    ) -> bool {
        let put = BesideFind::puts_all(caller, "x");
        match others.pop() {
            Some(other) => put && BesideFind::is_answered(caller, other),
            None => false,
        }
    }
}

/// A find that began before documents were replaced is answered by their old texts, which are kept for it.
#[test]
fn a_find_has_the_old_texts_of_documents_replaced_since(rt: HostRuntime) {
    let alloc = rt.alloc();
    expect(&rt, alloc, config(alloc, 2, 4, 1, 1024), &BesideFind)
}
