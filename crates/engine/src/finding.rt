//! Finds.
ghost use Rattle.std.specs.Prelude.{◌≡◌, ℕ, List, ◌≤◌, ◌++◌, [], IfErr, IfOk, MatchResult, length, vec_capacity};
ghost use Rattle.funnel_model.specs.declared.call.Call.TheVariants as call;
ghost use Rattle.funnel_model.specs.declared.event.Event.{Event};
ghost use Rattle.funnel_model.specs.History.{answer};
ghost use Rattle.funnel_model.specs.Legal.{IsLegal};
ghost use Rattle.commit_desk.specs.Passes.{IsFinding, IsResting};
ghost use Rattle.commit_desk.specs.Scans.{AreOfToken};
ghost use Rattle.engine.specs.Finds.{AddsFound, CanLookIn, FindBegins, FindEnds, FindTurns, FindsIn, HasEndedFind, IsAnswerWhere, IsBegunAt};
ghost use Rattle.engine.specs.Finds.{IsFoundBut, IsJustFinding, IsOpenOrEnded, IsScanFor, RefusedTurn, RefusedTurns};
ghost use Rattle.engine.specs.Looks.{FindsBoth};
ghost use Rattle.engine.specs.Passes.{BeginsCall, MakesCall, MakesNoCall, view_of};
ghost use Rattle.engine.specs.Replies.{reply_of_find, reply_of_find_fault};
ghost use Rattle.engine.specs.Searches.{is_kept_by};

use crate::doubt::Doubt;
use crate::engine::Engine;
use crate::engine_pool::EnginePool;
use crate::open_find::{Begun, OpenFind};
use crate::pass::Pass;
use crate::scanning::Scanned;
use crate::search::Search;
use crate::turns::Turns;
use crate::work::{Direct, Work};
use commit_desk::{FindFault, FindLayout, FindLayouts, Part};
use document_store::{Found, Judge};
use funnel_model::{Ids, Memory, Token};
use slice_rule::{PassSeat, PoolName};
use std::alloc::Global;
use std::sync::Wait;
use word_cut::words;

impl<N: PoolName> Engine<N> {
    /// The numbers of the documents that are live when the find begins and have every word of the query, in the order of their
    /// adds. It waits for the lock to begin, unless it has no memory for its words, and then, where it did begin, for each turn. One ends
    /// after 4,096 look-ups, or with the document at which it has looked for 256 words; and where slices have several treatments,
    /// with the last candidate in those of one. Where documents wait to be freed, for which it or other finds could ask, it waits once more,
    /// and frees some of them.
    pub fn find<R: Wait>(
        &self,
        rt: &R,
        alloc: Global,
        pass: &mut Pass<N>,
        query: &str,
    ) -> Result<Ids, FindFault>
        ensures call { MakesCall N.pool.limits (call.Find query.now) (reply_of_find result) pass.old pass.new }
        ensures turns { FindTurns N.pool.limits pass.old.number query.now pass.old.front pass.new.front result }
    {
        self.find_by(rt, alloc, pass, query, &mut Direct)
    }

    /// A find whose slices are scanned by `work`, while the lock is free.
    pub fn find_by<R: Wait, W: Work>(
        &self,
        rt: &R,
        alloc: Global,
        pass: &mut Pass<N>,
        query: &str,
        work: &mut W,
    ) -> Result<Ids, FindFault>
        ensures call { MakesCall N.pool.limits (call.Find query.now) (reply_of_find result) pass.old pass.new }
        ensures turns { FindTurns N.pool.limits pass.old.number query.now pass.old.front pass.new.front result }
    {
        let mut turns = self.locked(rt);
        let answer = self.pool.find(
            &mut turns,
            alloc,
            &mut pass.seat,
            &mut pass.layouts,
            query,
            work,
        );
        turns.free_some(&mut pass.gone);
        answer
    }

    /// Begins a find, which `finish_find` answers by what is live now, whatever others do meanwhile. It waits for the lock once,
    /// and not at all where there is no memory for its words. A refusal hands the pass back.
    pub fn begin_find<R: Wait>(
        &self,
        rt: &R,
        alloc: Global,
        pass: Pass<N>,
        query: &str,
    ) -> Result<OpenFind<N>, (Pass<N>, FindFault)>
        ensures begun { IfOk result (λ find. BeginsCall N.pool.limits (call.Find query.now) pass find) }
        ensures turn { IfOk result (λ find. FindBegins N.pool.limits pass.number query.now pass.front find.front) }
        ensures refused { IfErr result (λ refused. MakesCall N.pool.limits (call.Find query.now) (reply_of_find_fault refused.1) pass refused.0) }
        ensures turns { IfErr result (λ refused. RefusedTurns N.pool.limits pass.number pass.front refused.0.front refused.1) }
    {
        let Pass {
            mut seat,
            mut layouts,
            gone,
            of,
        } = pass;
        let mut turns = self.locked(rt);
        match self
            .pool
            .begin_words(&mut turns, alloc, &mut seat, query, &mut layouts)
        {
            Ok(begun) => Ok(OpenFind {
                seat,
                layouts,
                gone,
                begun,
                of,
            }),
            Err(fault) => Err((
                Pass {
                    seat,
                    layouts,
                    gone,
                    of,
                },
                fault,
            )),
        }
    }

    /// Ends a find, and hands its pass back. Where there is no memory for the rows of its words, its candidates or its answer, the find
    /// is ended all the same. It waits for the lock for each turn that looks at its candidates, and for one at least; and frees documents as a
    /// find does.
    pub fn finish_find<R: Wait>(&self, rt: &R, find: OpenFind<N>) -> (Pass<N>, Result<Ids, Memory>)
        ensures found { IfOk result.1 (λ ids. (earlier : List Event) (query : List ℕ) → IsBegunAt find earlier query → ids ≡ answer earlier query) }
        ensures ended { FindEnds find.number find.front result.0.front }
        ensures pass { MakesNoCall N.pool.limits find result.0 }
    {
        let OpenFind {
            mut seat,
            mut layouts,
            mut gone,
            begun,
            of,
        } = find;
        let mut turns = self.locked(rt);
        let answer = self
            .pool
            .finish(&mut turns, &mut seat, begun, &mut layouts, &mut Direct);
        turns.free_some(&mut gone);
        let pass = Pass {
            seat,
            layouts,
            gone,
            of,
        };
        (pass, answer)
    }
}

impl EnginePool {
    pub(crate) fn find<T: Turns, W: Work>(
        &self,
        turns: &mut T,
        alloc: Global,
        pass: &mut PassSeat,
        layouts: &mut FindLayouts,
        query: &str,
        work: &mut W,
    ) -> Result<Ids, FindFault>
        requires at { T.made_at turns.old ≡ self.now }
        requires rests { IsResting self.now pass.old }
        requires none { layouts.old.entries.items ≡ [] }
        ensures call { MakesCall self.now.limits (call.Find query.now) (reply_of_find result) (view_of pass.old) (view_of pass.new) }
        ensures turns { FindTurns self.now.limits pass.old.number query.now pass.old.front pass.new.front result }
        ensures rests { IsResting self.now pass.new }
        ensures none { layouts.new.entries.items ≡ [] }
        ensures room { vec_capacity layouts.old.entries ≤ vec_capacity layouts.new.entries }
        ensures at { T.made_at turns.new ≡ self.now }
    {
        let begun = self.begin_words(turns, alloc, pass, query, layouts)?;
        let Ok(ids) = self.finish(turns, pass, begun, layouts, work) else {
            return Err(FindFault::Memory);
        };
        Ok(ids)
    }

    // Begins a find of words, after it took them.
    pub(crate) fn begin_words<T: Turns>(
        &self,
        turns: &mut T,
        alloc: Global,
        pass: &mut PassSeat,
        query: &str,
        layouts: &mut FindLayouts,
    ) -> Result<Begun, FindFault>
        requires at { T.made_at turns.old ≡ self.now }
        requires pass { IsResting self.now pass.old }
        requires none { layouts.old.entries.items ≡ [] }
        ensures begun { IfOk result (λ begun. IsScanFor self.now pass.new begun.token begun.search layouts.new.entries.items) }
        ensures none { IfErr result (λ _. layouts.new.entries.items ≡ []) }
        ensures room { vec_capacity layouts.old.entries ≤ vec_capacity layouts.new.entries }
        ensures turns { MatchResult result (λ _. FindBegins self.now.limits pass.old.number query.now pass.old.front pass.new.front)
            (λ fault. RefusedTurns self.now.limits pass.old.number pass.old.front pass.new.front fault) }
        ensures rests { IfErr result (λ _. IsResting self.now pass.new) }
        ensures legal { IsLegal self.now.limits pass.new.front }
        ensures number { pass.new.number ≡ pass.old.number }
        ensures at { T.made_at turns.new ≡ self.now }
    {
        let _ = pass.number();
        let Ok(words) = words(alloc, query) else {
            return Err(FindFault::Memory);
        };
        let token = self.begin(turns, pass, query, layouts)?;
        let search = Search::of_words(alloc, words);
        Ok(Begun { token, search })
    }

    // The first turn of a find. It gets the layouts by which its slices are read.
    pub(crate) fn begin<T: Turns>(
        &self,
        turns: &mut T,
        pass: &mut PassSeat,
        query: &str,
        layouts: &mut FindLayouts,
    ) -> Result<Token, FindFault>
        requires at { T.made_at turns.old ≡ self.now }
        requires pass { IsResting self.now pass.old }
        ensures begun { IfOk result (λ token. IsJustFinding self.now token pass.new layouts.new.entries.items) }
        ensures none { IfErr result (λ _. layouts.new.entries.items ≡ []) }
        ensures room { vec_capacity layouts.old.entries ≤ vec_capacity layouts.new.entries }
        ensures turns { MatchResult result (λ _. FindBegins self.now.limits pass.old.number query.now pass.old.front pass.new.front)
            (λ fault. RefusedTurn self.now.limits pass.old.number pass.old.front pass.new.front fault) }
        ensures rests { IfErr result (λ _. IsResting self.now pass.new) }
        ensures legal { IsLegal self.now.limits pass.new.front }
        ensures number { pass.new.number ≡ pass.old.number }
        ensures at { T.made_at turns.new ≡ self.now }
    {
        match turns.open_find(self, pass, query, layouts) {
            Ok(token) => Ok(token),
            Err(fault) => {
                layouts.entries.clear();
                Err(fault)
            }
        }
    }

    // Looks at the slices of each layout, and ends the find. The answer is sorted with the lock free.
    pub(crate) fn finish<T: Turns, W: Work>(
        &self,
        turns: &mut T,
        pass: &mut PassSeat,
        begun: Begun,
        layouts: &mut FindLayouts,
        work: &mut W,
    ) -> Result<Ids, Memory>
        requires at { T.made_at turns.old ≡ self.now }
        requires begun { IsJustFinding self.now begun.token pass.old layouts.old.entries.items }
        ensures found { IfOk result (IsAnswerWhere (is_kept_by begun.search) pass.old) }
        ensures none { layouts.new.entries.items ≡ [] }
        ensures room { vec_capacity layouts.old.entries ≤ vec_capacity layouts.new.entries }
        ensures ended { FindEnds pass.old.number pass.old.front pass.new.front }
        ensures rests { IsResting self.now pass.new }
        ensures legal { IsLegal self.now.limits pass.new.front }
        ensures number { pass.new.number ≡ pass.old.number }
        ensures at { T.made_at turns.new ≡ self.now }
    {
        let alloc = begun.search.alloc;
        let mut found = Found::new(alloc);
        self.find_each(turns, pass, begun, layouts, work, &mut found)?;
        found.sort();
        let ids = Vec::with_capacity(alloc, found.len())?;
        Ok(found.into_ids(ids))
    }

    // Looks at the slices of one layout after the other, until the find is ended.
    fn find_each<T: Turns, W: Work>(
        &self,
        turns: &mut T,
        pass: &mut PassSeat,
        begun: Begun,
        layouts: &mut FindLayouts,
        work: &mut W,
        out: &mut Found,
    ) -> Result<(), Memory>
        requires at { T.made_at turns.old ≡ self.now }
        requires begun { IsJustFinding self.now begun.token pass.old layouts.old.entries.items }
        requires none { out.old.found ≡ [] }
        ensures found { IfOk result (λ _. IsFoundBut (is_kept_by begun.search) pass.old begun.token [] out.new.found) }
        ensures emptied { layouts.new.entries.items ≡ [] }
        ensures room { vec_capacity layouts.old.entries ≤ vec_capacity layouts.new.entries }
        ensures ended { FindEnds pass.old.number pass.old.front pass.new.front }
        ensures rests { IsResting self.now pass.new }
        ensures legal { IsLegal self.now.limits pass.new.front }
        ensures number { pass.new.number ≡ pass.old.number }
        ensures at { T.made_at turns.new ≡ self.now }
    {
        let Begun { mut token, search } = begun;
        while let Some(entry) = layouts.entries.pop() {
            let next = Next {
                token,
                entry: &entry,
                last: layouts.entries.is_empty(),
            };
            match self.look_in(turns, pass, next, &search, work, out) {
                Ok(Some(open)) => token = open,
                Ok(None) => return Ok(()),
                Err(Memory) => {
                    layouts.entries.clear();
                    return Err(Memory);
                }
            }
        }
        turns.drop_find(self, pass, token);
        Ok(())
    }

    // Scans slices for the search, and looks at the candidates. It ends the find after the last candidate of the last slices, or where
    // there is no memory; else the token comes back.
    fn look_in<T: Turns, W: Work>(
        &self,
        turns: &mut T,
        pass: &mut PassSeat,
        next: Next<'_>,
        search: &Search,
        work: &mut W,
        out: &mut Found,
    ) -> Result<Option<Token>, Memory>
        requires at { T.made_at turns.old ≡ self.now }
        requires can { CanLookIn self.now pass.old next.token next.entry.now }
        ensures found { IfOk result (λ _. AddsFound (is_kept_by search.now) pass.old next.entry.token next.entry.entry.now.slices
            out.old.found out.new.found) }
        ensures goes_on { MatchResult result (IsOpenOrEnded self.now next.entry.token next.entry.last pass.old pass.new)
            (λ _. HasEndedFind self.now pass.old pass.new) }
        ensures legal { IsLegal self.now.limits pass.new.front }
        ensures number { pass.new.number ≡ pass.old.number }
        ensures at { T.made_at turns.new ≡ self.now }
    {
        let _ = &self.pool;
        let _ = pass.number();
        let Next { token, entry, last } = next;
        let Ok(scanned) = self.scan_entry(pass, &token, entry, search, work) else {
            turns.drop_find(self, pass, token);
            return Err(Memory);
        };
        self.look_at(turns, pass, token, &scanned, last, out)
    }

    // Looks at candidates: first at those where the search is sure but for the rest of its words, and then at those where it is unsure.
    fn look_at<T: Turns>(
        &self,
        turns: &mut T,
        pass: &mut PassSeat,
        token: Token,
        scanned: &Scanned<'_>,
        last: bool,
        out: &mut Found,
    ) -> Result<Option<Token>, Memory>
        requires at { T.made_at turns.old ≡ self.now }
        requires finding { IsFinding self.now token pass.old }
        requires of_token { AreOfToken self.now.limits.columns token (scanned.now.hits.sure ++ scanned.now.hits.unsure) }
        ensures found { IfOk result (λ _. FindsBoth scanned.now pass.old token out.old.found out.new.found) }
        ensures goes_on { MatchResult result (IsOpenOrEnded self.now token last pass.old pass.new) (λ _. HasEndedFind self.now pass.old pass.new) }
        ensures legal { IsLegal self.now.limits pass.new.front }
        ensures number { pass.new.number ≡ pass.old.number }
        ensures at { T.made_at turns.new ≡ self.now }
    {
        let rest = scanned.rest.words(&scanned.search.words);
        let sure = Part {
            candidates: &scanned.hits.sure,
            from: 0,
            judge: rest,
        };
        if scanned.hits.unsure.len() == 0 {
            return self.resolve(turns, pass, token, sure, last, out);
        }
        let Some(token) = self.resolve(turns, pass, token, sure, false, out)? else {
            unreachable!()
        };
        let unsure = Part {
            candidates: &scanned.hits.unsure,
            from: 0,
            judge: &Doubt::of(scanned.search, rest),
        };
        self.resolve(turns, pass, token, unsure, last, out)
    }

    // Looks at candidates turn by turn, with the lock free between two. Where these are the last ones, the last turn ends the find, and else
    // the token comes back. The find ends too where there is no memory for what they give.
    fn resolve<T: Turns, J: Judge>(
        &self,
        turns: &mut T,
        pass: &mut PassSeat,
        token: Token,
        part: Part<'_, J>,
        last: bool,
        out: &mut Found,
    ) -> Result<Option<Token>, Memory>
        requires at { T.made_at turns.old ≡ self.now }
        requires finding { IsFinding self.now token pass.old }
        requires of_token { AreOfToken self.now.limits.columns token part.candidates.now }
        requires from { part.from ≡ 0 }
        ensures found { IfOk result (λ _. FindsIn (J.test part.entry.judge.now) pass.old token part.entry.candidates.now out.old.found out.new.found) }
        ensures goes_on { MatchResult result (IsOpenOrEnded self.now token last pass.old pass.new) (λ _. HasEndedFind self.now pass.old pass.new) }
        ensures legal { IsLegal self.now.limits pass.new.front }
        ensures number { pass.new.number ≡ pass.old.number }
        ensures at { T.made_at turns.new ≡ self.now }
    {
        let Ok(()) = out.reserve(part.candidates.len()) else {
            turns.drop_find(self, pass, token);
            return Err(Memory);
        };
        Ok(self.resolve_all(turns, pass, token, part, last, out))
    }

    // The turns, where there is room for what the candidates give.
    fn resolve_all<T: Turns, J: Judge>(
        &self,
        turns: &mut T,
        pass: &mut PassSeat,
        token: Token,
        part: Part<'_, J>,
        last: bool,
        out: &mut Found,
    ) -> Option<Token>
        requires at { T.made_at turns.old ≡ self.now }
        requires finding { IsFinding self.now token pass.old }
        requires of_token { AreOfToken self.now.limits.columns token part.candidates.now }
        requires from { part.from ≡ 0 }
        requires room { length part.candidates.now ≤ out.old.room }
        ensures found { FindsIn (J.test part.entry.judge.now) pass.old token part.entry.candidates.now out.old.found out.new.found }
        ensures goes_on { IsOpenOrEnded self.now token last pass.old pass.new result }
        ensures legal { IsLegal self.now.limits pass.new.front }
        ensures number { pass.new.number ≡ pass.old.number }
        ensures at { T.made_at turns.new ≡ self.now }
    {
        let Part {
            candidates,
            from: _,
            judge,
        } = part;
        let mut token = token;
        let mut from = 0;
        while let Some((open, next)) = turns.resolve_turn(
            self,
            pass,
            token,
            Part {
                candidates,
                from,
                judge,
            },
            last,
            out,
        ) {
            if candidates.len() <= next {
                return Some(open);
            }
            token = open;
            from = next;
        }
        None
    }
}

// What a find looks in next: the slices of an entry, and whether they are its last ones.
pub(crate) struct Next<'a> {
    pub token: Token,
    pub entry: &'a FindLayout,
    pub last: bool,
}
