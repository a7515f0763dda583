ghost use Rattle.std.specs.Prelude.{◌≡◌, ◌+◌, ◌<◌, ◌^◌, ◌↔◌, [], length, replicate, IfOk, IfSome, IsTrue, MatchOption};
ghost use Rattle.document_store.specs.Leaving.{IsLeaving, TakesFirst, last_with, times_on, with_ended, with_kept};

use funnel_model::Memory;
use std::alloc::Global;
use std::marker::Model;

/// The link of the last column of a list.
const LAST: u32 = u32::MAX;

/// The link of a column that is on no list.
const NOWHERE: u32 = u32::MAX - 1;

/// Columns that are over and whose documents are kept still: for each pass those for whose documents its find may ask, and those whose
/// documents are to be freed. A column is a number among those of all slices, and on one list at most. Lists are laid out by links, so that
/// no call takes longer where they are long. Only `new` takes memory.
#[derive(Debug, Drop)]
pub struct Leaving {
    // The next column of each column's list.
    links: Vec<u32>,
    // The first and the last column of each pass's list.
    first: Vec<u32>,
    last: Vec<u32>,
    // The first column of those that are to be freed.
    to_free: u32,
}

impl Model for Leaving {
    ghost use Rattle.document_store.specs.Leaving.{AreLinked, LeavingState, leaving_by};

    ghost Value = { LeavingState };

    ghost view = { λ l. leaving_by l.links.items l.first.items l.to_free };

    ghost invariant = { λ l. AreLinked l.links.items l.first.items l.last.items l.to_free (leaving_by l.links.items l.first.items l.to_free) };
}

impl Leaving {
    /// No column of so many, for so many passes.
    pub fn new(alloc: Global, passes: u32, columns: u32) -> Result<Leaving, Memory>
        requires { columns + 1 < 2 ^ 32 }
        ensures asked { IfOk result (λ l. l.asked ≡ replicate passes []) }
        ensures to_free { IfOk result (λ l. l.to_free ≡ []) }
        ensures columns { IfOk result (λ l. l.columns ≡ columns) }
    {
        Ok(Leaving {
            links: vec![in alloc; NOWHERE; columns as usize]?,
            first: vec![in alloc; LAST; passes as usize]?,
            last: vec![in alloc; LAST; passes as usize]?,
            to_free: LAST,
        })
    }

    /// Whether the column is on a list.
    pub fn has(&self, column: u32) -> bool
        requires { column < self.now.columns }
        ensures { IsTrue result ↔ IsLeaving self.now column }
    {
        self.links[column as usize] != NOWHERE
    }

    /// Keeps a column that is on no list for the find of a pass.
    pub fn keep_for(&mut self, pass: u32, column: u32)
        requires pass { pass < length self.old.asked }
        requires column { column < self.old.columns }
        requires on_none { times_on self.old column ≡ 0 }
        ensures { self.new ≡ with_kept self.old pass column }
    {
        let first = self.first[pass as usize];
        let last = last_with(first, column, self.last[pass as usize]);
        self.last[pass as usize] = last;
        self.links[column as usize] = first;
        self.first[pass as usize] = column;
    }

    /// The find of the pass has ended: the columns that were kept for it are to be freed.
    pub fn end(&mut self, pass: u32)
        requires { pass < length self.old.asked }
        ensures { self.new ≡ with_ended self.old pass }
    {
        let first = self.first[pass as usize];
        if first == LAST {
            return;
        }
        let last = self.last[pass as usize];
        self.links[last as usize] = self.to_free;
        self.to_free = first;
        self.first[pass as usize] = LAST;
    }

    /// Takes the first column off that is to be freed, where there is one.
    pub fn take_first(&mut self) -> Option<u32>
        ensures first { MatchOption result ((self.old.to_free ≡ []) × (self.new ≡ self.old)) (λ column. TakesFirst self.old column self.new) }
        ensures within { IfSome result (λ column. column < self.old.columns) }
        ensures off { IfSome result (λ column. times_on self.new column ≡ 0) }
    {
        let column = self.to_free;
        if column == LAST {
            return None;
        }
        self.to_free = self.links[column as usize];
        self.links[column as usize] = NOWHERE;
        Some(column)
    }

    /// Whether some column is to be freed.
    pub fn has_more(&self) -> bool
        ensures { IsTrue result ↔ (self.now.to_free ≡ [] → ⊥) }
    {
        self.to_free != LAST
    }
}

// The last column of a list that is begun with another, where these are the first and the last one before.
fn last_with(first: u32, column: u32, last: u32) -> u32
    ensures { result ≡ last_with first column last }
{
    if first == LAST { column } else { last }
}
