//! Answers of two passes on one thread: refusals, a note that is met, a document that is dropped, and what a find scans.
use crate::caller::{Caller, Refused, is_range};
use crate::hooked::{Hook, Hooked};
use crate::setting::{Case, config, expect, expect_in_a_slice, few_rows};
use crate::steps::{InTurns, Meanwhile, Step};
use engine::{DeleteFault, PoolName, Recycled};
use funnel_model::{Block, Commit};
use std::sync::Wait;
use std::test::*;

static REFUSALS: InTurns = InTurns(&[
    Step::Add(1, "x", Ok(1)),
    Step::Add(1, "y", Err(Refused::Present(1))),
    Step::Delete(2, Err(DeleteFault::Absent)),
    Step::Delete(1, Ok(2)),
    Step::Add(2, "x", Ok(3)),
    Step::Trimmed(1, 2),
    Step::Journal(2, &[Commit { add: true, id: 2 }]),
]);

/// An engine whose journal keeps one commit.
#[test]
fn each_refusal_is_told(rt: HostRuntime) {
    let alloc = rt.alloc();
    expect(&rt, alloc, config(alloc, 2, 1, 1, 1), &REFUSALS)
}

/// The last pass sees what another one had seen when it made its note, with no call between.
#[test]
fn a_note_is_met(rt: HostRuntime) {
    expect_in_a_slice(&rt, rt.alloc(), &Notes)
}

struct Notes;

impl Case for Notes {
    fn holds<N: PoolName, R: Wait>(
        &self,
        caller: &mut Caller<'_, N, R>,
        others: &mut Vec<Caller<'_, N, R>>,
    ) -> bool {
        match others.first_mut() {
            Some(other) => {
                let added = other.add(7, "x") == Ok(1);
                caller.see_as_much(other);
                added && caller.finds("x", (7, 8))
            }
            None => false,
        }
    }
}

/// Pass 0 adds the document before the column of the last pass is written.
static DROPPED: Meanwhile = Meanwhile {
    before: &[],
    add: (4, "x", Err(Refused::Present(1))),
    meanwhile: &[Step::Add(4, "y", Ok(1))],
    after: &[
        Step::FindAll("y", (4, 5)),
        Step::FindAll("x", (0, 0)),
        Step::AddAll((101, 163), 1),
        Step::Add(8, "x", Err(Refused::Full(Some(Block::Live { column: 1 })))),
        Step::Delete(4, Ok(64)),
        Step::DeleteAll((101, 163), 64),
        Step::Recycle(Recycled::Done(0)),
    ],
};

/// Two passes add one number. The one that claims its column first commits last, and its document is dropped. Its column
/// keeps nothing out of the slice, which is used again once all others are deleted.
#[test]
fn the_later_commit_of_a_number_is_dropped(rt: HostRuntime) {
    expect_in_a_slice(&rt, rt.alloc(), &DROPPED)
}

/// Sees whether the candidates of a find are the columns 0 and 1 of slice 0.
#[derive(Drop)]
struct Watched {
    both: bool,
}

impl Hook for Watched {
    fn clears(&mut self) {}

    fn writes(&mut self) {}

    fn scans(&mut self) {}

    fn scanned(&mut self, candidates: &[(u32, u32)]) {
        self.both = match candidates {
            [(a, b), (c, d)] => *a == 0 && *b == 0 && *c == 0 && *d == 1,
            _ => false,
        };
    }
}

/// All words have the same rows, so each document is a candidate of each find. What is found is right all the same.
#[test]
fn a_candidate_without_the_word_is_not_found(rt: HostRuntime) {
    let alloc = rt.alloc();
    expect(&rt, alloc, few_rows(alloc), &FewRows)
}

struct FewRows;

impl Case for FewRows {
    fn holds<N: PoolName, R: Wait>(
        &self,
        caller: &mut Caller<'_, N, R>,
        _: &mut Vec<Caller<'_, N, R>>,
    ) -> bool {
        let added = caller.add(1, "cat") == Ok(1) && caller.add(2, "dog") == Ok(2);
        added && finds_cat(caller)
    }
}

fn finds_cat<N: PoolName, R: Wait>(caller: &mut Caller<'_, N, R>) -> bool {
    let hook = Watched { both: false };
    let mut work = Hooked { hook };
    match caller.find_by("cat", &mut work) {
        Ok(ids) => is_range(&ids, (1, 2)) && work.hook.both,
        Err(_) => false,
    }
}
