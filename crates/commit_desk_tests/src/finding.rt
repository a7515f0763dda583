//! Finds and their ends.
ghost use Rattle.std.specs.Prelude.{◌≡◌, ◌≤◌, IfOk, length};
ghost use Rattle.commit_desk_tests.specs.Tested.{columns_up_to};
ghost use Rattle.funnel_model.specs.Sizes.{columns_of_slice};

use crate::adding::Added;
use crate::caller::{Caller, Finding, Looking};
use crate::setting::{Case, Setting, Two, run, run_wide};
use commit_desk::{DeleteFault, Part, Spent};
use document_store::Found;
use funnel_model::{Candidates, Memory, WordSet};
use row_layout::Layout;
use slice_rule::PoolName;
use std::alloc::Global;
use std::test::*;

/// A find that began is ended, however many events the desk has by then. After that no call is taken, and one that is refused
/// makes no event.
#[test]
fn a_spent_desk_ends_its_find(rt: HostRuntime) -> Result<(), Fail> {
    let ((opened_at, found, refused), _) = run::<Last, _>(&rt, rt.alloc(), 1)?;
    assert_eq!(rt; (opened_at, found.len()), (1, 0));
    assert_eq!(rt;
        refused,
        (Err(DeleteFault::Spent(2)), Err(Spent { events: 2 }))
    );
    Ok(())
}

struct Last;

impl Case for Last {
    type Seen = (u64, Found, (Result<u64, DeleteFault>, Result<u64, Spent>));

    fn run<N: PoolName>(setting: &mut Setting<N>, passes: Two<N>) -> Result<Self::Seen, Fail> {
        let (first, _) = passes;
        let (mut first, opened_at, found) = setting.find_all(first)?;
        let refused = (setting.delete(&mut first, 5), setting.place(&mut first));
        Ok((opened_at, found, refused))
    }
}

/// The columns of the slice, each once.
fn all_columns(alloc: Global, slice: u32, count: u32) -> Result<Candidates, Memory>
    ensures { IfOk result (λ made. made ≡ columns_up_to slice count) }
{
    let mut columns = Candidates::new(Vec::new(alloc));
    for column in 0..count {
        columns.push(slice, column)?;
    }
    Ok(columns)
}

/// No words to be looked for, all columns of the slice, and room for what they give.
fn candidates(
    alloc: Global,
    layout: &Layout,
    slice: u32,
) -> Result<(WordSet, Candidates, Found), Fail>
    ensures columns { IfOk result (λ made. made.1 ≡ columns_up_to slice (columns_of_slice layout.now.config)) }
    ensures room { IfOk result (λ made. length made.1 ≤ made.2.room) }
{
    let rest = WordSet::from_sorted(alloc, &[])?;
    let columns = all_columns(alloc, slice, layout.columns())?;
    let found = Found::with_room(alloc, columns.len())?;
    Ok((rest, columns, found))
}

impl<N: PoolName> Setting<N> {
    /// The number of the event that begins a find of no words, and what it finds. All columns of the slice are its candidates,
    /// since there is no bit to read; two turns look at them.
    pub fn find_all(&mut self, caller: Caller<N>) -> Result<(Caller<N>, u64, Found), Fail> {
        let finding = self.begin(caller)?;
        let opened_at = finding.token.opened_at;
        let looking = self.look_at_all(finding)?;
        let (looking, _) = self.turn(looking);
        let (looking, _) = self.turn(looking);
        let (caller, found) = self.end(looking);
        Ok((caller, opened_at, found))
    }

    /// What a find of no words finds in the slice of each of two entries of its layouts, of which the last comes first.
    pub fn find_two(&mut self, caller: Caller<N>) -> Result<(Found, Found), Fail> {
        let finding = self.begin(caller)?;
        let looking = self.look_at_all(finding)?;
        let (looking, _) = self.turn(looking);
        let (looking, _) = self.turn(looking);
        let (finding, last) = self.next_entry(looking)?;
        let looking = self.look_at_all(finding)?;
        let (looking, _) = self.turn(looking);
        let (looking, _) = self.turn(looking);
        let (_, first) = self.end(looking);
        Ok((last, first))
    }

    /// The find before it looks at its next entry, and what it found in this one.
    fn next_entry(&mut self, looking: Looking<N>) -> Result<(Finding<N>, Found), Fail> {
        let Looking {
            mut seat,
            token,
            entry: _,
            mut layouts,
            rest: _,
            columns: _,
            found,
            from: _,
            of,
        } = looking;
        let Some(entry) = layouts.entries.pop() else {
            self.desk.end_find(&self.pool, &mut seat, token);
            return Err(Fail::new("a second entry"));
        };
        let finding = Finding {
            seat,
            token,
            entry,
            layouts,
            of,
        };
        Ok((finding, found))
    }

    /// A find before its first turn.
    pub fn look_at_all(&mut self, finding: Finding<N>) -> Result<Looking<N>, Fail> {
        let Some(slice) = finding.entry.slices.lowest() else {
            let _ = self.drop_find(finding);
            return Err(Fail::new("a slice that it may read"));
        };
        match candidates(self.alloc, &self.layout, slice) {
            Ok((rest, columns, found)) => {
                let Finding {
                    seat,
                    token,
                    entry,
                    layouts,
                    of,
                } = finding;
                Ok(Looking {
                    seat,
                    token,
                    entry,
                    layouts,
                    rest,
                    columns,
                    found,
                    from: 0,
                    of,
                })
            }
            Err(fail) => {
                let _ = self.drop_find(finding);
                Err(fail)
            }
        }
    }

    /// A turn of the find, and at which column the next goes on.
    pub fn turn(&mut self, looking: Looking<N>) -> (Looking<N>, usize) {
        let Looking {
            mut seat,
            token,
            entry,
            layouts,
            rest,
            columns,
            mut found,
            from,
            of,
        } = looking;
        let part = Part {
            candidates: &columns,
            from,
            judge: &rest,
        };
        let from = self
            .desk
            .resolve_part(&self.pool, &mut seat, &token, part, &mut found);
        let next = Looking {
            seat,
            token,
            entry,
            layouts,
            rest,
            columns,
            found,
            from,
            of,
        };
        (next, from)
    }

    /// The end of the find, and what it found, in the order of the adds.
    pub fn end(&mut self, looking: Looking<N>) -> (Caller<N>, Found) {
        let Looking {
            mut seat,
            token,
            entry: _,
            layouts: _,
            rest: _,
            columns: _,
            mut found,
            from: _,
            of,
        } = looking;
        self.desk.end_find(&self.pool, &mut seat, token);
        found.sort();
        (Caller { seat, of }, found)
    }
}

/// A find of no words finds each live document, in the order of the adds, and none that was dropped or deleted.
#[test]
fn a_find_of_no_words_finds_each_live_document(rt: HostRuntime) -> Result<(), Fail> {
    let ((before, deleted, after), _) = run::<Live, _>(&rt, rt.alloc(), 1 << 62)?;
    assert_eq!(rt; before.as_slice(), [(1, 4), (2, 9), (3, 7)].as_slice());
    assert_eq!(rt; deleted, Ok(4));
    assert_eq!(rt; after.as_slice(), [(1, 4), (3, 7)].as_slice());
    Ok(())
}

struct Live;

impl Case for Live {
    type Seen = (Found, Result<u64, DeleteFault>, Found);

    fn run<N: PoolName>(setting: &mut Setting<N>, passes: Two<N>) -> Result<Self::Seen, Fail> {
        let (first, second) = passes;
        let (first, second, _) = setting.add_both(first, second)?;
        let (second, _) = setting.add(second, 9);
        let (mut second, _) = setting.add(second, 7);
        let (first, _, before) = setting.find_all(first)?;
        let deleted = setting.delete(&mut second, 9);
        let (_, _, after) = setting.find_all(first)?;
        Ok((before, deleted, after))
    }
}

/// A find of 8,192 candidates has two turns, between which another pass is answered. What is deleted and added then doesn't
/// change what the find finds, and the next one sees it.
#[test]
fn a_find_of_many_candidates_has_turns(rt: HostRuntime) -> Result<(), Fail> {
    let ((turns, between, found, after), _) = run_wide::<Turns, _>(&rt, rt.alloc())?;
    assert_eq!(rt; turns, (4_096, 8_192));
    assert_eq!(rt;
        between,
        (Ok(4_100), Ok(4_101), Ok(4_102), Some((4_100, 4_103, false)))
    );
    assert_eq!(rt; (found.len(), are_in_order(&found)), (4_100, true));
    assert_eq!(rt; (after.len(), are_in_order(&after)), (4_099, false));
    Ok(())
}

/// Whether the numbers of the documents are the places of their adds, from 1 on.
pub(crate) fn are_in_order(found: &Found) -> bool {
    let mut place: u64 = 0;
    for pair in found.as_slice() {
        place = place.wrapping_add(1);
        if *pair != (place, place) {
            return false;
        }
    }
    true
}

/// What another pass is answered between two turns: a place, two deletes and an add.
type Between = (
    Result<u64, Spent>,
    Result<u64, DeleteFault>,
    Result<u64, DeleteFault>,
    Added,
);

struct Turns;

impl Case for Turns {
    type Seen = ((usize, usize), Between, Found, Found);

    fn run<N: PoolName>(setting: &mut Setting<N>, passes: Two<N>) -> Result<Self::Seen, Fail> {
        let (first, second) = passes;
        let second = setting.add_numbers(second, 4_100);
        let finding = setting.begin(first)?;
        let looking = setting.look_at_all(finding)?;
        let (looking, one) = setting.turn(looking);
        let between = setting.change(second);
        let (looking, two) = setting.turn(looking);
        let (first, found) = setting.end(looking);
        let (_, _, after) = setting.find_all(first)?;
        Ok(((one, two), between, found, after))
    }
}

impl<N: PoolName> Setting<N> {
    /// Adds so many documents, whose numbers begin at 1.
    fn add_numbers(&mut self, mut caller: Caller<N>, count: u64) -> Caller<N> {
        for id in 0..count {
            caller = self.add(caller, id + 1).0;
        }
        caller
    }

    /// Reads a place, deletes a document of each turn, and adds one.
    fn change(&mut self, mut caller: Caller<N>) -> Between {
        let place = self.place(&mut caller);
        let early = self.delete(&mut caller, 7);
        let late = self.delete(&mut caller, 4_098);
        let (_, added) = self.add(caller, 9_000);
        (place, early, late, added)
    }
}
