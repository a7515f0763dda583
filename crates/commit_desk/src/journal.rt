//! The last commits of a history, and how many documents are live.
ghost use Rattle.std.specs.Prelude.{◌≡◌, ◌+◌, ◌-◌, ◌^◌, ◌<◌, ◌≤◌, [], ◌++◌, IfOk, drop, length, vec_capacity};
ghost use Rattle.commit_desk.specs.Journals.{base_of, with_commit};

use circular_buffer::HeapCircularBuffer;
use funnel_model::{Commit, Commits, Memory};
use std::alloc::Global;
use std::marker::Model;

/// How many commits there were, how many documents are live after them, and the last commits, as many as are kept. A new commit takes the
/// place of the oldest one. Only `new` and `read` take memory.
#[derive(Drop)]
pub struct Journal {
    place: u64,
    documents: u64,
    kept: HeapCircularBuffer<Commit>,
    room: Vec<Commit>,
}

impl Model for Journal {
    ghost use Rattle.std.specs.Prelude.{vec_capacity};
    ghost use Rattle.commit_desk.specs.Journals.{JournalState, HasJournalRoom};

    ghost Value = { JournalState };

    ghost view = { λ j. record { most = j.kept.capacity; place = j.place; documents = j.documents; kept = j.kept.items } };

    ghost invariant = { λ j. HasJournalRoom (record { most = j.kept.capacity; place = j.place; documents = j.documents; kept = j.kept.items })
        j.room.items (vec_capacity j.room) };
}

impl Journal {
    /// No commit, with room for so many.
    pub(crate) fn new(alloc: Global, most: u64) -> Result<Journal, Memory>
        ensures { IfOk result (λ journal. journal ≡ record { most = most; place = 0; documents = 0; kept = [] }) }
    {
        Ok(Journal {
            place: 0,
            documents: 0,
            kept: HeapCircularBuffer::with_capacity(alloc, most as usize)?,
            room: Vec::with_capacity(alloc, most as usize)?,
        })
    }

    /// How many commits there were.
    pub(crate) fn place(&self) -> u64
        ensures { result ≡ self.now.place }
    {
        self.place
    }

    /// How many documents are live after them.
    pub(crate) fn documents(&self) -> u64
        ensures { result ≡ self.now.documents }
    {
        self.documents
    }

    /// How many there were before those that are kept.
    pub(crate) fn base(&self) -> u64
        ensures { result ≡ base_of self.now }
    {
        self.place - self.kept.len() as u64
    }

    /// One more commit, after which so many documents are live.
    pub(crate) fn push(&mut self, commit: Commit, documents: u64)
        requires { self.old.place < 2 ^ 63 - 1 }
        ensures { self.new ≡ with_commit self.old commit documents }
    {
        self.kept.push_back(commit);
        self.place += 1;
        self.documents = documents;
    }

    /// The commits after the first so many, all of which are kept.
    pub(crate) fn read(&self, alloc: Global, from: u64) -> Result<Commits, Memory>
        requires { base_of self.now ≤ from }
        ensures { IfOk result (λ commits. commits ≡ drop (from - base_of self.now) self.now.kept) }
    {
        let skipped = ((from - self.base()) as usize).min(self.kept.len());
        let room = Vec::with_capacity(alloc, self.kept.len() - skipped)?;
        Ok(Commits::new(items_after(&self.kept, skipped, room)))
    }

    /// How many commits there were before those that are kept, and these.
    pub(crate) fn into_parts(self) -> (u64, Commits)
        ensures base { result.0 ≡ base_of self }
        ensures kept { result.1 ≡ self.kept }
    {
        let base = self.base();
        let Journal { kept, room, .. } = self;
        (base, Commits::new(items_after(&kept, 0, room)))
    }
}

// What the ring has after the first so many. It is put into `room`, which is empty and has room for it.
fn items_after(ring: &HeapCircularBuffer<Commit>, skipped: usize, room: Vec<Commit>) -> Vec<Commit>
    requires empty { room.items ≡ [] }
    requires enough { length ring.now.items - skipped ≤ vec_capacity room }
    ensures { result.items ≡ drop skipped ring.now.items }
{
    let (older, newer) = ring.as_slices();
    let first = skipped.min(older.len());
    let second = (skipped - first).min(newer.len());
    with_more(with_more(room, &older[first..]), &newer[second..])
}

// The commits with more behind them, for which there is room.
fn with_more(commits: Vec<Commit>, more: &[Commit]) -> Vec<Commit>
    requires { length commits.items + length more.now ≤ vec_capacity commits }
    ensures items { result.items ≡ commits.items ++ more.now }
    ensures capacity { vec_capacity result ≡ vec_capacity commits }
{
    let mut commits = commits;
    for commit in more {
        commits.push_reserved(*commit);
    }
    commits
}
