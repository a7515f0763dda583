//! Gets and journals, and how what is kept goes out.
ghost use Rattle.std.specs.Prelude.{◌≡◌, List, IfOk, drop, map};
ghost use Rattle.funnel_c.specs.Answers.{bytes_of_get, code_of_get, length_of_get, place_of_get, sign_of};
ghost use Rattle.funnel_c.specs.Calls.{Gets, KeepsNoJournal, Reads, TellsJournal, became};
ghost use Rattle.funnel_c.specs.Copies.{copied};

use crate::code::Code;
use crate::index::Index;
use engine::{Commit, GetFault, Ids, JournalFault, Memory, Text};
use std::alloc::Global;

impl Index {
    /// Keeps the text of the live document with this number, and tells its place and how many bytes it has.
    pub fn get(&mut self, alloc: Global, id: u64, place: &mut u64, count: &mut u64) -> Code
        ensures { Gets id self.old self.new result (became place.old place.new) (became count.old count.new) }
    {
        let answer = self.solo.get(alloc, id);
        keep_text(answer, &mut self.bytes, place, count)
    }

    /// Keeps the commits after the first so many, of each the number and its sign, and tells how many these are.
    pub fn journal(&mut self, alloc: Global, from: u64, count: &mut u64) -> Code
        ensures { Reads from self.old self.new result (became count.old count.new) }
    {
        match self.solo.journal(alloc, from) {
            Ok(commits) => {
                let many = commits.len() as u64;
                let Ok((ids, signs)) = columns_of(alloc, commits.as_slice()) else {
                    return Code::Memory;
                };
                self.ids = Ids::new(ids);
                self.bytes = signs;
                *count = many;
                Code::Done
            }
            Err(JournalFault::Trimmed(base)) => {
                *count = base;
                Code::Trimmed
            }
            Err(JournalFault::Spent(_)) => Code::Spent,
            Err(JournalFault::Memory) => Code::Memory,
        }
    }
}

fn keep_text(
    answer: Result<(u64, Text), GetFault>,
    bytes: &mut Vec<u8>,
    place: &mut u64,
    count: &mut u64,
) -> Code
    ensures code { result ≡ code_of_get answer }
    ensures bytes { bytes.new.items ≡ bytes_of_get answer bytes.old.items }
    ensures place { place.new ≡ place_of_get answer place.old }
    ensures count { count.new ≡ length_of_get answer count.old }
{
    match answer {
        Ok((at, text)) => {
            *place = at;
            *count = text.len() as u64;
            *bytes = text.into_inner().into_bytes();
            Code::Done
        }
        Err(GetFault::Absent) => Code::Absent,
        Err(GetFault::Spent(_)) => Code::Spent,
        Err(GetFault::Memory) => Code::Memory,
    }
}

// The numbers of the commits' documents, and of each commit its sign.
fn columns_of(alloc: Global, commits: &[Commit]) -> Result<(Vec<u64>, Vec<u8>), Memory>
    ensures { IfOk result (λ columns. (columns.0.items ≡ map (λ commit. commit.id) commits.now) × (columns.1.items ≡ map sign_of commits.now)) }
{
    let ids: Vec<u64> = commits.iter().map(|commit| commit.id).collect(alloc)?;
    let signs: Vec<u8> = commits.iter().map(sign).collect(alloc)?;
    Ok((ids, signs))
}

fn sign(commit: &Commit) -> u8
    ensures { result ≡ sign_of commit.now }
{
    if commit.add { b'+' } else { b'-' }
}

/// Copies what is kept from this place on, as far as there is room for it.
pub fn copy_kept<T: Copy>(kept: &[T], room: &mut [T], from: usize)
    ensures { room.new ≡ copied (drop from kept.now) room.old }
{
    if from < kept.len() {
        let rest = &kept[from..];
        let many = rest.len().min(room.len());
        room[..many].copy_from_slice(&rest[..many]);
    }
}
