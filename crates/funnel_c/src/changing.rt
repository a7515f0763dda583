//! Adds, puts and deletes.
ghost use Rattle.std.specs.Prelude.{◌≡◌};
ghost use Rattle.funnel_c.specs.Answers.{code_of_add, code_of_delete, code_of_put, number_if_ok, place_of_add, place_of_put, replaced_of_put};
ghost use Rattle.funnel_c.specs.Calls.{Adds, Deletes, IfText, Puts, Stays, became};

use crate::code::Code;
use crate::index::Index;
use engine::{AddFault, DeleteFault, Put, PutFault};
use std::alloc::Global;
use std::str;

impl Index {
    /// Adds a document, and tells the place of the add.
    pub fn add(&mut self, alloc: Global, id: u64, text: &[u8], place: &mut u64) -> Code
        ensures { IfText text.now self.old self.new result (Stays (became place.old place.new))
            (Adds id text.now self.old self.new result (became place.old place.new)) }
    {
        let Ok(text) = str::from_utf8(text) else {
            return Code::NotUtf8;
        };
        let answer = self.solo.add(alloc, id, text);
        tell_add(answer, place)
    }

    /// Adds a document, in the place of the live one with its number where there is one. Tells the place of the add, and how many documents
    /// it replaced.
    pub fn put(
        &mut self,
        alloc: Global,
        id: u64,
        text: &[u8],
        place: &mut u64,
        replaced: &mut u64,
    ) -> Code
        ensures { IfText text.now self.old self.new result (Stays (became place.old place.new) × Stays (became replaced.old replaced.new))
            (Puts id text.now self.old self.new result (became place.old place.new) (became replaced.old replaced.new)) }
    {
        let Ok(text) = str::from_utf8(text) else {
            return Code::NotUtf8;
        };
        let answer = self.solo.put(alloc, id, text);
        tell_put(answer, place, replaced)
    }

    /// Deletes the live document with this number, and tells the place of the delete.
    pub fn delete(&mut self, id: u64, place: &mut u64) -> Code
        ensures { Deletes id self.old self.new result (became place.old place.new) }
    {
        let answer = self.solo.delete(id);
        tell_delete(answer, place)
    }
}

fn tell_add(answer: Result<u64, AddFault>, place: &mut u64) -> Code
    ensures code { result ≡ code_of_add answer }
    ensures place { place.new ≡ place_of_add answer place.old }
{
    match answer {
        Ok(at) => {
            *place = at;
            Code::Done
        }
        Err(AddFault::Present(at)) => {
            *place = at;
            Code::Present
        }
        Err(AddFault::Full(_)) => Code::Full,
        Err(AddFault::Spent(_)) => Code::Spent,
        Err(AddFault::Memory) => Code::Memory,
    }
}

fn tell_put(answer: Result<Put, PutFault>, place: &mut u64, replaced: &mut u64) -> Code
    ensures code { result ≡ code_of_put answer }
    ensures place { place.new ≡ place_of_put answer place.old }
    ensures replaced { replaced.new ≡ replaced_of_put answer replaced.old }
{
    match answer {
        Ok(Put::Added(at)) => {
            *place = at;
            *replaced = 0;
            Code::Done
        }
        Ok(Put::Replaced(at)) => {
            *place = at;
            *replaced = 1;
            Code::Done
        }
        Err(PutFault::Full(_)) => Code::Full,
        Err(PutFault::Spent(_)) => Code::Spent,
        Err(PutFault::Memory) => Code::Memory,
    }
}

fn tell_delete(answer: Result<u64, DeleteFault>, place: &mut u64) -> Code
    ensures code { result ≡ code_of_delete answer }
    ensures place { place.new ≡ number_if_ok answer place.old }
{
    match answer {
        Ok(at) => {
            *place = at;
            Code::Done
        }
        Err(DeleteFault::Absent) => Code::Absent,
        Err(DeleteFault::Spent(_)) => Code::Spent,
    }
}
