//! Finds, queries, counts, and the newest and oldest of what a search keeps.
ghost use Rattle.std.specs.Prelude.{◌≡◌};
ghost use Rattle.line_proto.specs.Requests.{sought};
ghost use Rattle.funnel_c.specs.Answers.{code_of_find, code_of_search, code_of_search_fault, count_of, ids_of, ids_of_some, number_of_count, number_of_query, number_of_search_fault, number_of_some, sought_by};
ghost use Rattle.funnel_c.specs.Calls.{Counts, Finds, IfText, KeepsNewest, KeepsOldest, Queries, Stays, became};

use crate::code::Code;
use crate::index::Index;
use engine::{FindFault, Ids, Search, SearchFault, SomeFound};
use std::alloc::Global;
use std::str;

impl Index {
    /// Keeps the numbers of the live documents that have every word of the query, and tells how many these are.
    pub fn find(&mut self, alloc: Global, query: &[u8], count: &mut u64) -> Code
        ensures { IfText query.now self.old self.new result (Stays (became count.old count.new))
            (Finds query.now self.old self.new result (became count.old count.new)) }
    {
        let Ok(query) = str::from_utf8(query) else {
            return Code::NotUtf8;
        };
        let answer = self.solo.find(alloc, query);
        keep_found(answer, &mut self.ids, count)
    }

    /// Keeps the numbers of the live documents that the expression keeps, and tells how many these are, or at which byte the text is none.
    pub fn query(&mut self, alloc: Global, text: &[u8], count: &mut u64) -> Code
        ensures { IfText text.now self.old self.new result (Stays (became count.old count.new))
            (Queries text.now self.old self.new result (became count.old count.new)) }
    {
        let Ok(text) = str::from_utf8(text) else {
            return Code::NotUtf8;
        };
        let answer = self.solo.query(alloc, text);
        keep_kept(answer, &mut self.ids, count)
    }

    /// Tells how many live documents have every word of the text, or are kept by it as an expression.
    pub fn count(&mut self, alloc: Global, words: bool, text: &[u8], count: &mut u64) -> Code
        ensures { IfText text.now self.old self.new result (Stays (became count.old count.new))
            (Counts words text.now self.old self.new result (became count.old count.new)) }
    {
        let Ok(text) = str::from_utf8(text) else {
            return Code::NotUtf8;
        };
        let kept = search_by(words, text);
        let answer = self.solo.count(alloc, kept);
        tell_count(answer, count)
    }

    /// Keeps the numbers of at most so many of them that were added last, the newest first, and tells how many there are of all.
    pub fn newest(
        &mut self,
        alloc: Global,
        most: u64,
        words: bool,
        text: &[u8],
        count: &mut u64,
    ) -> Code
        ensures { IfText text.now self.old self.new result (Stays (became count.old count.new))
            (KeepsNewest most words text.now self.old self.new result (became count.old count.new)) }
    {
        let Ok(text) = str::from_utf8(text) else {
            return Code::NotUtf8;
        };
        let kept = search_by(words, text);
        let answer = self.solo.newest(alloc, most, kept);
        keep_some(answer, &mut self.ids, count)
    }

    /// Keeps the numbers of at most so many of them that were added first, the oldest first, and tells how many there are of all.
    pub fn oldest(
        &mut self,
        alloc: Global,
        most: u64,
        words: bool,
        text: &[u8],
        count: &mut u64,
    ) -> Code
        ensures { IfText text.now self.old self.new result (Stays (became count.old count.new))
            (KeepsOldest most words text.now self.old self.new result (became count.old count.new)) }
    {
        let Ok(text) = str::from_utf8(text) else {
            return Code::NotUtf8;
        };
        let kept = search_by(words, text);
        let answer = self.solo.oldest(alloc, most, kept);
        keep_some(answer, &mut self.ids, count)
    }
}

// What the text asks for: documents that have its words, or what it keeps as an expression.
fn search_by(words: bool, text: &str) -> Search<'_>
    ensures { sought result ≡ sought_by words text.now }
{
    if words {
        Search::Words(text)
    } else {
        Search::Query(text)
    }
}

fn keep_found(answer: Result<Ids, FindFault>, ids: &mut Ids, count: &mut u64) -> Code
    ensures code { result ≡ code_of_find answer }
    ensures ids { ids.new ≡ ids_of answer ids.old }
    ensures count { count.new ≡ count_of answer count.old }
{
    match answer {
        Ok(found) => {
            *count = found.len() as u64;
            *ids = found;
            Code::Done
        }
        Err(FindFault::Spent(_)) => Code::Spent,
        Err(FindFault::Memory) => Code::Memory,
    }
}

fn keep_kept(answer: Result<Ids, SearchFault>, ids: &mut Ids, count: &mut u64) -> Code
    ensures code { result ≡ code_of_search answer }
    ensures ids { ids.new ≡ ids_of answer ids.old }
    ensures count { count.new ≡ number_of_query answer count.old }
{
    match answer {
        Ok(found) => {
            *count = found.len() as u64;
            *ids = found;
            Code::Done
        }
        Err(fault) => tell_search_fault(fault, count),
    }
}

fn keep_some(answer: Result<SomeFound, SearchFault>, ids: &mut Ids, count: &mut u64) -> Code
    ensures code { result ≡ code_of_search answer }
    ensures ids { ids.new ≡ ids_of_some answer ids.old }
    ensures count { count.new ≡ number_of_some answer count.old }
{
    match answer {
        Ok(found) => {
            *count = found.count;
            *ids = found.ids;
            Code::Done
        }
        Err(fault) => tell_search_fault(fault, count),
    }
}

fn tell_count(answer: Result<u64, SearchFault>, count: &mut u64) -> Code
    ensures code { result ≡ code_of_search answer }
    ensures count { count.new ≡ number_of_count answer count.old }
{
    match answer {
        Ok(many) => {
            *count = many;
            Code::Done
        }
        Err(fault) => tell_search_fault(fault, count),
    }
}

fn tell_search_fault(fault: SearchFault, number: &mut u64) -> Code
    ensures code { result ≡ code_of_search_fault fault }
    ensures number { number.new ≡ number_of_search_fault fault number.old }
{
    match fault {
        SearchFault::Syntax(at) => {
            *number = at;
            Code::Syntax
        }
        SearchFault::Deep(at) => {
            *number = at;
            Code::Deep
        }
        SearchFault::Spent(_) => Code::Spent,
        SearchFault::Memory => Code::Memory,
    }
}
