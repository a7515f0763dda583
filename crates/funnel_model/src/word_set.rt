ghost use Rattle.std.specs.Prelude.{◌≡◌, ◌<◌, ◌≤◌, ℕ, List, length, map, slice_index_or, IfOk};
ghost use Rattle.std.specs.Iterator.{at_most};
ghost use Rattle.std.specs.List.{list_any, slice_range};
ghost use Rattle.std.specs.Map.Iter.{TakesFirst, ShowsInOrder, deref};
ghost use Rattle.std.specs.Str.{bytes_eq};
ghost use Rattle.funnel_model.specs.Words.{IsRising};
ghost use Rattle.funnel_model.specs.WordSets.{pieces, EndAt};

use crate::memory::Memory;
use std::alloc::Global;
use std::cmp::Ordering;
use std::marker::Model;

/// Folded words in byte order, each once. Contracts see them as the list of their bytes.
///
/// The words lie one after the other in one buffer, and the end of each in another.
#[derive(Debug, Drop)]
pub struct WordSet {
    buffer: Vec<u8>,
    ends: Vec<u32>,
}

impl Model for WordSet {
    ghost Value = { List (List ℕ) };

    ghost view = { λ s. pieces 0 s.ends.items s.buffer.items };

    ghost invariant = { λ s. EndAt 0 s.ends.items (length s.buffer.items) × IsRising (pieces 0 s.ends.items s.buffer.items) };
}

impl WordSet {
    /// The words that lie in the buffer, each up to its end.
    pub fn new(buffer: Vec<u8>, ends: Vec<u32>) -> Self
        requires within { EndAt 0 ends.items (length buffer.items) }
        requires rising { IsRising (pieces 0 ends.items buffer.items) }
        ensures { result ≡ pieces 0 ends.items buffer.items }
    {
        WordSet { buffer, ends }
    }

    /// Copies words that stand in byte order, each once. It takes memory twice, and as much as the words need.
    ///
    /// Words of 4 GiB or more find no memory.
    pub fn from_sorted(alloc: Global, words: &[&[u8]]) -> Result<WordSet, Memory>
        requires { IsRising (map (λ w. w.now) words.now) }
        ensures { IfOk result (λ set. set ≡ map (λ w. w.now) words.now) }
    {
        let mut buffer = Vec::with_capacity(alloc, total_len(words))?;
        let mut ends = Vec::with_capacity(alloc, words.len())?;
        for word in words {
            buffer.extend_from_slice(word)?;
            let Ok(end) = u32::try_from(buffer.len()) else {
                return Err(Memory);
            };
            ends.push(end)?;
        }
        Ok(WordSet { buffer, ends })
    }

    /// The same words in buffers of their own.
    pub fn copy(&self, alloc: Global) -> Result<WordSet, Memory>
        ensures { IfOk result (λ set. set ≡ self.now) }
    {
        let mut buffer = Vec::with_capacity(alloc, self.buffer.len())?;
        buffer.extend_from_slice(&self.buffer)?;
        let mut ends = Vec::with_capacity(alloc, self.ends.len())?;
        ends.extend_from_slice(&self.ends)?;
        Ok(WordSet { buffer, ends })
    }

    /// The number of words.
    pub fn len(&self) -> usize
        ensures count { result ≡ length self.now }
        ensures rising { IsRising self.now }
    {
        self.ends.len()
    }

    /// The words in byte order.
    pub fn iter(&self) -> Words<'_>
        ensures words { result ≡ self.now }
        ensures rising { IsRising self.now }
        ensures runs { ShowsInOrder (deref {X = List ℕ}) }
    {
        Words {
            buffer: self.buffer.as_slice(),
            start: 0,
            ends: self.ends.as_slice(),
        }
    }

    /// Whether the word is one of the set. It is looked up by a binary search.
    pub fn contains(&self, word: &[u8]) -> bool
        ensures { result ≡ list_any (bytes_eq word.now) self.now }
    {
        has_word(self.buffer.as_slice(), self.ends.as_slice(), word)
    }

    /// The buffers that `new` was given.
    pub fn into_inner(self) -> (Vec<u8>, Vec<u32>)
        ensures { pieces 0 result.1.items result.0.items ≡ self }
    {
        (self.buffer, self.ends)
    }
}

/// The number of bytes of all words.
fn total_len(words: &[&[u8]]) -> usize {
    let mut total: usize = 0;
    for word in words {
        total = total.saturating_add(word.len());
    }
    total
}

/// Whether one of the pieces of the buffer, which are words in byte order, is this word.
fn has_word(buffer: &[u8], ends: &[u32], word: &[u8]) -> bool
    requires within { EndAt 0 ends.now (length buffer.now) }
    requires rising { IsRising (pieces 0 ends.now buffer.now) }
    ensures { result ≡ list_any (bytes_eq word.now) (pieces 0 ends.now buffer.now) }
{
    let mut low = 0;
    let mut high = ends.len();
    while low < high {
        let middle = low + (high - low) / 2;
        match word_at(buffer, ends, middle).cmp(word) {
            Ordering::Less => low = middle + 1,
            Ordering::Greater => high = middle,
            Ordering::Equal => return true,
        }
    }
    false
}

/// The piece of the buffer with this index.
fn word_at<'a>(buffer: &'a [u8], ends: &[u32], index: usize) -> &'a [u8]
    requires in_range { index < length ends.now }
    requires within { EndAt 0 ends.now (length buffer.now) }
    ensures { result.now ≡ slice_index_or (pieces 0 ends.now buffer.now) index result.now }
{
    let end = ends[index] as usize;
    if index == 0 {
        return between(buffer, 0, end);
    }
    between(buffer, ends[index - 1] as usize, end)
}

/// The bytes from the start to the end.
fn between(buffer: &[u8], start: usize, end: usize) -> &[u8]
    requires in_order { start ≤ end }
    requires within { end ≤ length buffer.now }
    ensures { result.now ≡ slice_range buffer.now start end }
{
    &buffer[start..end]
}

/// A walk over the words of a set, in byte order. Contracts see it as the list of the words that are left.
#[derive(Drop)]
pub struct Words<'a> {
    buffer: &'a [u8],
    start: usize,
    ends: &'a [u32],
}

impl<'a> Model for Words<'a> {
    ghost Value = { List (List ℕ) };

    ghost view = { λ w. pieces w.start w.ends.now w.buffer.now };

    ghost invariant = { λ w. EndAt w.start w.ends.now (length w.buffer.now) };
}

impl<'a> Iterator for Words<'a> {
    type Item = &'a [u8];

    ghost next_gives = { TakesFirst deref };

    ghost remaining = { λ words. at_most (length words) };

    fn next(&mut self) -> Option<&'a [u8]> {
        let (first, rest) = self.ends.split_first()?;
        let end = *first as usize;
        let word = between(self.buffer, self.start, end);
        self.start = end;
        self.ends = rest;
        Some(word)
    }

    fn size_hint(&self) -> (usize, Option<usize>) {
        let len = self.ends.len();
        (len, Some(len))
    }
}
