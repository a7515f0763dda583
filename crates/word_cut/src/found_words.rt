ghost use Rattle.std.specs.Prelude.{◌≡◌, ◌↔◌, ◌⊎◌, ℕ, ◌≤◌, List, [], length, map, slice_range, IfOk, OnOk};
ghost use Rattle.std.specs.List.{Contains};
ghost use Rattle.funnel_model.specs.Words.{IsRising};

use crate::fault::WordFault;
use crate::keyed_word::KeyedWord;
use funnel_model::WordSet;
use std::alloc::{AllocError, Global};
use std::marker::Model;

/// How many hashes of words there are.
const HASHES: usize = 256;

/// The words of a text as they come, without most of those that came before. Contracts see the list of their bytes.
#[derive(Drop)]
pub(crate) struct FoundWords<'a> {
    words: Vec<KeyedWord<'a>>,
    /// Where the last word with each hash stands, as far as that was noted.
    last: [u16; HASHES],
}

impl<'a> Model for FoundWords<'a> {
    ghost Value = { List (List ℕ) };

    ghost view = { λ f. map (λ word. word.bytes.now) f.words.items };
}

impl<'a> FoundWords<'a> {
    /// No words, with room for so many.
    pub(crate) fn new(alloc: Global, room: usize) -> Result<FoundWords<'a>, AllocError>
        ensures { IfOk result (λ found. found ≡ []) }
    {
        Ok(FoundWords {
            words: Vec::with_capacity(alloc, room)?,
            last: [0; HASHES],
        })
    }

    /// Takes in the word that stands there in a text. One that is the last one with its hash is passed over.
    #[inline(always)]
    pub(crate) fn take_in(
        &mut self,
        text: &'a [u8],
        start: usize,
        end: usize,
    ) -> Result<(), AllocError>
        requires in_order { start ≤ end }
        requires within { end ≤ length text.now }
        ensures { OnOk result ((word : List ℕ) → Contains self.new word ↔ (Contains self.old word ⊎ (word ≡ slice_range text.now start end))) }
    {
        let word = KeyedWord::at(text, start, end);
        let hash = word.hash() as usize;
        let last = self.last[hash] as usize;
        if last < self.words.len() && self.words[last].is(&word) {
            return Ok(());
        }
        self.last[hash] = (self.words.len() % 65_536) as u16;
        self.words.push(word)?;
        Ok(())
    }

    /// The set of the words.
    pub(crate) fn into_set(self, alloc: Global) -> Result<WordSet, WordFault>
        ensures { IfOk result (λ set. (word : List ℕ) → Contains set word ↔ Contains self.entry word) }
    {
        let mut words = self.words;
        words.sort_unstable_by(|a, b| a.order(b));
        words.dedup_by(|a, b| a.is(b));
        set_of(alloc, &words)
    }
}

/// A set of words that stand in byte order, each once. It takes memory as they need it.
fn set_of(alloc: Global, words: &[KeyedWord<'_>]) -> Result<WordSet, WordFault>
    requires { IsRising (map (λ w. w.bytes.now) words.now) }
    ensures { IfOk result (λ set. set ≡ map (λ w. w.bytes.now) words.now) }
{
    let mut buffer = Vec::with_capacity(alloc, total_len(words))?;
    let mut ends = Vec::with_capacity(alloc, words.len())?;
    for word in words {
        buffer.extend_from_slice(word.bytes)?;
        let Ok(end) = u32::try_from(buffer.len()) else {
            return Err(WordFault::Memory);
        };
        ends.push(end)?;
    }
    Ok(WordSet::new(buffer, ends))
}

/// The number of bytes of all words.
fn total_len(words: &[KeyedWord<'_>]) -> usize {
    let mut total: usize = 0;
    for word in words {
        total = total.saturating_add(word.bytes.len());
    }
    total
}
