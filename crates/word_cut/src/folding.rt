ghost use Rattle.std.specs.Prelude.{◌≡◌, ◌↔◌, ◌++◌, ℕ, List, length, map, IfOk, OnOk};
ghost use Rattle.std.specs.List.{Contains};
ghost use Rattle.std.specs.Char.{to_ascii_lowercase};
ghost use Rattle.funnel_model.specs.Words.{folded, words};
ghost use Rattle.funnel_model.specs.WordSets.{pieces, EndAt};

use crate::found_words::FoundWords;
use caseless::Caseless;
use std::alloc::{AllocError, Global};
use std::marker::Model;
use unicode_segmentation::UnicodeSegmentation;

/// The folded words of a text as they come in it, one after the other in one buffer. Contracts see their list.
#[derive(Drop)]
pub struct FoldedWords {
    buffer: Vec<u8>,
    ends: Vec<usize>,
}

impl Model for FoldedWords {
    ghost Value = { List (List ℕ) };

    ghost view = { λ f. pieces 0 f.ends.items f.buffer.items };

    ghost invariant = { λ f. EndAt 0 f.ends.items (length f.buffer.items) };
}

/// Cuts the text, and folds each word.
pub fn fold_words(alloc: Global, text: &str) -> Result<FoldedWords, AllocError>
    ensures { IfOk result (λ found. found ≡ words text.now) }
{
    let mut buffer = Vec::with_capacity(alloc, text.len())?;
    let mut ends = Vec::with_capacity(alloc, text.len().div_ceil(2))?;
    for word in text.unicode_words() {
        push_folded(&mut buffer, word)?;
        ends.push(buffer.len())?;
    }
    Ok(FoldedWords { buffer, ends })
}

impl FoldedWords {
    /// The words, without most of those that came before.
    pub(crate) fn found<'a>(&'a self, alloc: Global) -> Result<FoundWords<'a>, AllocError>
        ensures { IfOk result (λ found. (word : List ℕ) → Contains found word ↔ Contains self.now word) }
    {
        let buffer = self.buffer.as_slice();
        let mut found = FoundWords::new(alloc, self.ends.len())?;
        let mut start = 0;
        for end in self.ends.as_slice() {
            found.take_in(buffer, start, *end)?;
            start = *end;
        }
        Ok(found)
    }
}

/// Appends the fold of the word.
fn push_folded(buffer: &mut Vec<u8>, word: &str) -> Result<(), AllocError>
    ensures { OnOk result (buffer.new.items ≡ buffer.old.items ++ folded word.now) }
{
    if word.is_ascii() {
        return push_lowercase(buffer, word.as_bytes());
    }
    for c in word.chars().default_case_fold() {
        let mut utf8 = [0; 4];
        buffer.extend_from_slice(c.encode_utf8(&mut utf8).as_bytes())?;
    }
    Ok(())
}

/// Appends the bytes with ASCII's capital letters turned into small ones.
fn push_lowercase(buffer: &mut Vec<u8>, bytes: &[u8]) -> Result<(), AllocError>
    ensures { OnOk result (buffer.new.items ≡ buffer.old.items ++ map to_ascii_lowercase bytes.now) }
{
    let start = buffer.len();
    buffer.extend_from_slice(bytes)?;
    buffer[start..].make_ascii_lowercase();
    Ok(())
}
