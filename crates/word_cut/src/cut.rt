ghost use Rattle.std.specs.Prelude.{◌↔◌, ℕ, List, IfOk};
ghost use Rattle.std.specs.List.{Contains};
ghost use Rattle.std.specs.Str.{IsAscii};
ghost use Rattle.funnel_model.specs.Words.{words};
ghost use Rattle.unicode_segmentation.specs.Word.{words as unicode_words};

use crate::ascii_words::next_word;
use crate::fault::WordFault;
use crate::folding::fold_words;
use crate::found_words::FoundWords;
use funnel_model::WordSet;
use std::alloc::{AllocError, Global};

/// The set of a text's words. The text is cut first and each word is folded then, so a word of the set may hold a
/// boundary of words itself.
pub fn words(alloc: Global, text: &str) -> Result<WordSet, WordFault>
    ensures { IfOk result (λ found. (word : List ℕ) → Contains found word ↔ Contains (words text.now) word) }
{
    if text.is_ascii() {
        return words_of_ascii(alloc, text);
    }
    let folded = fold_words(alloc, text)?;
    folded.found(alloc)?.into_set(alloc)
}

/// The set of the words of a text that is ASCII. It is folded as a whole, since no boundary depends on the case of a letter.
fn words_of_ascii(alloc: Global, text: &str) -> Result<WordSet, WordFault>
    requires { IsAscii text.now }
    ensures { IfOk result (λ found. (word : List ℕ) → Contains found word ↔ Contains (words text.now) word) }
{
    let folded = text.to_ascii_lowercase(alloc)?;
    cut(alloc, folded.as_bytes())?.into_set(alloc)
}

/// The words of a text of ASCII as they stand in it.
fn cut<'a>(alloc: Global, text: &'a [u8]) -> Result<FoundWords<'a>, AllocError>
    requires { IsAscii text.now }
    ensures { IfOk result (λ found. (word : List ℕ) → Contains found word ↔ Contains (unicode_words text.now) word) }
{
    let mut found = FoundWords::new(alloc, text.len() / USUAL_LEN + 1)?;
    let mut at = 0;
    while let Some((start, end)) = next_word(text, at) {
        found.take_in(text, start, end)?;
        at = end;
    }
    Ok(found)
}

/// Few texts have a word for fewer bytes than this.
const USUAL_LEN: usize = 4;
