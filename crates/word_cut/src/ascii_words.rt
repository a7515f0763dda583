//! The words of a text of ASCII, one after another. Most rules of UAX 29 speak of characters that such a text hasn't got: its words are of
//! letters, digits and underscores, and a byte between two letters or two digits may join them.
ghost use Rattle.std.specs.Prelude.{◌≡◌, ℕ, ◌+◌, ◌<◌, ◌≤◌, [], ◌∷◌, true, false, length, slice_index, slice_range, MatchOption, IfSome};
ghost use Rattle.std.specs.Str.{IsAscii};
ghost use Rattle.unicode_segmentation.specs.Segments.{has_alphanumeric};
ghost use Rattle.unicode_segmentation.specs.Steps.{IsFirstEnd};
ghost use Rattle.unicode_segmentation.specs.Word.{is_word_break};
ghost use Rattle.word_cut.specs.Kinds.{kind_of_byte, is_in_word, goes_on};
ghost use Rattle.word_cut.specs.Pieces.{words_from};

use crate::kind::{is_in_word, joins, kind_of};

/// Where the bytes of words end that begin here.
fn past_word_bytes(bytes: &[u8], from: usize) -> usize
    requires ascii { IsAscii bytes.now }
    requires within { from ≤ length bytes.now }
    ensures within { (from ≤ result) × (result ≤ length bytes.now) }
    ensures passed { (k : ℕ) → from ≤ k → k < result → is_in_word (kind_of_byte (slice_index bytes.now k)) ≡ true }
    ensures next { result < length bytes.now → is_in_word (kind_of_byte (slice_index bytes.now result)) ≡ false }
{
    let mut at = from;
    while at < bytes.len() && is_in_word(kind_of(bytes[at])) {
        at += 1;
    }
    at
}

/// Where the first byte of a word stands, from here on, or the end.
fn past_gap(bytes: &[u8], from: usize) -> usize
    requires ascii { IsAscii bytes.now }
    requires within { from ≤ length bytes.now }
    ensures within { (from ≤ result) × (result ≤ length bytes.now) }
    ensures passed { (k : ℕ) → from ≤ k → k < result → is_in_word (kind_of_byte (slice_index bytes.now k)) ≡ false }
    ensures next { result < length bytes.now → is_in_word (kind_of_byte (slice_index bytes.now result)) ≡ true }
{
    let mut at = from;
    while at < bytes.len() && !is_in_word(kind_of(bytes[at])) {
        at += 1;
    }
    at
}

/// Whether a word that comes to this byte goes on behind it, with a byte that joins it to the next.
fn goes_on(bytes: &[u8], last: usize) -> bool
    requires ascii { IsAscii bytes.now }
    requires within { last < length bytes.now }
    ensures { result ≡ goes_on bytes.now last }
{
    last + 2 < bytes.len()
        && joins(
            kind_of(bytes[last]),
            kind_of(bytes[last + 1]),
            kind_of(bytes[last + 2]),
        )
}

/// Where the word ends that begins with the byte here.
fn word_end(bytes: &[u8], start: usize) -> usize
    requires ascii { IsAscii bytes.now }
    requires within { start < length bytes.now }
    requires begins { is_in_word (kind_of_byte (slice_index bytes.now start)) ≡ true }
    ensures end { IsFirstEnd is_word_break bytes.now start (length bytes.now) result }
    ensures ends { (last : ℕ) → last + 1 ≡ result → goes_on bytes.now last ≡ false }
{
    let mut end = past_word_bytes(bytes, start + 1);
    while goes_on(bytes, end - 1) {
        end = past_word_bytes(bytes, end + 2);
    }
    end
}

/// Whether a piece has a letter or a digit, without which it is no word.
fn has_alphanumeric(bytes: &[u8]) -> bool
    requires { IsAscii bytes.now }
    ensures { result ≡ has_alphanumeric bytes.now }
{
    bytes.iter().any(|byte| byte.is_ascii_alphanumeric())
}

/// The first word from here on, by its start and its end.
pub(crate) fn next_word(bytes: &[u8], from: usize) -> Option<(usize, usize)>
    requires ascii { IsAscii bytes.now }
    requires within { from ≤ length bytes.now }
    requires apart { (last : ℕ) → last + 1 ≡ from → goes_on bytes.now last ≡ false }
    ensures word { MatchOption result (words_from bytes.now from ≡ []) (λ (start, end). words_from bytes.now from ≡ slice_range bytes.now start end ∷ words_from bytes.now end) }
    ensures within { IfSome result (λ (start, end). (from ≤ start) × (start < end) × (end ≤ length bytes.now)) }
    ensures apart { IfSome result (λ (start, end). (last : ℕ) → last + 1 ≡ end → goes_on bytes.now last ≡ false) }
{
    let mut start = past_gap(bytes, from);
    while start < bytes.len() {
        let end = word_end(bytes, start);
        if has_alphanumeric(&bytes[start..end]) {
            return Some((start, end));
        }
        start = past_gap(bytes, end);
    }
    None
}
