ghost use Rattle.std.specs.Prelude.{◌≡◌, ℕ, ◌-◌, ◌*◌, ◌/◌, ◌^◌, ◌<◌, ◌≤◌, length, slice_index, slice_range};
ghost use Rattle.std.specs.Ordering.{nat_cmp};
ghost use Rattle.std.specs.Cmp.Lexicographic.{slice_cmp};
ghost use Rattle.std.specs.Str.{bytes_eq};
ghost use Rattle.word_cut.specs.Keys.{first_bytes};

use std::cmp::{Ord, Ordering};

/// A word with a number by which it is told from most others.
#[derive(Drop)]
pub(crate) struct KeyedWord<'a> {
    /// Its first 8 bytes as one number, the first byte highest, so that numbers are in the order of their words.
    first: u64,
    pub(crate) bytes: &'a [u8],
    ghost first_is: { first ≡ first_bytes 8 bytes.now },
    ghost of_bytes: { (i : ℕ) → slice_index bytes.now i < 256 },
}

impl<'a> KeyedWord<'a> {
    /// The word that stands there in a text.
    pub(crate) fn at(text: &'a [u8], start: usize, end: usize) -> KeyedWord<'a>
        requires in_order { start ≤ end }
        requires within { end ≤ length text.now }
        ensures { result.bytes.now ≡ slice_range text.now start end }
    {
        KeyedWord {
            first: first_at(text, start, end),
            bytes: &text[start..end],
        }
    }

    /// A hash of the first bytes.
    pub(crate) fn hash(&self) -> u8 {
        (self.first.wrapping_mul(MULTIPLIER) >> 56) as u8
    }

    /// The order of the words' bytes.
    pub(crate) fn order(&self, other: &KeyedWord<'a>) -> Ordering
        ensures { result ≡ slice_cmp nat_cmp self.now.bytes.now other.now.bytes.now }
    {
        match self.first.cmp(&other.first) {
            Ordering::Equal => self.bytes.cmp(&other.bytes),
            order => order,
        }
    }

    /// Whether it is the same word.
    pub(crate) fn is(&self, other: &KeyedWord<'a>) -> bool
        ensures { result ≡ bytes_eq self.now.bytes.now other.now.bytes.now }
    {
        if self.first != other.first || self.bytes.len() != other.bytes.len() {
            return false;
        }
        // The numbers tell all bytes of a short word.
        self.bytes.len() <= 8 || self.bytes == other.bytes
    }
}

/// 2^64 divided by the golden ratio, by which numbers are spread over the highest bits of their products (Knuth).
const MULTIPLIER: u64 = 0x9e37_79b9_7f4a_7c15;

/// The first 8 bytes of the piece that stands there in a text, as one number. Where the text goes on for 8 bytes from there they are read
/// at once.
fn first_at(text: &[u8], start: usize, end: usize) -> u64
    requires in_order { start ≤ end }
    requires within { end ≤ length text.now }
    ensures { result ≡ first_bytes 8 (slice_range text.now start end) }
{
    let Some(next) = text[start..].first_chunk::<8>() else {
        return first_of(&text[start..end]);
    };
    let number = u64::from_be_bytes(*next);
    if end - start < 8 {
        first_part(number, end - start)
    } else {
        number
    }
}

/// The number with all but its first bytes made 0.
fn first_part(number: u64, bytes: usize) -> u64
    requires { bytes < 8 }
    ensures { result ≡ number / 2 ^ (8 * (8 - bytes)) * 2 ^ (8 * (8 - bytes)) }
{
    number & !(u64::MAX >> (8 * bytes))
}

/// The first 8 bytes as one number.
fn first_of(bytes: &[u8]) -> u64
    ensures { result ≡ first_bytes 8 bytes.now }
{
    if let Some(first) = bytes.first_chunk::<8>() {
        return u64::from_be_bytes(*first);
    }
    let mut first = 0;
    for byte in bytes {
        first = first * 256 + u64::from(*byte);
    }
    first << (8 * (7 - bytes.len())) << 8
}
