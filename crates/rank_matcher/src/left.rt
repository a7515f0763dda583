//! The columns of a slice that the required words of a search leave, 64 at a time.

ghost use Rattle.std.specs.Prelude.{◌≡◌, ◌↔◌, ℕ, ◌+◌, ◌*◌, ◌<◌, ◌≤◌, Bool, true, All, Contains, length, map, slice_index_or, take};
ghost use Rattle.rank_matcher.specs.Left.{AreLeftFrom, IsOfWord};
ghost use Rattle.row_read.specs.Bits.{has_bit};

/// The columns that are left of a slice, from a word on.
#[derive(Clone, Copy)]
pub(crate) enum Left<'a> {
    /// Each one.
    All,
    /// These, in rising order.
    Columns(&'a [(u32, u32)]),
}

impl<'a> Left<'a> {
    /// The bits of the columns of this word, and what is left from the next word on.
    pub(crate) fn split(self, word: u32) -> (u64, Left<'a>)
        ensures mask { (is_left : ℕ → Bool) → AreLeftFrom is_left word self.entry →
            (bit : ℕ) → bit < 64 → has_bit result.0 bit ≡ is_left (64 * word + bit) }
        ensures later { (is_left : ℕ → Bool) → AreLeftFrom is_left word self.entry → AreLeftFrom is_left (word + 1) result.1 }
    {
        match self {
            Left::All => (u64::MAX, Left::All),
            Left::Columns(columns) => {
                let (mask, count) = mask_of(columns, word);
                let (_, later) = columns.split_at(count);
                (mask, Left::Columns(later))
            }
        }
    }
}

/// The bits of the first columns that are of a word, and how many these are.
fn mask_of(columns: &[(u32, u32)], word: u32) -> (u64, usize)
    ensures count { result.1 ≤ length columns.now }
    ensures mask { (bit : ℕ) → bit < 64 → (has_bit result.0 bit ≡ true) ↔ Contains (map (λ c. c.1) (take result.1 columns.now)) (64 * word + bit) }
    ensures of_word { All (IsOfWord word) (take result.1 columns.now) }
    ensures next { (d : ℕ × ℕ) → result.1 < length columns.now → IsOfWord word (slice_index_or columns.now result.1 d) → ⊥ }
{
    let mut mask = 0;
    let mut count = 0;
    while count < columns.len() && columns[count].1 / 64 == word {
        mask |= 1 << (columns[count].1 % 64);
        count += 1;
    }
    (mask, count)
}
