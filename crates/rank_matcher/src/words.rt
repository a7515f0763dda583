//! Candidates of words, each of which stands for 64 columns.

ghost use Rattle.std.specs.Prelude.{◌≡◌, ℕ, ◌+◌, ◌*◌, ◌<◌, ◌≤◌, ◌^◌, ◌++◌, map, List, OnOk};
ghost use Rattle.rank_matcher.specs.Appended.{AppendsBeginning, IsBeginning, candidates_of};
ghost use Rattle.rank_matcher.specs.SetBits.{set_bits};
ghost use Rattle.rank_matcher.specs.Walk.{has_column, passing};

use funnel_model::{Candidates, Memory};

/// Adds the columns of a slice whose bits are set in each of the words from `from` up to `to`, which are all the same.
pub(crate) fn push_words(
    out: &mut Candidates,
    slice: u32,
    from: u32,
    to: u32,
    running: u64,
) -> Result<(), Memory>
    requires span { from ≤ to }
    requires few { 64 * to < 2 ^ 32 }
    ensures all { OnOk result (out.new ≡ out.old ++ candidates_of slice (passing (has_column running) (64 * from) (64 * to))) }
    ensures part { AppendsBeginning slice (passing (has_column running) (64 * from) (64 * to)) out.old out.new }
{
    for word in from..to {
        push_columns(out, slice, 64 * word, running)?;
    }
    Ok(())
}

/// Adds the columns of a slice whose bits are set in the word that stands for the 64 columns from `first` on.
pub(crate) fn push_columns(
    out: &mut Candidates,
    slice: u32,
    first: u32,
    word: u64,
) -> Result<(), Memory>
    requires fits { first + 64 ≤ 2 ^ 32 }
    ensures all { OnOk result (out.new ≡ out.old ++ candidates_of slice (map (λ bit. first + bit) (set_bits word))) }
    ensures part { (front : List ℕ) × IsBeginning front (set_bits word) × (out.new ≡ out.old ++ candidates_of slice (map (λ bit. first + bit) front)) }
{
    let mut left = word;
    while left != 0 {
        let bit = left.trailing_zeros();
        out.push(slice, first + bit)?;
        left &= left - 1;
    }
    Ok(())
}
