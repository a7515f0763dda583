ghost use Rattle.std.specs.Prelude.{◌≡◌, Bool, ℕ, IfOk, List, filter, map};
ghost use Rattle.funnel_model.specs.Words.{IsRising};
ghost use Rattle.plan_rows.specs.Rests.{words_of_rest};

use funnel_model::{Memory, WordSet};
use std::alloc::Global;

/// The rest of a query's words: those that aren't exact, which a set bit doesn't tell.
#[derive(Debug, Drop)]
pub enum Rest {
    /// All of them, so that no word is copied.
    Whole,
    /// These alone.
    Part(WordSet),
}

impl Rest {
    /// The rest of these words, which has those of them that are left.
    pub(crate) fn of(alloc: Global, all: &WordSet, left: &[&[u8]]) -> Result<Rest, Memory>
        requires rising { IsRising (map (λ word. word.now) left.now) }
        ensures { (is_left : List ℕ → Bool) → map (λ word. word.now) left.now ≡ filter is_left all.now →
            IfOk result (λ rest. words_of_rest all.now rest ≡ filter is_left all.now) }
    {
        if left.len() == all.len() {
            Ok(Rest::Whole)
        } else {
            Ok(Rest::Part(WordSet::from_sorted(alloc, left)?))
        }
    }

    /// The words of the rest, where these are all words of the query.
    pub fn words<'a>(&'a self, all: &'a WordSet) -> &'a WordSet
        ensures { result.now ≡ words_of_rest all.now self.now }
    {
        match self {
            Rest::Whole => all,
            Rest::Part(words) => words,
        }
    }
}
