//! Up to which class listed words get a row of their own.

ghost use Rattle.std.specs.Prelude.{◌≡◌, ◌≤◌, All, length, map};
ghost use Rattle.funnel_model.specs.Configuration.{IsBetween};
ghost use Rattle.funnel_model.specs.declared.config.TheConstants.{MOST_DOCUMENTS, MOST_WORDS};
ghost use Rattle.fit.specs.Privates.{IsPrivateClass, count_up_to, is_up_to};
ghost use Rattle.fit.specs.Steps.{ranked};

use crate::ranking::Ranked;
use treatment::class;

/// The lowest class whose words with a row of their own are counted: those of the classes below always have one.
const FIRST: u8 = 3;

/// The highest class whose words may have one.
const LAST: u8 = 6;

/// The most words from class [`FIRST`] on that have one.
const MOST: usize = 512;

/// The greatest class from 2 to [`LAST`] for which at most [`MOST`] of these words are of a class from [`FIRST`] to it.
pub(crate) fn private_class(first: &[Ranked], documents: u64) -> u8
    requires documents { documents ≤ MOST_DOCUMENTS }
    requires counted { All (λ entry. IsBetween 1 documents entry.1) (map ranked first.now) }
    requires few { length first.now ≤ MOST_WORDS }
    ensures { IsPrivateClass documents (map ranked first.now) result }
{
    let mut last = LAST;
    while count_up_to(first, documents, last) > MOST {
        last -= 1;
    }
    last
}

/// How many of these words are of a class from [`FIRST`] to `last`.
fn count_up_to(first: &[Ranked], documents: u64, last: u8) -> usize
    requires documents { documents ≤ MOST_DOCUMENTS }
    requires counted { All (λ entry. IsBetween 1 documents entry.1) (map ranked first.now) }
    requires few { length first.now ≤ MOST_WORDS }
    ensures { result ≡ count_up_to documents last (map ranked first.now) }
{
    let mut words = 0;
    for (count, _) in first {
        words += usize::from(is_up_to(count.0, documents, last));
    }
    words
}

/// Whether a word that so many of the documents have is of a class from [`FIRST`] to `last`.
fn is_up_to(count: u64, documents: u64, last: u8) -> bool
    requires some { 1 ≤ count }
    requires within { count ≤ documents }
    requires few { documents ≤ MOST_DOCUMENTS }
    ensures { result ≡ is_up_to documents last count }
{
    let class = class(count, documents);
    FIRST <= class && class <= last
}
