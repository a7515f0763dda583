//! The words that may be listed, in the order in which they are taken.

ghost use Rattle.std.specs.Prelude.{◌≡◌, ◌≤◌, ◌&&◌, true, false, All, IfOk, MatchOption, filter, map, string_bytes};
ghost use Rattle.std.specs.List.{IsDistinct};
ghost use Rattle.std.specs.Str.{bytes_eq, is_utf8};
ghost use Rattle.funnel_model.specs.Configuration.{IsBetween};
ghost use Rattle.funnel_model.specs.declared.config.TheConstants.{MOST_DOCUMENTS};
ghost use Rattle.funnel_stats.specs.Faults.{is_word};
ghost use Rattle.fit.specs.Listings.{IsRanking, may_be_listed};
ghost use Rattle.fit.specs.Steps.{entries_of, ranked};

use funnel_model::Memory;
use funnel_stats::is_word;
use std::alloc::Global;
use std::cmp::Reverse;
use std::collections::HashMap;
use treatment::{LAST_CLASS, class};

/// A word with its count, by which words are ordered: by falling count, and then by rising word.
pub(crate) type Ranked = (Reverse<u64>, String);

/// The words of the tally that may be listed, in the order in which they are taken.
pub(crate) fn ranking(
    alloc: Global,
    counts: HashMap<Vec<u8>, u64>,
    documents: u64,
) -> Result<Vec<Ranked>, Memory>
    requires few { documents ≤ MOST_DOCUMENTS }
    requires counted { All (λ entry. IsBetween 1 documents entry.1) (entries_of counts.entries) }
    requires once { IsDistinct bytes_eq (map (λ entry. entry.0) (entries_of counts.entries)) }
    ensures { IfOk result (λ found. IsRanking documents (entries_of counts.entries) (map ranked found.items)) }
{
    let mut found = listable(alloc, counts, documents)?;
    found.sort_unstable();
    Ok(found)
}

/// The words of the tally that may be listed.
fn listable(
    alloc: Global,
    counts: HashMap<Vec<u8>, u64>,
    documents: u64,
) -> Result<Vec<Ranked>, Memory>
    requires few { documents ≤ MOST_DOCUMENTS }
    requires counted { All (λ entry. IsBetween 1 documents entry.1) (entries_of counts.entries) }
    ensures { IfOk result (λ found. map ranked found.items ≡ filter (may_be_listed documents) (entries_of counts.entries)) }
{
    let mut found = Vec::new(alloc);
    for (word, count) in counts {
        if let Some(text) = as_listable(alloc, word, count, documents)? {
            found.push((Reverse(count), text))?;
        }
    }
    Ok(found)
}

/// The word as a text, where it may be listed with this count.
fn as_listable(
    alloc: Global,
    word: Vec<u8>,
    count: u64,
    documents: u64,
) -> Result<Option<String>, Memory>
    requires some { 1 ≤ count }
    requires within { count ≤ documents }
    requires few { documents ≤ MOST_DOCUMENTS }
    ensures { IfOk result (λ found. MatchOption found (may_be_listed documents (word.items, count) ≡ false)
        (λ text. (may_be_listed documents (word.items, count) ≡ true) × (string_bytes text ≡ word.items))) }
{
    if class(count, documents) == LAST_CLASS {
        return Ok(None);
    }
    as_word(alloc, word)
}

/// The word as a text, where it is one folded word.
fn as_word(alloc: Global, word: Vec<u8>) -> Result<Option<String>, Memory>
    ensures { IfOk result (λ found. MatchOption found ((is_utf8 word.items && is_word word.items) ≡ false)
        (λ text. ((is_utf8 word.items && is_word word.items) ≡ true) × (string_bytes text ≡ word.items))) }
{
    let Ok(text) = String::from_utf8(word) else {
        return Ok(None);
    };
    if is_word(alloc, &text)? {
        Ok(Some(text))
    } else {
        Ok(None)
    }
}
