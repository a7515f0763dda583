//! Classes of words, and the row counts of classes.

ghost use Rattle.std.specs.Prelude.{◌≡◌, ◌<◌, ◌≤◌, ◌^◌, IfSome, Contains};
ghost use Rattle.funnel_model.specs.declared.config.TheConstants.{LEAST_ONE_IN, MOST_ONE_IN, MOST_SNR, MOST_DOCUMENTS};
ghost use Rattle.funnel_model.specs.Configuration.{IsBetween, IsInRange};
ghost use Rattle.funnel_model.specs.Listed.{listed_count};
ghost use Rattle.funnel_model.specs.Sizes.{class_of_word};
ghost use Rattle.funnel_model.specs.Treatment.{IsClass, IsRowCount, class_of_count, row_count_of_class};

use funnel_model::{Config, Listed};
use std::cmp::Ord;

/// The highest class, which an unlisted word has too.
pub const LAST_CLASS: u8 = 15;

/// The class of a word that `f` of `n` documents hold: how often `f` can be doubled within `n`, at most 15 times.
pub fn class(f: u64, n: u64) -> u8
    requires positive { 1 ≤ f }
    requires held { f ≤ n }
    requires small { n ≤ MOST_DOCUMENTS }
    ensures greatest { IsClass f n result }
    ensures value { result ≡ class_of_count f n }
{
    let mut class = 0;
    let mut doubled = f;
    while class < LAST_CLASS && doubled * 2 <= n {
        doubled *= 2;
        class += 1;
    }
    class
}

/// The least number of rows, with one bit in `one_in` set in each, that leaves a word of this class the ratio `snr` of
/// signal to noise.
pub fn row_count(class: u8, one_in: u64, snr: u64) -> u8
    requires class { class ≤ 15 }
    requires one_in { IsBetween LEAST_ONE_IN MOST_ONE_IN one_in }
    requires snr { IsBetween 1 MOST_SNR snr }
    ensures least { IsRowCount one_in snr class result }
    ensures value { result ≡ row_count_of_class one_in snr class }
    ensures small { result ≤ 26 }
{
    let wanted = snr * ((1 << (class + 1)) - 1);
    let mut count = 1;
    let mut power = one_in;
    while power < wanted {
        power *= one_in;
        count += 1;
    }
    count
}

/// The class of a folded word: that of its count where it is listed, and else 15.
pub fn class_of(config: &Config, word: &[u8]) -> u8
    requires { IsInRange config.now }
    ensures { result ≡ class_of_word config.now word.now }
{
    match count_of(&config.words, word) {
        Some(count) => class(count, config.documents),
        None => LAST_CLASS,
    }
}

/// The count of a word, where it is listed.
fn count_of(words: &Listed, word: &[u8]) -> Option<u64>
    ensures value { result ≡ listed_count words.now word.now }
    ensures listed { IfSome result (λ count. Contains words.now (word.now, count)) }
{
    let entries = words.as_slice();
    match entries.binary_search_by(|entry| entry.0.as_bytes().cmp(&word)) {
        Ok(i) => Some(entries[i].1),
        Err(_) => None,
    }
}
