//! The configuration that lists the first words of a ranking.

ghost use Rattle.std.specs.Prelude.{◌≡◌, ◌<◌, ◌≤◌, ◌^◌, IfOk, length, map};
ghost use Rattle.std.specs.List.{IsDistinct};
ghost use Rattle.std.specs.List.Sorted.{IsPermutation};
ghost use Rattle.std.specs.Str.{bytes_eq};
ghost use Rattle.funnel_model.specs.Configuration.{IsInRange};
ghost use Rattle.funnel_model.specs.Listed.{IsInByteOrder};
ghost use Rattle.funnel_model.specs.declared.config.TheConstants.{MOST_WORDS};
ghost use Rattle.fit.specs.Listings.{IsTail};
ghost use Rattle.fit.specs.Made.{CanBeListed, IsMade, IsSound, IsWrittenFor};
ghost use Rattle.fit.specs.Steps.{ranked};
ghost use Rattle.fit.specs.Tallies.{total};

use crate::private::private_class;
use crate::ranking::Ranked;
use crate::text::text_of;
use funnel_model::{Config, Listed, MOST_PASSES, Memory};
use funnel_stats::Key;
use std::alloc::Global;

/// What a configuration is made of, beside its listed words.
#[derive(Clone, Copy, Drop)]
pub(crate) struct Frame {
    /// The highest rank.
    pub(crate) rank: u8,
    /// The slices.
    pub(crate) slices: u32,
    /// The texts that were counted.
    pub(crate) documents: u64,
    /// The words of these texts together, each once a text.
    pub(crate) words: u64,
}

/// A configuration and its text.
#[derive(Drop)]
pub(crate) struct Written {
    pub(crate) config: Config,
    pub(crate) text: String,
}

/// The configuration that lists these words, with its text.
pub(crate) fn write_first(alloc: Global, frame: Frame, first: &[Ranked]) -> Result<Written, Memory>
    requires sound { IsSound frame }
    requires can { CanBeListed frame (map ranked first.now) }
    requires few { length first.now ≤ MOST_WORDS }
    ensures { IfOk result (IsWrittenFor frame (map ranked first.now)) }
{
    let config = configuration(alloc, frame, first)?;
    let text = text_of(alloc, &config)?;
    Ok(Written { config, text })
}

/// The configuration that lists these words.
fn configuration(alloc: Global, frame: Frame, first: &[Ranked]) -> Result<Config, Memory>
    requires sound { IsSound frame }
    requires can { CanBeListed frame (map ranked first.now) }
    requires few { length first.now ≤ MOST_WORDS }
    ensures made { IfOk result (IsMade frame (map ranked first.now)) }
    ensures in_range { IfOk result IsInRange }
{
    let others = frame.words - together(first);
    Ok(Config {
        passes: MOST_PASSES,
        slices: frame.slices,
        blocks: Key::Blocks.limits().default as u32,
        max_rank: frame.rank,
        commits: Key::Commits.limits().default,
        reserve: 64 << frame.rank,
        one_in: Key::OneIn.limits().default,
        snr: Key::Snr.limits().default,
        documents: frame.documents,
        tail: tail(others, frame.documents),
        max_rows: Key::MaxRows.limits().default as u32,
        private: private_class(first, frame.documents),
        words: listed(alloc, first)?,
    })
}

/// The counts of these words together.
fn together(first: &[Ranked]) -> u64
    requires { total (map ranked first.now) < 2 ^ 64 }
    ensures { result ≡ total (map ranked first.now) }
{
    let mut sum = 0;
    for (count, _) in first {
        sum += count.0;
    }
    sum
}

/// The least whole number from 1 on that is at least the mean of so many words over the documents.
fn tail(others: u64, documents: u64) -> u64
    requires { 1 ≤ documents }
    ensures { IsTail others documents result }
{
    others.div_ceil(documents).max(1)
}

/// These words with their counts, in byte order.
fn listed(alloc: Global, first: &[Ranked]) -> Result<Listed, Memory>
    requires once { IsDistinct bytes_eq (map (λ entry. entry.0) (map ranked first.now)) }
    ensures words { IfOk result (λ words. IsPermutation (map ranked first.now) words) }
    ensures order { IfOk result IsInByteOrder }
{
    let mut entries = Vec::with_capacity(alloc, first.len())?;
    for (count, word) in first {
        entries.push((word.clone()?, count.0))?;
    }
    entries.sort_unstable();
    Ok(Listed::new(entries))
}
