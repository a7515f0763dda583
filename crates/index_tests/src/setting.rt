//! Configurations, listed words and layouts of the tests.
ghost use Rattle.std.specs.Prelude.{◌≡◌, ◌≤◌, IfOk, []};
ghost use Rattle.funnel_model.specs.Configuration.{IsBetween, IsInRange};
ghost use Rattle.funnel_model.specs.Sizes.{columns_of_slice};
ghost use Rattle.index_tests.specs.Settings.{CanBeListed, HasTwoSlices};

use funnel_model::{Config, Listed, Memory};
use row_layout::{Layout, LayoutFault};
use std::alloc::{AllocError, Global};
use treatment::sizes;

/// The default configuration but for these numbers and words.
pub(crate) fn config(
    max_rank: u8,
    one_in: u64,
    snr: u64,
    documents: u64,
    tail: u64,
    words: Listed,
) -> Config
    requires rank { max_rank ≤ 6 }
    requires one_in { IsBetween 2 20 one_in }
    requires snr { IsBetween 1 1000 snr }
    requires documents { IsBetween 1 20000 documents }
    requires tail { tail ≤ 80 }
    requires words { CanBeListed documents words }
    ensures in_range { IsInRange result }
    ensures slices { HasTwoSlices max_rank result }
{
    Config {
        passes: 2,
        slices: 2,
        blocks: 1,
        max_rank,
        commits: 1024,
        reserve: 0,
        one_in,
        snr,
        documents,
        tail,
        max_rows: 65536,
        private: 2,
        words,
    }
}

pub(crate) fn no_words(alloc: Global) -> Listed
    ensures { result ≡ [] }
{
    Listed::new(Vec::new(alloc))
}

/// A rare word, a common one and a very common one.
pub(crate) fn three_words(alloc: Global) -> Result<Listed, AllocError>
    ensures { IfOk result (CanBeListed 1000) }
{
    let axolotl = String::from_str(alloc, "axolotl")?;
    let cat = String::from_str(alloc, "cat")?;
    let the = String::from_str(alloc, "the")?;
    Ok(Listed::new(vec![in alloc; (axolotl, 1), (cat, 100), (the, 1000)]?))
}

/// The layout of a configuration, if its rows are not too many.
pub(crate) fn layout_of(alloc: Global, config: &Config) -> Result<Layout, Memory>
    requires { IsInRange config.now }
    ensures slices { IfOk result (λ layout. layout.config.slices ≡ config.now.slices) }
    ensures columns { IfOk result (λ layout. columns_of_slice layout.config ≡ columns_of_slice config.now) }
{
    if sizes(config).pool_words > 33_554_432 {
        return Err(Memory);
    }
    Layout::new(alloc, config)
}

/// The layout of two slices of so many blocks, with rows up to this rank.
pub(crate) fn layout_of_blocks(
    alloc: Global,
    blocks: u32,
    max_rank: u8,
    words: Listed,
) -> Result<Layout, Memory>
    requires blocks { IsBetween 1 4 blocks }
    requires max_rank { max_rank ≤ 6 }
    requires words { CanBeListed 1000 words }
    ensures { IfOk result (λ layout. layout.config.slices ≡ 2) }
{
    let mut config = config(max_rank, 10, 10, 1000, 0, words);
    config.blocks = blocks;
    layout_of(alloc, &config)
}

/// A layout with the three words and ranks up to 6.
pub(crate) fn ranked_layout(alloc: Global) -> Result<Layout, Memory>
    ensures slices { IfOk result (λ layout. layout.config.slices ≡ 2) }
    ensures columns { IfOk result (λ layout. columns_of_slice layout.config ≡ 4096) }
{
    layout_of(alloc, &config(6, 10, 10, 1000, 0, three_words(alloc)?))
}

/// That layout in slices that have room for so many words.
pub(crate) fn ranked_within(alloc: Global, room: u32) -> Result<Layout, LayoutFault>
    requires { room ≤ 1000 }
    ensures slices { IfOk result (λ layout. layout.config.slices ≡ 2) }
    ensures columns { IfOk result (λ layout. columns_of_slice layout.config ≡ 4096) }
{
    let Ok(words) = three_words(alloc) else {
        return Err(LayoutFault::Memory);
    };
    Layout::within(alloc, &config(6, 10, 10, 1000, 0, words), room)
}
