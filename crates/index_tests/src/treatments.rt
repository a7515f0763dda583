//! The tables of classes, ranks and sizes.
ghost use Rattle.std.specs.Prelude.{◌≤◌};

use crate::setting::{config, no_words, three_words};
use std::alloc::{AllocError, Global};
use std::test::Fail;
use treatment::{Sizes, class, class_of, rank_of, row_count, sizes};

/// The classes of the three words and of one that isn't listed.
fn classes(alloc: Global) -> Result<[u8; 4], AllocError> {
    let config = config(6, 10, 10, 1000, 0, three_words(alloc)?);
    Ok([
        class_of(&config, b"the"),
        class_of(&config, b"cat"),
        class_of(&config, b"axolotl"),
        class_of(&config, b"dog"),
    ])
}

/// The classes of their counts alone.
fn classes_of_counts() -> [u8; 3] {
    [class(1000, 1000), class(100, 1000), class(1, 1000)]
}

#[test]
fn a_word_has_the_class_of_its_count(rt: HostRuntime) -> Result<(), Fail> {
    assert!(rt; classes(rt.alloc())? == [0, 3, 9, 15]);
    assert!(rt; classes_of_counts() == [0, 3, 9]);
    Ok(())
}

/// The row counts of four classes, and the most rows of a word.
fn row_counts() -> [u8; 5] {
    [
        row_count(3, 10, 10),
        row_count(9, 10, 10),
        row_count(15, 10, 10),
        row_count(0, 10, 10),
        row_count(15, 2, 1000),
    ]
}

#[test]
fn a_class_has_its_row_count(rt: HostRuntime) {
    assert!(rt; row_counts() == [3, 5, 6, 1, 26]);
}

/// The ranks of the rows of a word, where the highest rank is 6.
fn ranks(alloc: Global, class: u8, count: u8) -> Result<Vec<u8>, AllocError>
    requires class { class ≤ 15 }
{
    let mut ranks = Vec::new(alloc);
    for j in 0..count {
        ranks.push(rank_of(class, count, 6, j))?;
    }
    Ok(ranks)
}

/// Whether they are these.
fn are_ranks(alloc: Global, class: u8, count: u8, wanted: &[u8]) -> Result<bool, AllocError>
    requires class { class ≤ 15 }
{
    let ranks = ranks(alloc, class, count)?;
    Ok(ranks.as_slice() == wanted)
}

fn ranks_of_classes(alloc: Global) -> Result<(bool, bool, bool), AllocError> {
    let common = are_ranks(alloc, 3, 3, &[0, 0, 0])?;
    let rare = are_ranks(alloc, 9, 5, &[6, 4, 2, 0, 0])?;
    Ok((common, rare, are_ranks(alloc, 15, 6, &[6, 4, 2, 0, 0, 0])?))
}

#[test]
fn ranks_go_down_to_zero(rt: HostRuntime) -> Result<(), Fail> {
    assert!(rt; ranks_of_classes(rt.alloc())? == (true, true, true));
    Ok(())
}

/// The sizes with the three words, with a short tail, and with a long one and higher ranks.
fn sizes_of_listed(alloc: Global) -> Result<Sizes, AllocError> {
    let config = config(6, 10, 10, 1000, 0, three_words(alloc)?);
    Ok(sizes(&config))
}

/// Those where the common word has a row of its own too.
fn sizes_of_exact(alloc: Global) -> Result<Sizes, AllocError> {
    let mut config = config(6, 10, 10, 1000, 0, three_words(alloc)?);
    config.private = 3;
    Ok(sizes(&config))
}

fn sizes_of_tail(alloc: Global) -> Sizes {
    let config = config(0, 10, 10, 1000, 10, no_words(alloc));
    sizes(&config)
}

fn sizes_of_long_tail(alloc: Global) -> Sizes {
    let mut config = config(6, 10, 10, 20_000, 80, no_words(alloc));
    config.slices = 8;
    sizes(&config)
}

static OF_LISTED: Sizes = Sizes {
    private: 1,
    rows: [4, 1, 1, 1, 1, 1, 1],
    slice_words: 383,
    pool_words: 766,
    columns: 8192,
};

static OF_EXACT: Sizes = Sizes {
    private: 2,
    rows: [1, 1, 1, 1, 1, 1, 1],
    slice_words: 255,
    pool_words: 510,
    columns: 8192,
};

static OF_TAIL: Sizes = Sizes {
    private: 0,
    rows: [600, 0, 0, 0, 0, 0, 0],
    slice_words: 600,
    pool_words: 1200,
    columns: 128,
};

static OF_LONG_TAIL: Sizes = Sizes {
    private: 0,
    rows: [2400, 1, 3200, 1, 12_800, 1, 51_200],
    slice_words: 307_242,
    pool_words: 2_457_936,
    columns: 32_768,
};

#[test]
fn listed_words_size_the_pool(rt: HostRuntime) -> Result<(), Fail> {
    assert!(rt; sizes_of_listed(rt.alloc())? == OF_LISTED);
    assert!(rt; sizes_of_exact(rt.alloc())? == OF_EXACT);
    Ok(())
}

#[test]
fn the_tail_sizes_the_pool(rt: HostRuntime) {
    assert!(rt; sizes_of_tail(rt.alloc()) == OF_TAIL);
}

#[test]
fn a_long_tail_fills_the_higher_ranks(rt: HostRuntime) {
    assert!(rt; sizes_of_long_tail(rt.alloc()) == OF_LONG_TAIL);
}
