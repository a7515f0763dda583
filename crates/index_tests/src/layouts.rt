//! The rows of words and their bits, against numbers from an independent model of the layout.
ghost use Rattle.std.specs.Prelude.{◌≡◌, ◌<◌, ◌≤◌, IfOk};
ghost use Rattle.funnel_model.specs.Sizes.{columns_of_slice};

use crate::setting::{config, layout_of, no_words, ranked_layout, ranked_within, three_words};
use funnel_model::{Memory, WordSet};
use row_layout::{Bits, Layout, LayoutFault, Row, fill_bits};
use std::alloc::{AllocError, Global};
use std::mem::size_of;
use std::test::Fail;

/// A layout without listed words, with rows of rank 0 alone.
fn plain_layout(alloc: Global) -> Result<Layout, Memory> {
    layout_of(alloc, &config(0, 10, 10, 1000, 10, no_words(alloc)))
}

/// A layout without listed words, in which each word has 26 rows.
fn crowded_layout(alloc: Global) -> Result<Layout, Memory>
    ensures slices { IfOk result (λ layout. layout.config.slices ≡ 2) }
    ensures columns { IfOk result (λ layout. columns_of_slice layout.config ≡ 64) }
{
    layout_of(alloc, &config(0, 2, 1000, 1000, 10, no_words(alloc)))
}

/// The words of a document.
fn document(alloc: Global) -> Result<WordSet, Memory> {
    WordSet::from_sorted(
        alloc,
        &["axolotl".as_bytes(), "cat".as_bytes(), "dog".as_bytes()],
    )
}

/// The rows of a word, row by row.
fn rows(alloc: Global, layout: &Layout, word: &str) -> Result<Vec<(u8, u32, u16)>, AllocError> {
    let mut rows = Vec::new(alloc);
    for j in 0..layout.count_of(word.as_bytes()) {
        let row = layout.row_at(word.as_bytes(), j);
        rows.push((row.rank, row.start, row.width))?;
    }
    Ok(rows)
}

/// The bits as pairs of word and bit, in rising order, each once.
fn pairs(alloc: Global, bits: &Bits) -> Result<Vec<(u32, u32)>, AllocError> {
    let mut pairs = Vec::new(alloc);
    for bit in bits.as_slice() {
        pairs.push((bit.word, bit.bit))?;
    }
    pairs.sort_unstable();
    pairs.dedup();
    Ok(pairs)
}

#[test]
fn a_row_takes_8_bytes(rt: HostRuntime) {
    assert_eq!(rt; size_of::<Row>(), 8);
}

/// The highest rank, the blocks, the columns and the second slice of a layout.
fn numbers(alloc: Global) -> Result<(u8, u32, u32, (u32, u32)), Memory> {
    let layout = ranked_layout(alloc)?;
    let second = layout.slice_range(1);
    Ok((layout.max_rank(), layout.blocks(), layout.columns(), second))
}

#[test]
fn a_layout_has_the_numbers_of_its_configuration(rt: HostRuntime) -> Result<(), Fail> {
    assert!(rt; numbers(rt.alloc())? == (6, 1, 4096, (383, 383)));
    Ok(())
}

/// A word, whether it is exact, and its rows.
type Laid = (&'static str, bool, &'static [(u8, u32, u16)]);

static RANKED: [Laid; 4] = [
    ("the", true, &[(0, 0, 64)]),
    ("cat", false, &[(0, 128, 64), (0, 192, 64), (0, 256, 64)]),
    (
        "axolotl",
        false,
        &[
            (6, 382, 1),
            (4, 376, 4),
            (2, 352, 16),
            (0, 128, 64),
            (0, 64, 64),
        ],
    ),
    (
        "dog",
        false,
        &[
            (6, 382, 1),
            (4, 376, 4),
            (2, 352, 16),
            (0, 128, 64),
            (0, 64, 64),
            (0, 256, 64),
        ],
    ),
];

/// The same words where those of class 3 are exact too.
static EXACT: [Laid; 4] = [
    ("the", true, &[(0, 64, 64)]),
    ("cat", true, &[(0, 0, 64)]),
    (
        "axolotl",
        false,
        &[
            (6, 254, 1),
            (4, 248, 4),
            (2, 224, 16),
            (0, 128, 64),
            (0, 128, 64),
        ],
    ),
    (
        "dog",
        false,
        &[
            (6, 254, 1),
            (4, 248, 4),
            (2, 224, 16),
            (0, 128, 64),
            (0, 128, 64),
            (0, 128, 64),
        ],
    ),
];

/// Whether a word has these rows.
fn has_rows(
    alloc: Global,
    layout: &Layout,
    word: &str,
    wanted: &[(u8, u32, u16)],
) -> Result<bool, AllocError> {
    let rows = rows(alloc, layout, word)?;
    Ok(rows.as_slice() == wanted)
}

/// How many of these words have these rows, and are exact or not.
fn right_words(alloc: Global, layout: &Layout, laid: &[Laid]) -> Result<usize, AllocError> {
    let mut right: usize = 0;
    for (word, exact, wanted) in laid {
        if has_rows(alloc, layout, word, wanted)? && layout.is_exact(word.as_bytes()) == *exact {
            right = right.saturating_add(1);
        }
    }
    Ok(right)
}

/// How many rows the words of the document have, and how many of the words aren't exact.
fn counts(alloc: Global, layout: &Layout) -> Result<(usize, usize), Memory> {
    let words = document(alloc)?;
    let (rows, rest) = layout.rows_and_rest(alloc, &words)?;
    Ok((rows.len(), rest.len()))
}

fn ranked_rows(alloc: Global) -> Result<(usize, (usize, usize)), Memory> {
    let layout = ranked_layout(alloc)?;
    let right = right_words(alloc, &layout, &RANKED)?;
    Ok((right, counts(alloc, &layout)?))
}

#[test]
fn rows_lie_by_rank(rt: HostRuntime) -> Result<(), Fail> {
    assert!(rt; ranked_rows(rt.alloc())? == (4, (14, 3)));
    Ok(())
}

/// How many words are right where those of class 3 are exact too.
fn exact_rows(alloc: Global) -> Result<usize, Memory> {
    let mut config = config(6, 10, 10, 1000, 0, three_words(alloc)?);
    config.private = 3;
    let layout = layout_of(alloc, &config)?;
    Ok(right_words(alloc, &layout, &EXACT)?)
}

#[test]
fn words_up_to_a_class_have_a_row_of_their_own(rt: HostRuntime) -> Result<(), Fail> {
    assert!(rt; exact_rows(rt.alloc())? == 4);
    Ok(())
}

static HASHED: [(u8, u32, u16); 6] = [
    (0, 259, 1),
    (0, 384, 1),
    (0, 349, 1),
    (0, 210, 1),
    (0, 63, 1),
    (0, 100, 1),
];

fn are_hashed(alloc: Global) -> Result<bool, Memory> {
    let layout = plain_layout(alloc)?;
    Ok(has_rows(alloc, &layout, "a", &HASHED)?)
}

#[test]
fn rows_lie_by_hash(rt: HostRuntime) -> Result<(), Fail> {
    assert!(rt; are_hashed(rt.alloc())?);
    Ok(())
}

/// The bits of the document at a column, as pairs.
fn pairs_at(
    alloc: Global,
    layout: &Layout,
    slice: u32,
    column: u32,
) -> Result<Vec<(u32, u32)>, Memory>
    requires slice { slice < layout.now.config.slices }
    requires column { column < columns_of_slice layout.now.config }
{
    let words = document(alloc)?;
    let mut bits = Bits::for_words(alloc, &words)?;
    fill_bits(layout, &words, slice, column, &mut bits);
    Ok(pairs(alloc, &bits)?)
}

/// Whether the document has these bits at a column.
fn has_bits(
    alloc: Global,
    layout: &Layout,
    slice: u32,
    column: u32,
    wanted: &[(u32, u32)],
) -> Result<bool, Memory>
    requires slice { slice < layout.now.config.slices }
    requires column { column < columns_of_slice layout.now.config }
{
    let pairs = pairs_at(alloc, layout, slice, column)?;
    Ok(pairs.as_slice() == wanted)
}

/// Its bits at the first column, and at a later one of the second slice.
static FIRST: [(u32, u32); 7] = [
    (64, 0),
    (128, 0),
    (192, 0),
    (256, 0),
    (352, 0),
    (376, 0),
    (382, 0),
];

static LATER: [(u32, u32); 7] = [
    (493, 56),
    (557, 56),
    (621, 56),
    (685, 56),
    (746, 56),
    (761, 56),
    (765, 56),
];

fn has_each_bit(alloc: Global) -> Result<(bool, bool), Memory> {
    let layout = ranked_layout(alloc)?;
    let first = has_bits(alloc, &layout, 0, 0, &FIRST)?;
    Ok((first, has_bits(alloc, &layout, 1, 3000, &LATER)?))
}

#[test]
fn bits_are_filled_in_at_any_column(rt: HostRuntime) -> Result<(), Fail> {
    assert!(rt; has_each_bit(rt.alloc())? == (true, true));
    Ok(())
}

/// Those at the later column where slices have room for 600 words and the rows need 383, so that the second begins 217 words later.
static WITH_ROOM: [(u32, u32); 7] = [
    (710, 56),
    (774, 56),
    (838, 56),
    (902, 56),
    (963, 56),
    (978, 56),
    (982, 56),
];

/// Where the second of these slices lies, and whether the document has those bits there.
fn second_of_roomy(alloc: Global) -> Result<((u32, u32), bool), Fail> {
    let Ok(layout) = ranked_within(alloc, 600) else {
        return Err(Fail::new("there is room and memory"));
    };
    let range = layout.slice_range(1);
    Ok((range, has_bits(alloc, &layout, 1, 3000, &WITH_ROOM)?))
}

#[test]
fn slices_begin_by_their_room(rt: HostRuntime) -> Result<(), Fail> {
    assert!(rt; second_of_roomy(rt.alloc())? == ((600, 600), true));
    Ok(())
}

/// Why there is no such layout in slices of so many words.
fn fault_within(alloc: Global, room: u32) -> Option<LayoutFault>
    requires { room ≤ 1000 }
{
    match ranked_within(alloc, room) {
        Ok(_) => None,
        Err(fault) => Some(fault),
    }
}

#[test]
fn rows_without_room_are_too_wide(rt: HostRuntime) {
    let wide = Some(LayoutFault::Wide {
        needed: 383,
        room: 382,
    });
    assert!(rt; fault_within(rt.alloc(), 382) == wide);
    assert!(rt; fault_within(rt.alloc(), 383) == None);
}

/// The words of 26 rows for each word of the document, where some share one.
static CROWDED: [u32; 74] = [
    14, 17, 35, 37, 38, 42, 45, 46, 47, 54, 56, 60, 61, 70, 75, 79, 81, 84, 92, 107, 114, 116, 120,
    124, 138, 147, 151, 157, 162, 164, 172, 183, 201, 203, 205, 207, 239, 240, 241, 242, 246, 248,
    252, 258, 288, 298, 311, 323, 329, 331, 334, 335, 371, 373, 407, 418, 422, 426, 430, 432, 434,
    449, 453, 457, 459, 469, 481, 487, 496, 497, 500, 501, 508, 511,
];

/// Whether these are the first bits of those words.
fn are_crowded(pairs: &[(u32, u32)]) -> bool {
    let mut same = pairs.len() == CROWDED.len();
    for ((word, bit), wanted) in pairs.iter().zip(&CROWDED) {
        same &= *bit == 0 && word == wanted;
    }
    same
}

/// How many rows a word has, and whether the document has a bit in each of its rows.
fn crowded(alloc: Global) -> Result<(u8, bool), Memory> {
    let layout = crowded_layout(alloc)?;
    let pairs = pairs_at(alloc, &layout, 0, 0)?;
    Ok((layout.count_of(b"cat"), are_crowded(pairs.as_slice())))
}

#[test]
fn a_document_has_a_bit_in_each_of_its_rows(rt: HostRuntime) -> Result<(), Fail> {
    assert!(rt; crowded(rt.alloc())? == (26, true));
    Ok(())
}
