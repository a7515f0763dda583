//! Scans for searches, beside a look at the bits of each column.
ghost use Rattle.std.specs.Prelude.{◌≡◌, ◌<◌, ◌≤◌};
ghost use Rattle.funnel_model.specs.Configuration.{IsBetween};
ghost use Rattle.funnel_model.specs.Sizes.{columns_of_slice};

use crate::setting::{layout_of_blocks, three_words};
use bool_query::{parse_query, required};
use funnel_model::{Candidates, Memory, WordSet};
use plan_rows::{plan, plan_search};
use rank_matcher::{Hits, scan_search};
use row_layout::{Bits, Layout, fill_bits};
use row_read::Image;
use std::alloc::{AllocError, Global};
use std::test::Fail;
use word_cut::words;

/// What is found in slice 1 of these row words.
fn scan_query(alloc: Global, layout: &Layout, query: &str, row_words: &[u64]) -> Result<Hits, Fail>
    requires { layout.now.config.slices ≡ 2 }
{
    let wanted = required(alloc, &parse_query(alloc, query)?)?;
    let planned = plan(alloc, layout, &wanted.words)?;
    let (plan, _) = planned;
    let search = plan_search(alloc, layout, &wanted.residue)?;
    let (first, count) = layout.slice_range(1);
    if (first + count) as usize > row_words.len() {
        return Err(Fail::new("the words have the slice"));
    }
    let mut image = Image::new(row_words);
    let mut hits = Hits::new(alloc);
    scan_search(&mut image, layout, &plan, &search, 1, &mut hits)?;
    Ok(hits)
}

/// What bits tell of an expression: whether it may keep a document, and whether it surely does.
#[derive(Clone, Copy)]
struct Told {
    may: bool,
    sure: bool,
}

fn both(one: Told, other: Told) -> Told {
    Told {
        may: one.may && other.may,
        sure: one.sure && other.sure,
    }
}

fn either(one: Told, other: Told) -> Told {
    Told {
        may: one.may || other.may,
        sure: one.sure || other.sure,
    }
}

fn contrary(one: Told) -> Told {
    Told {
        may: !one.sure,
        sure: !one.may,
    }
}

/// Whether each bit that a document of this word would have at the column of slice 1 is set, and whether that tells the word.
fn look(
    alloc: Global,
    layout: &Layout,
    word: &WordSet,
    column: u32,
    row_words: &[u64],
) -> Result<Told, Memory>
    requires slices { layout.now.config.slices ≡ 2 }
    requires column { column < columns_of_slice layout.now.config }
{
    let mut bits = Bits::for_words(alloc, word)?;
    fill_bits(layout, word, 1, column, &mut bits);
    let mut may = true;
    for bit in bits.as_slice() {
        may &= match row_words.get(bit.word as usize) {
            Some(row_word) => row_word.wrapping_shr(bit.bit) & 1 == 1,
            None => false,
        };
    }
    let (_, rest) = layout.rows_and_rest(alloc, word)?;
    let sure = may && rest.is_empty();
    Ok(Told { may, sure })
}

/// The queries that are scanned for.
static QUERIES: [&str; 3] = [
    "cat the",
    "the | -cat",
    "cat (the | -axolotl) -(axolotl the)",
];

/// What the required words of a query tell, and what the rest of it does.
fn tell(query: usize, axolotl: Told, cat: Told, the: Told) -> (bool, Told) {
    match query {
        0 => (
            cat.may && the.may,
            Told {
                may: true,
                sure: true,
            },
        ),
        1 => (true, either(the, contrary(cat))),
        _ => (
            cat.may,
            both(either(the, contrary(axolotl)), contrary(both(axolotl, the))),
        ),
    }
}

/// The columns that a scan for the query is to find, those where it is sure and the others.
fn columns(
    alloc: Global,
    layout: &Layout,
    query: usize,
    row_words: &[u64],
) -> Result<(Candidates, Candidates), Fail>
    requires { layout.now.config.slices ≡ 2 }
{
    let axolotl = words(alloc, "axolotl")?;
    let cat = words(alloc, "cat")?;
    let the = words(alloc, "the")?;
    let mut sure = Candidates::new(Vec::new(alloc));
    let mut unsure = Candidates::new(Vec::new(alloc));
    for column in 0..layout.columns() {
        let axolotl = look(alloc, layout, &axolotl, column, row_words)?;
        let cat = look(alloc, layout, &cat, column, row_words)?;
        let the = look(alloc, layout, &the, column, row_words)?;
        let (left, told) = tell(query, axolotl, cat, the);
        if left && told.sure {
            sure.push(1, column)?;
        } else if left && told.may {
            unsure.push(1, column)?;
        }
    }
    Ok((sure, unsure))
}

/// So many words, of whose bits seven of eight are set.
fn row_words(alloc: Global, count: usize) -> Result<Vec<u64>, AllocError> {
    let mut made = Vec::with_capacity(alloc, count)?;
    let mut last: u64 = 1;
    for _ in 0..count {
        last = last
            .wrapping_mul(6_364_136_223_846_793_005)
            .wrapping_add(1_442_695_040_888_963_407);
        made.push(last | last.rotate_left(21) | last.rotate_left(42))?;
    }
    Ok(made)
}

/// How many of the queries find in a layout what they are to find, and how many columns these are.
fn right_queries(alloc: Global, blocks: u32, max_rank: u8) -> Result<(usize, usize), Fail>
    requires blocks { IsBetween 1 4 blocks }
    requires max_rank { max_rank ≤ 6 }
{
    let layout = layout_of_blocks(alloc, blocks, max_rank, three_words(alloc)?)?;
    let (first, count) = layout.slice_range(1);
    let row_words = row_words(alloc, (first + count) as usize)?;
    let mut right: usize = 0;
    let mut found: usize = 0;
    for query in 0..QUERIES.len() {
        let hits = scan_query(alloc, &layout, QUERIES[query], row_words.as_slice())?;
        let (sure, unsure) = columns(alloc, &layout, query, row_words.as_slice())?;
        if hits.sure.as_slice() == sure.as_slice() && hits.unsure.as_slice() == unsure.as_slice() {
            right = right.saturating_add(1);
        }
        found = found
            .saturating_add(unsure.len())
            .saturating_add(sure.len());
    }
    Ok((right, found))
}

/// The same in layouts of each rank, with one to four blocks.
fn right_in_all(alloc: Global) -> Result<(usize, usize), Fail> {
    let mut right: usize = 0;
    let mut found: usize = 0;
    for max_rank in 0..7 {
        let (queries, columns) = right_queries(alloc, max_rank % 4 + 1, max_rank as u8)?;
        right = right.saturating_add(queries);
        found = found.saturating_add(columns);
    }
    Ok((right, found))
}

#[test]
fn a_scan_for_a_search_finds_what_the_bits_of_each_column_tell(
    rt: HostRuntime,
) -> Result<(), Fail> {
    let (right, found) = right_in_all(rt.alloc())?;
    assert!(rt; right == 7 * QUERIES.len());
    assert!(rt; found > 10_000);
    Ok(())
}
