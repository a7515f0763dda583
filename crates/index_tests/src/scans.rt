//! Scans of slices whose row words are written out, and the reads that they take.
ghost use Rattle.std.specs.Prelude.{◌≡◌, ◌<◌, ◌≤◌, length, All, IfOk};
ghost use Rattle.funnel_model.specs.Configuration.{IsBetween};
ghost use Rattle.index_tests.specs.Settings.{CanBeListed};
ghost use Rattle.row_layout.specs.Rows.{IsRowOf};

use crate::setting::layout_of_blocks;
use funnel_model::{Candidates, Listed};
use plan_rows::plan;
use rank_matcher::scan;
use row_layout::{Layout, Plan};
use row_read::{Image, Rows};
use std::alloc::{AllocError, Global};
use std::marker::Model;
use std::test::Fail;
use word_cut::words;

/// One listed word, of which one document in sixteen has it, so that it has a row of rank 1 and two of rank 0.
fn otter(alloc: Global) -> Result<Listed, AllocError>
    ensures { IfOk result (CanBeListed 1000) }
{
    let otter = String::from_str(alloc, "otter")?;
    Ok(Listed::new(vec![in alloc; (otter, 62)]?))
}

/// A plan for slices that are laid out so.
#[derive(Drop)]
struct Planned {
    layout: Layout,
    plan: Plan,
}

impl Model for Planned {
    ghost use Rattle.std.specs.Prelude.{◌≡◌, All};
    ghost use Rattle.row_layout.specs.Rows.{IsRowOf};

    ghost Value = { Unit {0} };

    ghost view = { λ _. tt };

    ghost invariant = { λ p. (p.layout.config.slices ≡ 2) × All (IsRowOf p.layout.config) p.plan };
}

/// The plan of a query.
fn plan_in(alloc: Global, layout: &Layout, query: &str) -> Result<Plan, Fail>
    ensures { IfOk result (λ plan. All (IsRowOf layout.now.config) plan) }
{
    let words = words(alloc, query)?;
    let planned = plan(alloc, layout, &words)?;
    let (plan, _) = planned;
    Ok(plan)
}

/// That in so many blocks and with rows up to this rank.
fn plan_of(alloc: Global, blocks: u32, max_rank: u8, query: &str) -> Result<Planned, Fail>
    requires blocks { IsBetween 1 2 blocks }
    requires max_rank { max_rank ≤ 6 }
{
    let layout = layout_of_blocks(alloc, blocks, max_rank, otter(alloc)?)?;
    let plan = plan_in(alloc, &layout, query)?;
    Ok(Planned { layout, plan })
}

/// The columns that were found, and how many words were read.
type Scanned = (Vec<(u32, u32)>, u64);

/// Scans a slice of these words, where they have the slice.
fn scan_words(
    alloc: Global,
    planned: &Planned,
    slice: u32,
    words: &[u64],
) -> Result<Scanned, Fail> {
    if slice >= 2 {
        return Err(Fail::new("there are two slices"));
    }
    let (first, count) = planned.layout.slice_range(slice);
    if (first + count) as usize > words.len() {
        return Err(Fail::new("the words have the slice"));
    }
    let mut image = Image::new(words);
    let mut candidates = Candidates::new(Vec::new(alloc));
    scan(
        &mut image,
        &planned.layout,
        &planned.plan,
        slice,
        &mut candidates,
    )?;
    Ok((candidates.into_inner(), image.reads()))
}

/// Whether a scan finds these columns by so many reads.
fn finds(
    alloc: Global,
    planned: &Planned,
    slice: u32,
    words: &[u64],
    wanted: &[(u32, u32)],
    wanted_reads: u64,
) -> Result<bool, Fail> {
    let (columns, reads) = scan_words(alloc, planned, slice, words)?;
    Ok(columns.as_slice() == wanted && reads == wanted_reads)
}

const ONES: u64 = u64::MAX;

/// A slice, the words of two slices, and what is found by how many reads. In a slice stand two rows of rank 0 and then one of
/// rank 1, and a word that no row of the plan has.
static SMALL: [(u32, &[u64], &[(u32, u32)], u64); 4] = [
    (
        0,
        &[1, 4, 1, 3, 5, ONES, ONES, ONES, ONES, ONES, ONES, ONES],
        &[(0, 0)],
        5,
    ),
    (
        1,
        &[ONES, ONES, ONES, ONES, ONES, ONES, 1, 0, 1, 3, 5, ONES],
        &[(1, 0)],
        4,
    ),
    (
        1,
        &[ONES, ONES, ONES, ONES, ONES, ONES, 1, 4, 1, 3, 0, ONES],
        &[],
        1,
    ),
    (
        1,
        &[ONES, ONES, ONES, ONES, ONES, ONES, 1, 4, 1, 7, 5, ONES],
        &[(1, 0), (1, 66)],
        5,
    ),
];

/// How many of these slices are scanned as they should be.
fn right_scans(alloc: Global, planned: &Planned) -> Result<usize, Fail> {
    let mut right: usize = 0;
    for (slice, words, wanted, reads) in &SMALL {
        if finds(alloc, planned, *slice, words, wanted, *reads)? {
            right = right.saturating_add(1);
        }
    }
    Ok(right)
}

fn scan_small(alloc: Global) -> Result<usize, Fail> {
    let planned = plan_of(alloc, 1, 1, "otter")?;
    right_scans(alloc, &planned)
}

#[test]
fn columns_with_a_bit_in_every_row_are_found(rt: HostRuntime) -> Result<(), Fail> {
    assert!(rt; scan_small(rt.alloc())? == SMALL.len());
    Ok(())
}

static OF_TWO_BLOCKS: [u64; 12] = [3, 3, 3, 3, 3, 3, 3, 3, 1, 2, ONES, ONES];

fn finds_in_two_blocks(alloc: Global) -> Result<bool, Fail> {
    let planned = plan_of(alloc, 2, 1, "otter")?;
    let wanted = [(0, 0), (0, 64), (0, 129), (0, 193)];
    finds(alloc, &planned, 0, &OF_TWO_BLOCKS, &wanted, 10)
}

#[test]
fn a_word_of_a_higher_rank_covers_the_words_that_follow_one_another(
    rt: HostRuntime,
) -> Result<(), Fail> {
    assert!(rt; finds_in_two_blocks(rt.alloc())?);
    Ok(())
}

/// The columns 0, 1100, 1164 and 8191 of slice 1 have their bits in two rows of rank 0 and one of rank 1.
static BITS: [(usize, u64); 12] = [
    (446, 1),
    (463, 1 << 12),
    (464, 1 << 12),
    (573, 1 << 63),
    (574, 1),
    (591, 1 << 12),
    (592, 1 << 12),
    (701, 1 << 63),
    (702, 1),
    (710, 1 << 12),
    (711, 1 << 12),
    (765, 1 << 63),
];

/// The words of two slices with those bits.
fn many_words(alloc: Global) -> Result<Vec<u64>, AllocError> {
    let mut words = vec![in alloc; 0; 892]?;
    for (word, set) in &BITS {
        if *word < words.len() {
            words[*word] = *set;
        }
    }
    Ok(words)
}

fn finds_in_many_words(alloc: Global) -> Result<bool, Fail> {
    let planned = plan_of(alloc, 2, 6, "otter")?;
    let words = many_words(alloc)?;
    let wanted = [(1, 0), (1, 1100), (1, 1164), (1, 8191)];
    finds(alloc, &planned, 1, words.as_slice(), &wanted, 76)
}

#[test]
fn a_slice_of_many_words_is_searched(rt: HostRuntime) -> Result<(), Fail> {
    assert!(rt; finds_in_many_words(rt.alloc())?);
    Ok(())
}

/// Every column of slice 0, of 128.
fn every_column(alloc: Global) -> Result<Vec<(u32, u32)>, AllocError> {
    let mut columns = Vec::with_capacity(alloc, 128)?;
    for column in 0..128 {
        columns.push((0, column))?;
    }
    Ok(columns)
}

fn finds_every_column(alloc: Global) -> Result<bool, Fail> {
    let planned = plan_of(alloc, 1, 1, "")?;
    let wanted = every_column(alloc)?;
    finds(alloc, &planned, 0, &[0; 6], wanted.as_slice(), 0)
}

#[test]
fn a_plan_without_rows_finds_every_column(rt: HostRuntime) -> Result<(), Fail> {
    assert!(rt; finds_every_column(rt.alloc())?);
    Ok(())
}

/// Words in which other threads set their highest bits, so that a read has more bits than it must have.
#[derive(Drop)]
struct Changing<'a> {
    words: &'a [u64],
    reads: u64,
}

impl<'a> Rows for Changing<'a> {
    ghost use Rattle.std.specs.Prelude.{⊤};
    ghost use Rattle.std.specs.declared.option.Option.TheVariants.{None};
    ghost use Rattle.funnel_model.specs.RowWords.{IsSetIn};

    ghost Kept = { ⊤ };

    ghost reach = { λ rows word. word < length rows.words.now };

    ghost least = { λ rows bit. IsSetIn rows.words.now bit };

    ghost seen = { λ _ _. ⊤ };

    ghost told = { λ _. None };

    ghost kept = { λ _. tt };

    ghost reads = { λ rows. rows.reads };

    ghost is_read = { λ _ _ _ _. ⊤ };

    fn read(&mut self, word: u32) -> u64 {
        self.reads = self.reads.saturating_add(1);
        self.words[word as usize] | 1 << 63
    }

    fn reads(&self) -> u64 {
        self.reads
    }
}

/// Scans slice 0 of words that change so. There is a candidate already.
fn scan_changing(alloc: Global, planned: &Planned, words: &[u64]) -> Result<Scanned, Fail> {
    let (first, count) = planned.layout.slice_range(0);
    if (first + count) as usize > words.len() {
        return Err(Fail::new("the words have the slice"));
    }
    let mut rows = Changing { words, reads: 0 };
    let mut candidates = Candidates::new(vec![in alloc; (7, 7)]?);
    scan(
        &mut rows,
        &planned.layout,
        &planned.plan,
        0,
        &mut candidates,
    )?;
    Ok((candidates.into_inner(), rows.reads()))
}

/// Whether that finds these columns beside it by so many reads.
fn finds_changing(
    alloc: Global,
    planned: &Planned,
    words: &[u64],
    wanted: &[(u32, u32)],
    wanted_reads: u64,
) -> Result<bool, Fail> {
    let (columns, reads) = scan_changing(alloc, planned, words)?;
    Ok(columns.as_slice() == wanted && reads == wanted_reads)
}

fn finds_what_changes(alloc: Global) -> Result<bool, Fail> {
    let planned = plan_of(alloc, 1, 1, "otter")?;
    let wanted = [(7, 7), (0, 0), (0, 63), (0, 127)];
    finds_changing(alloc, &planned, &[1, 4, 1, 3, 5, 0], &wanted, 5)
}

#[test]
fn bits_that_other_threads_set_are_found_too(rt: HostRuntime) -> Result<(), Fail> {
    assert!(rt; finds_what_changes(rt.alloc())?);
    Ok(())
}

/// The count of reads, three words that are read, one of them twice, and the count then.
fn read_three() -> (u64, [u64; 3], u64) {
    let words = [5, 0, u64::MAX];
    let mut image = Image::new(&words);
    let before = image.reads();
    let read = [image.read(2), image.read(0), image.read(0)];
    (before, read, image.reads())
}

#[test]
fn reads_are_counted(rt: HostRuntime) {
    assert!(rt; read_three() == (0, [u64::MAX, 5, 5], 3));
}
