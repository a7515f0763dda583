//! Documents in their columns, and what a find makes of them.
ghost use Rattle.std.specs.Prelude.{◌≡◌, ◌<◌, ◌≤◌, [], ◌∷◌, IfOk, length};

use document_store::{Column, Doc, Found, Records, resolve_part, verify};
use funnel_model::{Candidates, Ids, Memory, Text, WordSet};
use std::alloc::{AllocError, Global};
use std::marker::Model;
use std::test::Fail;
use word_cut::{WordFault, words};

fn document(alloc: Global, id: u64, text: &str) -> Result<Doc, WordFault> {
    let words = words(alloc, text)?;
    let copied = text_of(alloc, text)?;
    Ok(Doc::new(id, copied, words))
}

fn text_of(alloc: Global, text: &str) -> Result<Text, AllocError>
    ensures { IfOk result (λ made. made ≡ text.now) }
{
    Ok(Text::new(String::from_str(alloc, text)?))
}

/// Whether the document has every word of the query.
fn has_words(alloc: Global, doc: &Doc, query: &str) -> Result<bool, WordFault> {
    Ok(verify(doc, &words(alloc, query)?))
}

/// The number of the document, whether it has this text, and how many words it has.
fn parts(doc: &Doc, text: &str) -> (u64, bool, usize) {
    (doc.id(), doc.text() == text, doc.words().len())
}

/// Whether a document has the words of each of these queries.
fn has_each(alloc: Global, doc: &Doc, queries: [&str; 3]) -> Result<[bool; 3], WordFault> {
    let [first, second, third] = queries;
    let has_first = has_words(alloc, doc, first)?;
    let has_second = has_words(alloc, doc, second)?;
    Ok([has_first, has_second, has_words(alloc, doc, third)?])
}

/// The parts of a document, and whether it has the words `cat`, `dog`, and both.
fn described(alloc: Global, text: &str) -> Result<((u64, bool, usize), [bool; 3]), WordFault> {
    let doc = document(alloc, 7, text)?;
    let has = has_each(alloc, &doc, ["cat", "dog", "cat dog"])?;
    Ok((parts(&doc, text), has))
}

#[test]
fn a_document_has_its_words(rt: HostRuntime) -> Result<(), Fail> {
    assert!(rt; described(rt.alloc(), "cat")? == ((7, true, 1), [true, false, false]));
    Ok(())
}

/// Whether a document of five words has three of them, two of them and another, and all of them and another.
fn compared(alloc: Global) -> Result<[bool; 3], WordFault> {
    let doc = document(alloc, 7, "the cat sat on the mat")?;
    has_each(
        alloc,
        &doc,
        ["mat sat the", "cat dog mat", "on the mat a cat sat"],
    )
}

#[test]
fn many_words_are_compared_with_those_of_a_document(rt: HostRuntime) -> Result<(), Fail> {
    assert!(rt; compared(rt.alloc())? == [true, false, false]);
    Ok(())
}

/// Records of two slices of four columns. Contracts see nothing of them.
#[derive(Drop)]
struct Columns {
    records: Records,
}

impl Model for Columns {
    ghost use Rattle.std.specs.Prelude.{◌≡◌, false, replicate};

    ghost Value = { Unit {0} };

    ghost view = { λ _. tt };

    ghost invariant = { λ c. (c.records.slices ≡ 2) × (c.records.columns ≡ 4) × (c.records.out ≡ replicate 2 false) };
}

impl Columns {
    fn new(alloc: Global) -> Result<Columns, WordFault> {
        let records = Records::new(alloc, 2, 4)?;
        Ok(Columns { records })
    }

    /// What became of a column, and whether it keeps a document.
    fn state(&self, slice: u32, column: u32) -> (Column, bool)
        requires { (slice < 2) × (column < 4) }
    {
        let kept = self.records.doc(slice, column).is_some();
        (self.records.state(slice, column), kept)
    }

    /// Claims a column for pass 2, where it is free.
    fn claim(&mut self, slice: u32, column: u32)
        requires { (slice < 2) × (column < 4) }
    {
        if self.records.state(slice, column) == Column::Free {
            self.records.claim(slice, column, 2);
        }
    }

    /// Puts a document into a column that is claimed.
    fn put(&mut self, slice: u32, column: u32, doc: Doc, place: u64, since: u64)
        requires { (slice < 2) × (column < 4) }
    {
        if let Column::Pending(_) = self.records.state(slice, column) {
            self.records.live(slice, column, doc, place, since);
        }
    }

    /// Drops a column that is claimed.
    fn refuse(&mut self, slice: u32, column: u32)
        requires { (slice < 2) × (column < 4) }
    {
        if let Column::Pending(_) = self.records.state(slice, column) {
            self.records.drop_column(slice, column);
        }
    }

    /// Takes the document off a column, where it is live.
    fn delete(&mut self, slice: u32, column: u32, until: u64)
        requires { (slice < 2) × (column < 4) }
    {
        if let Column::Live { .. } = self.records.state(slice, column) {
            self.records.delete(slice, column, until);
        }
    }

    /// Takes the slots of the second slice out, empties them and puts them back: the state of its first column meanwhile.
    fn empty_second(&mut self) -> (Column, bool) {
        let slots = self.records.take_out(1);
        let kept = self.records.doc(1, 0).is_some();
        let meanwhile = (self.records.state(1, 0), kept);
        self.records.put_back(1, slots.empty());
        meanwhile
    }

    /// The states of two columns: one is claimed, gets a document that is deleted later, and is freed as its slice is emptied;
    /// and the other is dropped.
    fn lead(&mut self, doc: Doc) -> [(Column, bool); 8] {
        let free = self.state(1, 0);
        self.claim(1, 0);
        let pending = self.state(1, 0);
        self.put(1, 0, doc, 3, 8);
        let live = self.state(1, 0);
        self.delete(1, 0, 11);
        let over = self.state(1, 0);
        self.claim(0, 1);
        self.refuse(0, 1);
        let dropped = self.state(0, 1);
        let meanwhile = self.empty_second();
        [
            free,
            pending,
            live,
            over,
            dropped,
            meanwhile,
            self.state(1, 0),
            self.state(0, 1),
        ]
    }
}

/// The states of the two columns, step by step.
fn states(alloc: Global) -> Result<[(Column, bool); 8], Fail> {
    let doc = document(alloc, 7, "cat")?;
    let mut columns = Columns::new(alloc)?;
    Ok(columns.lead(doc))
}

static STATES: [(Column, bool); 8] = [
    (Column::Free, false),
    (Column::Pending(2), false),
    (Column::Live { place: 3, since: 8 }, true),
    (
        Column::Over {
            place: 3,
            since: 8,
            until: 11,
        },
        true,
    ),
    (Column::Dropped, false),
    (Column::Free, false),
    (Column::Free, false),
    (Column::Dropped, false),
];

#[test]
fn a_column_goes_through_its_states(rt: HostRuntime) -> Result<(), Fail> {
    assert!(rt; states(rt.alloc())? == STATES);
    Ok(())
}

/// The slice, the column, the number, the text and the place of each add, and its event's number. Numbers 9, 5, 7, 4 and 8
/// are added one after another.
static ADDED: [(u32, u32, u64, &str, u64, u64); 5] = [
    (0, 0, 7, "cat", 3, 6),
    (0, 1, 5, "dog", 2, 4),
    (0, 2, 9, "cat", 1, 2),
    (1, 0, 4, "cat", 4, 8),
    (1, 2, 8, "cat", 5, 10),
];

/// Puts each document into its column.
fn add_each(alloc: Global, columns: &mut Columns) -> Result<(), WordFault> {
    for (slice, column, id, text, place, since) in &ADDED {
        let (slice, column) = (*slice, *column);
        if slice < 2 && column < 4 {
            columns.claim(slice, column);
            columns.put(slice, column, document(alloc, *id, text)?, *place, *since);
        }
    }
    Ok(())
}

/// Event 11 deletes number 4, one column is dropped, and event 14 moves number 7, which this document has.
fn delete_and_move(columns: &mut Columns, moved: Doc) {
    columns.delete(1, 0, 11);
    columns.claim(1, 1);
    columns.refuse(1, 1);
    columns.claim(1, 3);
    columns.put(1, 3, moved, 3, 14);
    columns.delete(0, 0, 14);
}

/// Every column as a candidate.
fn every_column(alloc: Global) -> Result<Candidates, AllocError>
    ensures { IfOk result (λ all. all ≡ (0, 0) ∷ (0, 1) ∷ (0, 2) ∷ (0, 3) ∷ (1, 0) ∷ (1, 1) ∷ (1, 2) ∷ (1, 3) ∷ []) }
{
    let columns = [
        (0, 0),
        (0, 1),
        (0, 2),
        (0, 3),
        (1, 0),
        (1, 1),
        (1, 2),
        (1, 3),
    ];
    Ok(Candidates::new(columns.to_vec(alloc)?))
}

/// What the find of these words with a number makes of every column.
fn found_at(
    alloc: Global,
    columns: &Columns,
    words: &WordSet,
    opened_at: u64,
) -> Result<Found, WordFault>
    ensures { IfOk result (λ out. length out.found ≤ 8) }
{
    let candidates = every_column(alloc)?;
    let mut out = Found::with_room(alloc, 8)?;
    let cost = words.len();
    resolve_part(
        &columns.records,
        &candidates,
        0,
        words,
        cost,
        opened_at,
        &mut out,
    );
    out.sort();
    Ok(out)
}

/// Whether the find of these words with a number finds documents whose adds have these places and that have these numbers.
fn finds_at_places(
    alloc: Global,
    columns: &Columns,
    words: &WordSet,
    opened_at: u64,
    wanted: &[(u64, u64)],
) -> Result<bool, WordFault> {
    let found = found_at(alloc, columns, words, opened_at)?;
    Ok(found.as_slice() == wanted)
}

/// The numbers of the documents that the find of these words with a number finds.
fn numbers_at(
    alloc: Global,
    columns: &Columns,
    words: &WordSet,
    opened_at: u64,
) -> Result<Ids, WordFault> {
    let room = Vec::with_capacity(alloc, 8)?;
    let found = found_at(alloc, columns, words, opened_at)?;
    Ok(found.into_ids(room))
}

/// Whether it finds these documents in this order.
fn finds(
    alloc: Global,
    columns: &Columns,
    words: &WordSet,
    opened_at: u64,
    wanted: &[u64],
) -> Result<bool, WordFault> {
    let numbers = numbers_at(alloc, columns, words, opened_at)?;
    Ok(numbers.as_slice() == wanted)
}

fn fill(alloc: Global, columns: &mut Columns) -> Result<(), WordFault> {
    add_each(alloc, columns)?;
    let moved = document(alloc, 7, "cat")?;
    delete_and_move(columns, moved);
    Ok(())
}

/// The columns with each document, where number 7 has moved.
fn filled(alloc: Global) -> Result<Columns, WordFault> {
    let mut columns = Columns::new(alloc)?;
    fill(alloc, &mut columns)?;
    Ok(columns)
}

/// What the finds with these numbers find. The one that began before number 7 moves and the one after it find it once each.
static FOUND: [(u64, &[u64]); 6] = [
    (1, &[]),
    (3, &[9]),
    (9, &[9, 7, 4]),
    (10, &[9, 7, 4]),
    (12, &[9, 7, 8]),
    (15, &[9, 7, 8]),
];

/// The first of these finds of some words that finds others.
fn wrong_find(alloc: Global, columns: &Columns, words: &WordSet) -> Result<Option<u64>, WordFault> {
    for (opened_at, wanted) in &FOUND {
        if !finds(alloc, columns, words, *opened_at, wanted)? {
            return Ok(Some(*opened_at));
        }
    }
    Ok(None)
}

/// That find of the word `cat`, and whether the last find has the places of the adds too.
fn found_in_order(alloc: Global, columns: &Columns) -> Result<(Option<u64>, bool), WordFault> {
    let words = words(alloc, "cat")?;
    let wrong = wrong_find(alloc, columns, &words)?;
    let placed = finds_at_places(alloc, columns, &words, 15, &[(1, 9), (3, 7), (5, 8)])?;
    Ok((wrong, placed))
}

fn fill_and_find(alloc: Global) -> Result<(Option<u64>, bool), WordFault> {
    let columns = filled(alloc)?;
    found_in_order(alloc, &columns)
}

#[test]
fn documents_are_found_in_the_order_of_their_adds(rt: HostRuntime) -> Result<(), Fail> {
    assert!(rt; fill_and_find(rt.alloc())? == (None, true));
    Ok(())
}

/// Where the turn of a find of these words ends that begins with this candidate, where each document counts as so many words.
fn end_of_turn(
    alloc: Global,
    columns: &Columns,
    words: &WordSet,
    from: usize,
    cost: usize,
) -> Result<usize, WordFault>
    requires from { from ≤ 8 }
{
    let candidates = every_column(alloc)?;
    let mut out = Found::with_room(alloc, 8)?;
    let cost = cost.max(words.len());
    Ok(resolve_part(
        &columns.records,
        &candidates,
        from,
        words,
        cost,
        12,
        &mut out,
    ))
}

/// The first candidate of a turn, what a document costs, and where the turn ends. Of the eight columns, the first three and the
/// last but one had a document as the find began.
static TURNS: [(usize, usize, usize); 7] = [
    (0, 256, 1),
    (1, 300, 2),
    (3, 256, 7),
    (7, 256, 8),
    (0, 100, 3),
    (2, 100, 8),
    (0, 1, 8),
];

/// The first of these turns that ends elsewhere: its first candidate, what a document costs, and where it ends.
fn wrong_turn(
    alloc: Global,
    columns: &Columns,
    words: &WordSet,
) -> Result<Option<(usize, usize, usize)>, WordFault> {
    for (from, cost, end) in &TURNS {
        let reached = end_of_turn(alloc, columns, words, (*from).min(8), *cost)?;
        if reached != *end {
            return Ok(Some((*from, *cost, reached)));
        }
    }
    Ok(None)
}

fn wrong_turn_of_cats(
    alloc: Global,
    columns: &Columns,
) -> Result<Option<(usize, usize, usize)>, WordFault> {
    let words = words(alloc, "cat")?;
    wrong_turn(alloc, columns, &words)
}

fn fill_and_turn(alloc: Global) -> Result<Option<(usize, usize, usize)>, WordFault> {
    let columns = filled(alloc)?;
    wrong_turn_of_cats(alloc, &columns)
}

#[test]
fn a_turn_ends_with_the_document_that_costs_too_much(rt: HostRuntime) -> Result<(), Fail> {
    assert!(rt; fill_and_turn(rt.alloc())? == None);
    Ok(())
}

/// The state of the last column of many.
fn last_of_many(alloc: Global) -> Result<Column, Memory> {
    let records = Records::new(alloc, 3, 2_000)?;
    Ok(records.state(2, 1_999))
}

/// How many documents were found where there is room for many.
fn none_of_many(alloc: Global) -> Result<usize, Memory> {
    let found = Found::with_room(alloc, 6_000)?;
    Ok(found.len())
}

#[test]
fn thousands_of_columns_find_memory(rt: HostRuntime) -> Result<(), Fail> {
    assert!(rt; last_of_many(rt.alloc())? == Column::Free);
    assert!(rt; none_of_many(rt.alloc())? == 0);
    Ok(())
}
