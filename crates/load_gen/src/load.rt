ghost use Rattle.std.specs.Prelude.{◌≡◌, ◌<◌, ◌≤◌, ◌+◌, ◌*◌, ◌++◌, ℕ, List, Some, length, decimal, slice_get, slice_index_or, IfOk};
ghost use Rattle.std.specs.Prelude.{string_bytes, string_capacity, string_len};
ghost use Rattle.funnel_model.specs.WordSets.{pieces};
ghost use Rattle.load_gen.specs.Documents.{documents, longest_text, text_of_document};
ghost use Rattle.load_gen.specs.Generator.{state_after};
ghost use Rattle.load_gen.specs.Stored.{AreStored};

use crate::generator::Generator;
use crate::limits::{MOST_DOCS, MOST_WORDS};
use funnel_model::Memory;
use itoa::Buffer;
use std::alloc::Global;
use std::marker::Model;

/// Room for a document's name, which has a letter and at most 7 digits.
const NAME_ROOM: u64 = 8;

/// Room for a drawn word, which has a space, a letter and at most 4 digits.
const WORD_ROOM: u64 = 6;

/// The documents of a load. Contracts see them as the list of their texts; the number of document `i` is `i + 1`.
///
/// The texts lie one after the other in one string, and the end of each in a list.
#[derive(Debug, Drop)]
pub struct Load {
    texts: String,
    ends: Vec<usize>,
}

impl Model for Load {
    ghost Value = { List (List ℕ) };

    ghost view = { λ l. pieces 0 l.ends.items (string_bytes l.texts) };

    ghost invariant = { λ l. AreStored (string_bytes l.texts) l.ends.items };
}

/// Generates the documents of a load from the seed, each with so many drawn words.
///
/// It takes memory before the first document alone: as much as the texts can have bytes, and for their ends.
pub fn make(alloc: Global, seed: u64, docs: u32, words: u32) -> Result<Load, Memory>
    requires some { 1 ≤ docs }
    requires docs_in_range { docs ≤ MOST_DOCS }
    requires words_in_range { words ≤ MOST_WORDS }
    ensures { IfOk result (λ load. load ≡ documents docs words seed) }
{
    let mut generator = Generator::new(seed);
    let mut texts = String::with_capacity(alloc, longest_texts(docs, words))?;
    let mut ends = Vec::with_capacity(alloc, docs as usize)?;
    for i in 0..docs {
        push_document(&mut texts, &mut generator, i + 1, words);
        // There is room for each.
        if ends.push(texts.len()).is_err() {
            unreachable!()
        }
    }
    Ok(Load { texts, ends })
}

/// The most bytes that so many texts can have.
fn longest_texts(docs: u32, words: u32) -> usize
    requires docs_in_range { docs ≤ MOST_DOCS }
    requires words_in_range { words ≤ MOST_WORDS }
    ensures { result ≡ docs * longest_text words }
{
    let each = NAME_ROOM + WORD_ROOM * u64::from(words);
    (u64::from(docs) * each) as usize
}

impl Load {
    /// The number of documents.
    pub fn docs(&self) -> u32
        ensures count { result ≡ length self.now }
        ensures in_range { result ≤ MOST_DOCS }
    {
        self.ends.len() as u32
    }

    /// The text of document `i`, from 0 on.
    pub fn text(&self, i: u32) -> &str
        requires { i < length self.now }
        ensures { slice_get self.now i ≡ Some result.now }
    {
        text_at(self.texts.as_str(), self.ends.as_slice(), i as usize)
    }
}

/// The piece of the texts with this index.
fn text_at<'a>(texts: &'a str, ends: &[usize], index: usize) -> &'a str
    requires in_range { index < length ends.now }
    requires stored { AreStored texts.now ends.now }
    ensures { result.now ≡ slice_index_or (pieces 0 ends.now texts.now) index result.now }
{
    let end = ends[index];
    if index == 0 {
        return &texts[..end];
    }
    &texts[ends[index - 1]..end]
}

/// Appends the text of the document with this number, whose words are those of the next draws. There is room for it.
fn push_document(texts: &mut String, generator: &mut Generator, id: u32, words: u32)
    requires id { id ≤ MOST_DOCS }
    requires room { string_len texts.old + longest_text words ≤ string_capacity texts.old }
    ensures text { string_bytes texts.new ≡ string_bytes texts.old ++ text_of_document generator.old words id }
    ensures state { generator.new ≡ state_after generator.old words }
    ensures short { string_len texts.new ≤ string_len texts.old + longest_text words }
    ensures capacity { string_capacity texts.old ≤ string_capacity texts.new }
{
    push_numbered(texts, "u", u64::from(id));
    for _ in 0..words {
        push_numbered(texts, " w", generator.draw());
    }
}

/// Appends the letters and the number, for which there is room.
fn push_numbered(texts: &mut String, letters: &str, number: u64)
    requires room { string_len texts.old + length letters.now + length (decimal number) ≤ string_capacity texts.old }
    ensures text { string_bytes texts.new ≡ string_bytes texts.old ++ letters.now ++ decimal number }
    ensures len { string_len texts.new ≡ string_len texts.old + length letters.now + length (decimal number) }
    ensures capacity { string_capacity texts.old ≤ string_capacity texts.new }
{
    let mut buffer = Buffer::new();
    let digits = buffer.format(number);
    if texts.push_str(letters).is_err() || texts.push_str(digits).is_err() {
        unreachable!()
    }
}
