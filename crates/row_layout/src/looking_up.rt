//! The rows and the bits of words, each told from its hash.

ghost use Rattle.std.specs.Prelude.{◌≡◌, ℕ, List, ◌+◌, ◌*◌, ◌/◌, ◌^◌, ◌<◌, ◌≤◌, ◌++◌, All, IfOk, OnOk, filter, length, map, not, vec_capacity, vec_len};
ghost use Rattle.funnel_model.specs.Configuration.{IsInRange};
ghost use Rattle.funnel_model.specs.Sizes.{private_words};
ghost use Rattle.funnel_model.specs.Treatment.{row_count_of_class};
ghost use Rattle.funnel_model.specs.Words.{IsRising};
ghost use Rattle.row_layout.specs.declared.row.Row.{Row};
ghost use Rattle.row_layout.specs.declared.row.TheConstants.{MOST_ROWS};
ghost use Rattle.row_layout.specs.ColumnPlaces.{ArePlaces};
ghost use Rattle.row_layout.specs.DocumentBits.{bit_from, bits_of_word};
ghost use Rattle.row_layout.specs.Layouts.{word_rows};
ghost use Rattle.row_layout.specs.Owners.{is_exact};
ghost use Rattle.row_layout.specs.Rows.{IsRowOf, IsSharedRow, hashed_row, hashed_rows, private_row, row_count_of_word, row_of_word, rows_of_word, rows_of_words};
ghost use Rattle.term_hash.specs.Hash.{fnv_1a};

use crate::column_places::ColumnPlaces;
use crate::layout::Layout;
use crate::listed_rows::width_of;
use crate::row::Row;
use crate::word_rows::WordRows;
use funnel_model::{Bit, Memory, WordSet};
use std::alloc::Global;
use term_hash::WordHash;
use treatment::LAST_CLASS;

impl Layout {
    /// The number of rows of a folded word.
    pub fn count_of(&self, word: &[u8]) -> u8
        ensures value { result ≡ row_count_of_word self.now.config word.now }
        ensures bound { result ≤ MOST_ROWS }
    {
        match self.look_up(&WordHash::new(word), word) {
            WordRows::Private(_) => 1,
            WordRows::Shared(class) => self.classes.counts[class as usize],
        }
    }

    /// Whether a folded word is exact: it has a row of its own, so that a bit of that row tells it.
    pub fn is_exact(&self, word: &[u8]) -> bool
        ensures { result ≡ is_exact self.now.config word.now }
    {
        match self.look_up(&WordHash::new(word), word) {
            WordRows::Private(_) => true,
            WordRows::Shared(_) => false,
        }
    }

    /// Row `j` of a folded word.
    pub fn row_at(&self, word: &[u8], j: u8) -> Row
        requires { j < row_count_of_word self.now.config word.now }
        ensures value { result ≡ row_of_word self.now.config word.now j }
        ensures laid { IsRowOf self.now.config result }
    {
        let hash = WordHash::new(word);
        match self.look_up(&hash, word) {
            WordRows::Private(number) => self.private(number),
            WordRows::Shared(class) => self.hashed(&hash, class, j),
        }
    }

    /// The rows of some words, word by word, and those of the words that aren't exact. The room is taken at once: no word has
    /// more rows than an unlisted one.
    pub fn rows_and_rest<'a>(
        &self,
        alloc: Global,
        words: &'a WordSet,
    ) -> Result<(Vec<Row>, Vec<&'a [u8]>), Memory>
        ensures rows { IfOk result (λ both. both.0.items ≡ rows_of_words self.now.config words.now) }
        ensures laid { IfOk result (λ both. All (IsRowOf self.now.config) both.0.items) }
        ensures rest { IfOk result (λ both. map (λ word. word.now) both.1.items ≡ filter (λ word. not (is_exact self.now.config word)) words.now) }
        ensures rising { IsRising words.now }
        ensures in_range { IsInRange self.now.config }
    {
        let most = self.classes.counts[LAST_CLASS as usize] as usize;
        let mut rows = Vec::with_capacity(alloc, words.len().saturating_mul(most))?;
        let mut rest = Vec::with_capacity(alloc, words.len())?;
        for word in words.iter() {
            if !self.push_rows(word, &mut rows)? {
                rest.push(word)?;
            }
        }
        Ok((rows, rest))
    }

    /// Adds the rows of a folded word, which is hashed once and looked up once, and tells whether it is exact.
    fn push_rows(&self, word: &[u8], rows: &mut Vec<Row>) -> Result<bool, Memory>
        requires { All (IsRowOf self.now.config) rows.old.items }
        ensures rows { OnOk result (rows.new.items ≡ rows.old.items ++ rows_of_word self.now.config word.now) }
        ensures laid { All (IsRowOf self.now.config) rows.new.items }
        ensures exact { IfOk result (λ exact. exact ≡ is_exact self.now.config word.now) }
    {
        let hash = WordHash::new(word);
        match self.look_up(&hash, word) {
            WordRows::Private(number) => {
                rows.push(self.private(number))?;
                Ok(true)
            }
            WordRows::Shared(class) => {
                self.push_hashed(&hash, class, rows)?;
                Ok(false)
            }
        }
    }

    /// Adds the shared rows of a word with this hash and of this class.
    fn push_hashed(&self, hash: &WordHash, class: u8, rows: &mut Vec<Row>) -> Result<(), Memory>
        requires laid { All (IsRowOf self.now.config) rows.old.items }
        requires class { class ≤ 15 }
        ensures rows { (word : List ℕ) → hash.now ≡ fnv_1a word → OnOk result (rows.new.items ≡ rows.old.items ++ hashed_rows self.now.config word class) }
        ensures laid { All (IsRowOf self.now.config) rows.new.items }
    {
        for j in 0..self.classes.counts[class as usize] {
            rows.push(self.hashed(hash, class, j))?;
        }
        Ok(())
    }

    /// Adds the bits of a folded word, which is hashed once and looked up once, at these places of a column. There is room for them.
    pub(crate) fn push_bits(&self, word: &[u8], places: &ColumnPlaces, bits: &mut Vec<Bit>)
        requires places { ArePlaces self.now.config places.now }
        requires fits { (row : Row) → IsRowOf self.now.config row → places.now.first + row.start + places.now.column / (64 * 2 ^ row.rank) < 2 ^ 32 }
        requires room { vec_len bits.old + MOST_ROWS ≤ vec_capacity bits.old }
        ensures bits { bits.new.items ≡ bits.old.items ++ bits_of_word self.now.config places.now.first places.now.column word.now }
        ensures few { vec_len bits.new ≤ vec_len bits.old + MOST_ROWS }
        ensures capacity { vec_capacity bits.new ≡ vec_capacity bits.old }
    {
        let hash = WordHash::new(word);
        match self.look_up(&hash, word) {
            WordRows::Private(number) => {
                bits.push_reserved(self.private(number).bit(places.first, places.column))
            }
            WordRows::Shared(class) => self.push_hashed_bits(&hash, class, places, bits),
        }
    }

    /// Adds the bits of the shared rows of a word with this hash and of this class, for which there is room.
    fn push_hashed_bits(
        &self,
        hash: &WordHash,
        class: u8,
        places: &ColumnPlaces,
        bits: &mut Vec<Bit>,
    )
        requires places { ArePlaces self.now.config places.now }
        requires fits { (row : Row) → IsRowOf self.now.config row → places.now.first + row.start + places.now.column / (64 * 2 ^ row.rank) < 2 ^ 32 }
        requires room { vec_len bits.old + MOST_ROWS ≤ vec_capacity bits.old }
        requires class { class ≤ 15 }
        ensures bits { (word : List ℕ) → hash.now ≡ fnv_1a word →
            bits.new.items ≡ bits.old.items ++ map (bit_from places.now.first places.now.column) (hashed_rows self.now.config word class) }
        ensures few { vec_len bits.new ≤ vec_len bits.old + MOST_ROWS }
        ensures capacity { vec_capacity bits.new ≡ vec_capacity bits.old }
    {
        for j in 0..self.classes.counts[class as usize] {
            bits.push_reserved(self.hashed_bit(hash, class, j, places));
        }
    }

    /// The bit of row `j` of a word with this hash and of this class.
    fn hashed_bit(&self, hash: &WordHash, class: u8, j: u8, places: &ColumnPlaces) -> Bit
        requires class { class ≤ 15 }
        requires j { j < row_count_of_class self.now.config.one_in self.now.config.snr class }
        requires places { ArePlaces self.now.config places.now }
        requires fits { (row : Row) → IsRowOf self.now.config row → places.now.first + row.start + places.now.column / (64 * 2 ^ row.rank) < 2 ^ 32 }
        ensures { (word : List ℕ) → hash.now ≡ fnv_1a word →
            result ≡ bit_from places.now.first places.now.column (hashed_row self.now.config word class j) }
    {
        let rank = self.classes.ranks[class as usize][j as usize] as usize;
        let number = hash.row(j, &self.rows[rank]);
        Bit {
            word: places.words[rank] + number * places.widths[rank],
            bit: places.column % 64,
        }
    }

    /// Which rows a folded word with this hash has.
    fn look_up(&self, hash: &WordHash, word: &[u8]) -> WordRows
        requires { hash.now ≡ fnv_1a word.now }
        ensures value { result ≡ word_rows self.now.config word.now }
        ensures in_range { IsInRange self.now.config }
    {
        match self.table.index_of(&self.config.words, hash, word) {
            Some(index) => self.listed[index],
            None => WordRows::Shared(LAST_CLASS),
        }
    }

    /// A private row.
    fn private(&self, number: u32) -> Row
        requires { number < length (private_words self.now.config) }
        ensures { result ≡ private_row self.now.config number }
    {
        let width = width_of(&self.config, 0);
        Row {
            start: number * width,
            width: width as u16,
            rank: 0,
        }
    }

    /// Row `j` of a word with this hash and of this class.
    fn hashed(&self, hash: &WordHash, class: u8, j: u8) -> Row
        requires class { class ≤ 15 }
        requires j { j < row_count_of_class self.now.config.one_in self.now.config.snr class }
        ensures value { (word : List ℕ) → hash.now ≡ fnv_1a word → result ≡ hashed_row self.now.config word class j }
        ensures laid { IsSharedRow self.now.config result }
    {
        let rank = self.classes.ranks[class as usize][j as usize];
        let number = hash.row(j, &self.rows[rank as usize]);
        let width = width_of(&self.config, rank);
        Row {
            start: self.bases[rank as usize] + number * width,
            width: width as u16,
            rank,
        }
    }
}
