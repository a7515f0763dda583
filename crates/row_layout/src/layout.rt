ghost use Rattle.std.specs.Prelude.{◌≡◌, ◌+◌, ◌*◌, ◌<◌, ◌≤◌, Err, IfErr, IfOk, length};
ghost use Rattle.funnel_model.specs.declared.config.TheConstants.{MOST_ROW_WORDS};
ghost use Rattle.funnel_model.specs.Configuration.{IsInRange};
ghost use Rattle.funnel_model.specs.Sizes.{columns_of_slice, private_words, row_table, words_of_pool, words_of_slice};
ghost use Rattle.row_layout.specs.declared.fault.LayoutFault.TheVariants as fault;
ghost use Rattle.row_layout.specs.DocumentBits.{slice_start};
ghost use Rattle.row_layout.specs.Layouts.{own_layout};

use crate::class_table::ClassTable;
use crate::fault::LayoutFault;
use crate::listed_rows::{bases_of, copy_of, row_counts, rows_of_listed, width_of};
use crate::word_rows::WordRows;
use crate::word_table::WordTable;
use funnel_model::{Config, Memory};
use std::alloc::Global;
use std::marker::Model;
use term_hash::RowCount;
use treatment::{Sizes, sizes};

/// Where the rows of every word lie under a configuration, in slices that have room for so many words. Contracts see the configuration
/// and the room.
///
/// It answers for a word by its hash, from which the word is looked for among the listed ones and its rows are told, and keeps the rest
/// in tables.
#[derive(Debug, Drop)]
pub struct Layout {
    pub(crate) config: Config,
    /// The words for which each slice has room, of which its rows are the first.
    pub(crate) room: u32,
    /// The shared rows of each rank.
    pub(crate) rows: [RowCount; 7],
    /// Where the rows of each rank begin in a slice.
    pub(crate) bases: [u32; 7],
    pub(crate) classes: ClassTable,
    /// The rows of each listed word.
    pub(crate) listed: Vec<WordRows>,
    /// Where a word stands among the listed ones.
    pub(crate) table: WordTable,
}

impl Model for Layout {
    ghost use Rattle.row_layout.specs.Layouts.{IsLaidOut, LayoutId};

    ghost Value = { LayoutId };

    ghost view = { λ layout. record { config = layout.config; room = layout.room } };

    ghost invariant = { λ layout. IsLaidOut layout.config layout.room layout.rows layout.bases layout.classes layout.listed.items layout.table };
}

impl Layout {
    /// Lays out the rows of a configuration, of which it keeps a copy, in slices that have room for these rows alone.
    pub fn new(alloc: Global, config: &Config) -> Result<Layout, Memory>
        requires in_range { IsInRange config.now }
        requires small_pool { words_of_pool config.now ≤ MOST_ROW_WORDS }
        ensures { IfOk result (λ layout. layout ≡ own_layout config.now) }
    {
        let sizes = sizes(config);
        let room = sizes.slice_words as u32;
        Layout::with_sizes(alloc, config, &sizes, room)
    }

    /// Lays out the rows of a configuration, of which it keeps a copy, in slices that have room for so many words. Where the rows need
    /// more, it takes no memory.
    pub fn within(alloc: Global, config: &Config, room: u32) -> Result<Layout, LayoutFault>
        requires in_range { IsInRange config.now }
        requires small_pool { config.now.slices * room ≤ MOST_ROW_WORDS }
        ensures laid { IfOk result (λ layout. layout ≡ record { config = config.now; room = room }) }
        ensures wide { room < words_of_slice config.now → result ≡ Err (fault.Wide (words_of_slice config.now) room) }
        ensures fits { words_of_slice config.now ≤ room → IfErr result (λ refused. refused ≡ fault.Memory) }
    {
        let sizes = sizes(config);
        if sizes.slice_words > u64::from(room) {
            return Err(LayoutFault::Wide {
                needed: sizes.slice_words,
                room: u64::from(room),
            });
        }
        match Layout::with_sizes(alloc, config, &sizes, room) {
            Ok(layout) => Ok(layout),
            Err(Memory) => Err(LayoutFault::Memory),
        }
    }

    /// Lays out the rows of a configuration of these sizes, in slices that have room for so many words.
    fn with_sizes(
        alloc: Global,
        config: &Config,
        sizes: &Sizes,
        room: u32,
    ) -> Result<Layout, Memory>
        requires in_range { IsInRange config.now }
        requires private { sizes.now.private ≡ length (private_words config.now) }
        requires rows { sizes.now.rows ≡ row_table config.now }
        requires fits { words_of_slice config.now ≤ room }
        requires small_pool { config.now.slices * room ≤ MOST_ROW_WORDS }
        ensures { IfOk result (λ layout. layout ≡ record { config = config.now; room = room }) }
    {
        let copy = copy_of(alloc, config)?;
        let listed = rows_of_listed(alloc, config)?;
        let table = WordTable::new(alloc, &config.words)?;
        let bases = bases_of(config, sizes);
        let classes = ClassTable::new(config);
        Ok(Layout {
            config: copy,
            room,
            rows: row_counts(&sizes.rows),
            bases,
            classes,
            listed,
            table,
        })
    }

    /// The highest rank of a row.
    pub fn max_rank(&self) -> u8
        ensures value { result ≡ self.now.config.max_rank }
        ensures in_range { IsInRange self.now.config }
    {
        self.config.max_rank
    }

    /// The words that a row of the highest rank has in a slice.
    pub fn blocks(&self) -> u32
        ensures value { result ≡ self.now.config.blocks }
        ensures in_range { IsInRange self.now.config }
    {
        self.config.blocks
    }

    /// The columns of a slice.
    pub fn columns(&self) -> u32
        ensures value { result ≡ columns_of_slice self.now.config }
        ensures in_range { IsInRange self.now.config }
    {
        64 * width_of(&self.config, 0)
    }

    /// The first word of a slice in the pool, and the number of its words.
    pub fn slice_range(&self, slice: u32) -> (u32, u32)
        requires { slice < self.now.config.slices }
        ensures first { result.0 ≡ slice_start self.now.room slice }
        ensures words { result.1 ≡ self.now.room }
        ensures within { result.0 + result.1 ≤ self.now.config.slices * self.now.room }
        ensures small_pool { self.now.config.slices * self.now.room ≤ MOST_ROW_WORDS }
        ensures fits { words_of_slice self.now.config ≤ self.now.room }
        ensures in_range { IsInRange self.now.config }
    {
        (slice * self.room, self.room)
    }
}
