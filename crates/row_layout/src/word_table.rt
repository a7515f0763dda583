//! Listed words by their hashes.

ghost use Rattle.std.specs.Prelude.{◌≡◌, ◌≤◌, ◌<◌, ℕ, List, length, IfOk, IfNone, IfSome};
ghost use Rattle.funnel_model.specs.declared.config.TheConstants.{MOST_WORDS};
ghost use Rattle.funnel_model.specs.Listed.{listed_count};
ghost use Rattle.term_hash.specs.Hash.{fnv_1a};
ghost use Rattle.row_layout.specs.WordTables.{HasFreeSlot, HasHomesFor, IsFirstFree, IsListedAt, IsWordTable, home_of, tag_of};

use funnel_model::{Listed, Memory};
use std::alloc::Global;
use term_hash::WordHash;

/// Where each listed word stands in the list: a hash table with open addressing. The low bits of a word's hash name its home, and the
/// word has the first slot from there on that was free as it came. So whoever looks for a word passes none but taken slots.
///
/// At most half of the homes are taken. Behind the last one there are as many slots as words, so that no walk goes round. Without words
/// there is no slot at all. A slot takes 4 bytes.
#[derive(Debug, Drop)]
pub(crate) struct WordTable {
    /// The greatest home.
    pub(crate) mask: usize,
    pub(crate) slots: Vec<Slot>,
}

/// The index of a word in the list, and a part of its hash, so that hardly another word is compared with it.
#[derive(Clone, Copy, Debug)]
pub(crate) struct Slot {
    /// It is 0 where the slot is free.
    pub(crate) tag: u16,
    pub(crate) index: u16,
}

const FREE: Slot = Slot { tag: 0, index: 0 };

impl WordTable {
    /// A table of these words.
    pub(crate) fn new(alloc: Global, words: &Listed) -> Result<WordTable, Memory>
        requires { length words.now ≤ MOST_WORDS }
        ensures table { IfOk result (IsWordTable words.now) }
        ensures half { IfOk result (HasHomesFor words.now) }
    {
        let mask = (2 * words.len()).next_power_of_two() - 1;
        let mut slots = vec![in alloc; FREE; mask + words.len()]?;
        for (index, entry) in words.as_slice().iter().enumerate() {
            let spread = WordHash::new(entry.0.as_bytes()).spread();
            let at = first_free(&slots, home_of(mask, spread));
            slots[at] = Slot {
                tag: tag_of(spread),
                index: index as u16,
            };
        }
        Ok(WordTable { mask, slots })
    }

    /// The index of a word with this hash among these words, of which this is the table.
    pub(crate) fn index_of(&self, words: &Listed, hash: &WordHash, word: &[u8]) -> Option<usize>
        requires table { IsWordTable words.now self.now }
        requires hash { hash.now ≡ fnv_1a word.now }
        ensures found { IfSome result (IsListedAt words.now word.now) }
        ensures none { IfNone result (listed_count words.now word.now ≡ None) }
    {
        let entries = words.as_slice();
        let spread = hash.spread();
        let tag = tag_of(spread);
        for at in home_of(self.mask, spread)..self.slots.len() {
            let slot = self.slots[at];
            if slot.tag == 0 {
                return None;
            }
            let index = slot.index as usize;
            if slot.tag == tag && entries[index].0.as_bytes() == word {
                return Some(index);
            }
        }
        None
    }
}

/// The home of a word with this hash.
fn home_of(mask: usize, spread: u64) -> usize
    ensures value { result ≡ home_of mask spread }
    ensures bound { result ≤ mask }
{
    spread as usize & mask
}

/// What a slot keeps of this hash: its 15 highest bits.
fn tag_of(spread: u64) -> u16
    ensures value { result ≡ tag_of spread }
    ensures taken { 1 ≤ result }
{
    (spread >> 49) as u16 + 1
}

/// The first slot from this one on that is free.
fn first_free(slots: &[Slot], from: usize) -> usize
    requires { HasFreeSlot slots.now from }
    ensures { IsFirstFree slots.now from result }
{
    let mut at = from;
    while slots[at].tag != 0 {
        at += 1;
    }
    at
}
