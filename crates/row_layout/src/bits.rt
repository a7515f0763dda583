ghost use Rattle.std.specs.Prelude.{◌≡◌, ◌↔◌, ◌*◌, ◌<◌, ◌≤◌, [], length, IfOk, All, Contains};
ghost use Rattle.funnel_model.specs.Legal.{IsInSlice};
ghost use Rattle.funnel_model.specs.Sizes.{columns_of_slice};
ghost use Rattle.funnel_model.specs.declared.bit_list.Bit.{Bit};
ghost use Rattle.row_layout.specs.declared.row.TheConstants.{MOST_ROWS};
ghost use Rattle.row_layout.specs.DocumentBits.{AreDocumentBitsIn};
ghost use Rattle.row_layout.specs.Owners.{IsOwnedOnlyAt};

use crate::layout::Layout;
use crate::row::MOST_ROWS;
use funnel_model::{Bit, Memory, WordSet};
use std::alloc::Global;
use std::marker::Model;

/// The bits of some words at one column. They stand as the words and their rows do, so that nothing is sorted, and one that two words
/// have stands twice. Contracts see them in rising order, each once, and for how many more there is room.
#[derive(Debug, Drop)]
pub struct Bits {
    bits: Vec<Bit>,
}

impl Model for Bits {
    ghost use Rattle.std.specs.Prelude.{◌-◌, vec_capacity, vec_len};
    ghost use Rattle.row_layout.specs.DocumentBits.{BitsState, in_order};

    ghost Value = { BitsState };

    ghost view = { λ b. record { bits = in_order b.bits.items; room = vec_capacity b.bits - vec_len b.bits } };
}

impl Bits {
    /// None, with room for n. Of the calls on bits this and `for_words` alone take memory.
    pub fn with_room(alloc: Global, n: usize) -> Result<Bits, Memory>
        ensures empty { IfOk result (λ bits. bits.bits ≡ []) }
        ensures room { IfOk result (λ bits. bits.room ≡ n) }
    {
        Ok(Bits {
            bits: Vec::with_capacity(alloc, n)?,
        })
    }

    /// None, with room for those of these words, however many rows a layout gives each of them.
    pub fn for_words(alloc: Global, words: &WordSet) -> Result<Bits, Memory>
        ensures empty { IfOk result (λ bits. bits.bits ≡ []) }
        ensures room { IfOk result (λ bits. MOST_ROWS * length words.now ≤ bits.room) }
    {
        match words.len().checked_mul(MOST_ROWS) {
            Some(n) => Bits::with_room(alloc, n),
            None => Err(Memory),
        }
    }

    /// The bits, in no order, some perhaps more than once.
    pub fn as_slice(&self) -> &[Bit]
        ensures { (bit : Bit) → Contains result.now bit ↔ Contains self.now.bits bit }
    {
        self.bits.as_slice()
    }
}

/// Fills empty bits with those of these words at a column of a slice. There is room for them, so that it takes no memory.
pub fn fill_bits(layout: &Layout, words: &WordSet, slice: u32, column: u32, bits: &mut Bits)
    requires slice { slice < layout.now.config.slices }
    requires column { column < columns_of_slice layout.now.config }
    requires empty { bits.old.bits ≡ [] }
    requires room { MOST_ROWS * length words.now ≤ bits.old.room }
    ensures document_bits { AreDocumentBitsIn layout.now.room layout.now.config words.now slice column bits.new.bits }
    ensures inside { All (λ b. IsInSlice layout.now.room slice b.word) bits.new.bits }
    ensures of_words { All (λ b. b.bit < 64) bits.new.bits }
    ensures own { All (IsOwnedOnlyAt layout.now.room layout.now.config slice column) bits.new.bits }
{
    let (first, _) = layout.slice_range(slice);
    let places = layout.places(first, column);
    for word in words.iter() {
        layout.push_bits(word, &places, &mut bits.bits);
    }
}
