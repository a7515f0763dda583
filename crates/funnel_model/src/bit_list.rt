ghost use Rattle.std.specs.Prelude.{◌≡◌, ◌<◌, length, slice_set};

use std::marker::Model;

/// A bit of the row words: the number of its word among those of all slices, and 0 to 63 for its place in that word.
#[derive(Clone, Copy, Debug, PartialEq, Eq, PartialOrd, Ord)]
pub struct Bit {
    pub word: u32,
    pub bit: u32,
}

/// The bits that a document sets. Contracts see them as a list.
#[derive(Debug, Drop)]
pub struct BitList {
    bits: Vec<Bit>,
}

impl Model for BitList {
    ghost use Rattle.std.specs.Prelude.{List};
    ghost use Rattle.funnel_model.specs.declared.bit_list.Bit.{Bit};

    ghost Value = { List Bit };

    ghost view = { λ l. l.bits.items };
}

impl BitList {
    pub fn new(bits: Vec<Bit>) -> Self
        ensures { result ≡ bits.items }
    {
        BitList { bits }
    }

    pub fn len(&self) -> usize
        ensures { result ≡ length self.now }
    {
        self.bits.len()
    }

    pub fn as_slice(&self) -> &[Bit]
        ensures { result.now ≡ self.now }
    {
        self.bits.as_slice()
    }

    /// Puts a bit in the place of the one at `i`.
    pub fn set(&mut self, i: usize, bit: Bit)
        requires { i < length self.old }
        ensures { self.new ≡ slice_set self.old i bit }
    {
        self.bits[i] = bit;
    }

    /// The bits that it was made of.
    pub fn into_inner(self) -> Vec<Bit>
        ensures { result.items ≡ self }
    {
        self.bits
    }
}
