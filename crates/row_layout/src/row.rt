ghost use Rattle.std.specs.Prelude.{◌≡◌, ◌+◌, ◌*◌, ◌/◌, ◌%◌, ◌^◌, ◌<◌, ◌≤◌};

use funnel_model::Bit;

/// The most rows of a word.
pub const MOST_ROWS: usize = 26;

/// A row of a slice: its bits stand in the `width` words from the slice's word `start` on, each for 2^`rank` columns.
///
/// With its fields in this order it takes 8 bytes, so that std sorts short runs of rows without branches.
#[derive(Clone, Copy, Debug, PartialEq, Eq)]
pub struct Row {
    /// Its first word within a slice.
    pub start: u32,
    /// At most 2^12.
    pub width: u16,
    pub rank: u8,
}

impl Row {
    ghost use Rattle.row_layout.specs.DocumentBits.{bit_from};

    /// The bit of the row at a column of the slice that begins at the pool's word `first`.
    pub(crate) fn bit(self, first: u32, column: u32) -> Bit
        requires rank { self.rank ≤ 6 }
        requires fits { first + self.start + column / (64 * 2 ^ self.rank) < 2 ^ 32 }
        ensures { result ≡ bit_from first column self }
    {
        Bit {
            word: first + self.start + column / (64 << self.rank),
            bit: column % 64,
        }
    }
}
