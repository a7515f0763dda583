ghost use Rattle.column_writer.specs.Written.{CanWrite, SetsBits};

use funnel_model::{Bit, Claim};
use row_layout::Bits;
use slice_rule::{PassSeat, Pool};

/// Sets the bits of a document in the words that all threads share: bits that no other column of the claim's slice owns.
/// Other passes may set bits beside it and read the words while it runs.
pub fn write_column(pool: &Pool, seat: &mut PassSeat, claim: &Claim, bits: &Bits)
    requires { CanWrite pool.now seat.old claim.now bits.now.bits }
    ensures { SetsBits seat.old seat.new bits.now.bits }
{
    set_bits(pool, seat, claim, bits.as_slice())
}

pub(crate) fn set_bits(pool: &Pool, seat: &mut PassSeat, claim: &Claim, bits: &[Bit])
    requires { CanWrite pool.now seat.old claim.now bits.now }
    ensures { SetsBits seat.old seat.new bits.now }
{
    for b in bits {
        pool.set_bit(seat, claim, b.word, b.bit);
    }
}
