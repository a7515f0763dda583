//! The steps on row words: a pass sets a bit of its column, reads a word under its token, and clears a word of the slice
//! that it clears.
ghost use Rattle.std.specs.Prelude.{◌≡◌, ℕ, ◌<◌, Contains, IsBitSet};
ghost use Rattle.funnel_model.specs.declared.event.Event.{Event};
ghost use Rattle.funnel_model.specs.Events.{bits_on};
ghost use Rattle.funnel_model.specs.Legal.{IsInSlice};
ghost use Rattle.funnel_model.specs.Tokens.{MayRead};
ghost use Rattle.row_layout.specs.Owners.{Owns, StandsOn};
ghost use Rattle.slice_rule.specs.declared.view.Fact.TheVariants as fact;
ghost use Rattle.slice_rule.specs.Numbers.{last_number};
ghost use Rattle.slice_rule.specs.Seats.{HasCommitted, HasNoneOutstanding, HoldsClaim, HoldsJob, HoldsToken, KeepsToColumn, after_own};

use crate::plays::{Clears, Reads, Sets};
use crate::pool::Pool;
use crate::seats::PassSeat;
use funnel_model::{Claim, ClearJob, Token};

impl Pool {
    /// Sets a bit of the pass's pending column: one of a word of the claim's slice that no other column of the slice owns.
    pub fn set_bit(&self, seat: &mut PassSeat, claim: &Claim, word: u32, bit: u32)
        requires pool { seat.old.pool ≡ self.now }
        requires claim { HoldsClaim seat.old claim.now }
        requires none_outstanding { HasNoneOutstanding seat.old }
        requires inside { IsInSlice self.now.limits.slice_words claim.now.slice word }
        requires bit { bit < 64 }
        requires owner { KeepsToColumn seat.old claim.now (record { word = word; bit = bit }) }
        ensures { seat.new ≡ after_own seat.old (fact.BitSet (last_number seat.old.number seat.old.front) (record { word = word; bit = bit })) }
    {
        self.table.shared.fetch_or::<Sets>(
            &mut seat.seat,
            self.row_base + word as usize,
            1 << bit as u64,
        );
    }

    /// Reads a word of a slice that the pass's token may read. It has each bit that the pass has seen committed there and
    /// not cleared since. Where a column of such a slice owns a bit that is set, the document that stands on the column, as
    /// the pass has seen, has it.
    pub fn read_word(&self, seat: &mut PassSeat, token: &Token, word: u32) -> u64
        requires pool { seat.old.pool ≡ self.now }
        requires token { HoldsToken seat.old token.now }
        requires none_outstanding { HasNoneOutstanding seat.old }
        requires inside { (slice : ℕ) × Contains token.now.slices slice × IsInSlice self.now.limits.slice_words slice word }
        ensures seat { seat.new ≡ after_own seat.old (fact.WordRead token.now.opened_at word result) }
        ensures least { HasCommitted seat.old token.now word result }
        ensures owned { (slice column bit : ℕ) (event : Event) → MayRead seat.old.pool.limits.columns seat.old.front seat.old.number slice →
            IsBitSet result bit → Owns seat.old.pool.limits seat.old.pool.config seat.old.front slice column (record { word = word; bit = bit }) →
            StandsOn seat.old.front slice column event → Contains (bits_on slice column event) (record { word = word; bit = bit }) }
    {
        self.table
            .shared
            .load::<Reads>(&mut seat.seat, self.row_base + word as usize)
    }

    /// Makes a word of the slice that the pass clears zero.
    pub fn clear_word(&self, seat: &mut PassSeat, job: &ClearJob, word: u32)
        requires pool { seat.old.pool ≡ self.now }
        requires job { HoldsJob seat.old job.now }
        requires none_outstanding { HasNoneOutstanding seat.old }
        requires inside { IsInSlice self.now.limits.slice_words job.now.slice word }
        ensures { seat.new ≡ after_own seat.old (fact.WordZero (last_number seat.old.number seat.old.front) word) }
    {
        self.table
            .shared
            .store::<Clears>(&mut seat.seat, self.row_base + word as usize, 0);
    }
}
