ghost use Rattle.std.specs.Prelude.{◌≡◌};
ghost use Rattle.row_read.specs.SharedRows.{CanRead};

use crate::rows::Rows;
use funnel_model::Token;
use slice_rule::{PassSeat, Pool};

/// The words of a pool as a running find reads them, with a count of the words read. Other passes set bits beside it. It
/// borrows the seat, which has the reads of the find when the borrow ends.
#[derive(Drop)]
pub struct Shared<'a> {
    pub pool: &'a Pool,
    pub seat: &'a mut PassSeat,
    pub token: &'a Token,
    pub count: u64,
}

impl<'a> Shared<'a> {
    /// The rows that a find may read, of which none was read under this name.
    pub fn new(pool: &'a Pool, seat: &'a mut PassSeat, token: &'a Token) -> Shared<'a>
        requires can_read { CanRead pool.now seat.old token.now }
        ensures can_read { CanRead result.pool.now result.seat.now result.token.now }
        ensures pool { result.pool.now ≡ pool.now }
        ensures seat { result.seat.now ≡ seat.old }
        ensures borrow { result.seat.ghost_name ≡ seat.entry.ghost_name }
        ensures token { result.token.now ≡ token.now }
        ensures reads { result.count ≡ 0 }
    {
        Shared {
            pool,
            seat,
            token,
            count: 0,
        }
    }
}

impl<'a> Rows for Shared<'a> {
    ghost use Rattle.std.specs.Prelude.{None};
    ghost use Rattle.row_read.specs.SharedRows.{HasReadOnce, IsCommittedUnder, IsInReach, SharedKept, WasReadSet, kept_of};

    ghost Kept = { SharedKept };

    ghost reach = { λ shared word. IsInReach shared word };

    ghost least = { λ shared bit. IsCommittedUnder shared bit };

    ghost seen = { λ shared bit. WasReadSet shared bit };

    ghost told = { λ _. None };

    ghost kept = { kept_of };

    ghost reads = { λ shared. shared.count };

    ghost is_read = { HasReadOnce };

    fn read(&mut self, word: u32) -> u64 {
        self.count = self.count.saturating_add(1);
        self.pool.read_word(self.seat, self.token, word)
    }

    fn reads(&self) -> u64 {
        self.count
    }
}
