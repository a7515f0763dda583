ghost use Rattle.std.specs.Prelude.{◌≡◌, ◌+◌, ◌*◌, ◌≤◌};
ghost use Rattle.funnel_model.specs.declared.config.TheConstants.{MOST_ROW_WORDS};
ghost use Rattle.slice_recycler.specs.Cleared.{CanClearSlice, ClearsSlice};

use funnel_model::ClearJob;
use slice_rule::{PassSeat, Pool};

/// Makes the words of a slice zero, while its pass holds no lock.
pub trait Clearer {
    /// Makes every word of the slice zero, of which there are `room`. It waits for nobody.
    fn clear(&mut self, pool: &Pool, seat: &mut PassSeat, room: u32, job: &ClearJob)
        requires { CanClearSlice pool.now seat.old job.now room }
        ensures { ClearsSlice pool.now seat.old seat.new job.now };
}

/// Makes every word of the slice that the pass clears zero, of which there are `room`. Other passes may read and write other slices beside it. It
/// takes no memory and waits for nobody.
pub fn clear_slice(pool: &Pool, seat: &mut PassSeat, room: u32, job: &ClearJob)
    requires { CanClearSlice pool.now seat.old job.now room }
    ensures { ClearsSlice pool.now seat.old seat.new job.now }
{
    let _ = seat.number();
    let first = first_word(job.slice, room);
    for word in first..first + room {
        pool.clear_word(seat, job, word);
    }
}

// The first word of a slice, each of which has room for so many.
fn first_word(slice: u32, room: u32) -> u32
    requires { slice * room + room ≤ MOST_ROW_WORDS }
    ensures first { result ≡ slice * room }
    ensures end { result + room ≤ MOST_ROW_WORDS }
{
    slice * room
}
