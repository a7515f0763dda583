//! The two turns of a recycle at the desk.
ghost use Rattle.std.specs.Prelude.{◌≡◌, [], ◌∷◌, true};
ghost use Rattle.funnel_model.specs.declared.event.Event.TheVariants as event;
ghost use Rattle.funnel_model.specs.Legal.{IsLegal};
ghost use Rattle.commit_desk.specs.Answers.{events_of_clear};
ghost use Rattle.commit_desk.specs.Passes.{HasCleared, IsResting};
ghost use Rattle.slice_recycler.specs.Turns.{ClearsOrRests, IsTurn, StartsClear};

use commit_desk::{ClearRefusal, Named, ToClear};
use document_store::FreeSlots;
use funnel_model::ClearJob;
use slice_rule::{PassSeat, Pool, PoolName};
use std::sync::{Mutex, Wait};

// The first turn: the desk names the slice, or refuses. A layout that no slice has any more comes back with it, to be dropped when the lock
// is free again.
pub(crate) fn start<N: PoolName, R: Wait>(
    rt: &R,
    pool: &Pool,
    desk: &Mutex<Named<N>>,
    seat: &mut PassSeat,
) -> Result<ToClear, ClearRefusal>
    requires named { pool.now ≡ N.pool }
    requires rests { IsResting pool.now seat.old }
    ensures turn { IsTurn seat.old.number seat.old.front seat.new.front
        (StartsClear pool.now seat.old.number result) (events_of_clear seat.old.number result) }
    ensures next { ClearsOrRests pool.now seat.new result }
    ensures number { seat.new.number ≡ seat.old.number }
    ensures legal { IsLegal pool.now.limits seat.new.front }
{
    desk.lock(rt).desk.start_clear(pool, seat)
}

// The second turn: the slice, whose words are zero and whose slots are free, is opened.
pub(crate) fn open<N: PoolName, R: Wait>(
    rt: &R,
    pool: &Pool,
    desk: &Mutex<Named<N>>,
    seat: &mut PassSeat,
    job: ClearJob,
    slots: FreeSlots,
) -> u32
    requires named { pool.now ≡ N.pool }
    requires cleared { HasCleared pool.now job seat.old }
    requires slots { slots ≡ pool.now.limits.columns }
    ensures slice { result ≡ job.slice }
    ensures turn { IsTurn seat.old.number seat.old.front seat.new.front (λ history. Unit {0}) (event.Opened seat.old.number job.slice true ∷ []) }
    ensures rests { IsResting pool.now seat.new }
    ensures number { seat.new.number ≡ seat.old.number }
    ensures legal { IsLegal pool.now.limits seat.new.front }
{
    desk.lock(rt).desk.opened(pool, seat, job, slots)
}
