ghost use Rattle.std.specs.Prelude.{◌≡◌};
ghost use Rattle.commit_desk.specs.Passes.{IsResting};
ghost use Rattle.slice_recycler.specs.Cleared.{IsRoomOf};
ghost use Rattle.slice_recycler.specs.Recycles.{AnswersRecycle, refused_as};

use crate::clearing::{Clearer, clear_slice};
use crate::turns::{open, start};
use commit_desk::{ClearRefusal, Named, ToClear};
use funnel_model::ClearJob;
use slice_rule::{PassSeat, Pool, PoolName};
use std::sync::{Mutex, Wait};

/// What became of a recycle.
#[derive(Clone, Copy, Debug, PartialEq, Eq)]
pub enum Recycled {
    /// This slice is ready for new documents.
    Done(u32),
    /// No slice is retired.
    NoneRetired,
    /// Each retired slice is guarded. This is the lowest one, with the lowest pass that guards it and the number of the
    /// event that began this pass's find.
    Guarded {
        slice: u32,
        pass: u32,
        opened_at: u64,
    },
    /// The history has this many events, and no call is taken any more.
    Spent(u64),
}

impl From<ClearRefusal> for Recycled {
    ghost from_gives = { λ refusal recycled. recycled ≡ refused_as refusal };

    fn from(refusal: ClearRefusal) -> Self {
        match refusal {
            ClearRefusal::NoneRetired => Recycled::NoneRetired,
            ClearRefusal::Guarded {
                slice,
                pass,
                opened_at,
            } => Recycled::Guarded {
                slice,
                pass,
                opened_at,
            },
            ClearRefusal::Spent(events) => Recycled::Spent(events),
        }
    }
}

/// Clears the lowest slice that is retired and that no running find guards, and opens it. It waits for the lock, and takes
/// no memory. While the lock is free it makes the slice's words zero, and drops its documents.
pub fn recycle<N: PoolName, R: Wait>(
    rt: &R,
    pool: &Pool,
    desk: &Mutex<Named<N>>,
    room: u32,
    seat: &mut PassSeat,
) -> Recycled
    requires named { pool.now ≡ N.pool }
    requires room { IsRoomOf room pool.now }
    requires seat { IsResting pool.now seat.old }
    ensures { AnswersRecycle pool.now seat.old seat.new result }
{
    recycle_by(rt, pool, desk, room, seat, &mut InPlace)
}

/// A recycle whose slice's words are cleared by `work`, while the pass does not hold the lock.
pub fn recycle_by<N: PoolName, R: Wait, W: Clearer>(
    rt: &R,
    pool: &Pool,
    desk: &Mutex<Named<N>>,
    room: u32,
    seat: &mut PassSeat,
    work: &mut W,
) -> Recycled
    requires named { pool.now ≡ N.pool }
    requires room { IsRoomOf room pool.now }
    requires seat { IsResting pool.now seat.old }
    ensures { AnswersRecycle pool.now seat.old seat.new result }
{
    match start(rt, pool, desk, seat) {
        Ok(to_clear) => {
            let ToClear {
                job,
                slots,
                old_layout,
            } = to_clear;
            drop(old_layout);
            work.clear(pool, seat, room, &job);
            Recycled::Done(open(rt, pool, desk, seat, job, slots.empty()))
        }
        Err(refusal) => Recycled::from(refusal),
    }
}

// Clears by itself.
#[derive(Drop)]
struct InPlace;

impl Clearer for InPlace {
    fn clear(&mut self, pool: &Pool, seat: &mut PassSeat, room: u32, job: &ClearJob) {
        clear_slice(pool, seat, room, job)
    }
}
