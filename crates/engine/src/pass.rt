ghost use Rattle.std.specs.Prelude.{◌≡◌, map, IfOk};
ghost use Rattle.std.specs.List.{All};
ghost use Rattle.commit_desk.specs.Passes.{IsResting};
ghost use Rattle.engine.specs.Engines.{EndsIn};
ghost use Rattle.engine.specs.Passes.{view_of};

use commit_desk::{FindLayouts, Gone};
use funnel_model::Memory;
use slice_rule::{Home, Note as SeatNote, PassSeat, Pool, PoolName};
use std::alloc::Global;
use std::marker::{Model, PhantomData};

/// A pass of the engine that `N` names, between its calls. Contracts see its number, and the part of the history that it has
/// seen.
#[derive(Drop)]
pub struct Pass<N: PoolName> {
    pub(crate) seat: PassSeat,
    /// Where its finds keep the layouts of their slices, with room for an entry for each. Between finds it is kept for its memory, and
    /// has none.
    pub(crate) layouts: FindLayouts,
    /// Where its calls are handed documents that may go, which they drop. Between calls it is kept for its memory, and has none.
    pub(crate) gone: Gone,
    pub(crate) of: PhantomData<N>,
}

impl<N: PoolName> Model for Pass<N> {
    ghost use Rattle.std.specs.Coded.{codes};
    ghost use Rattle.funnel_model.specs.contracts.expr.Expr as e;
    ghost use Rattle.engine.specs.Passes.{IsPassBetweenCalls, PassView, view_of};

    ghost Value = { PassView };

    ghost coded = { Prim.hlevel (codes, e.the_row.coded) };

    ghost view = { λ p. view_of p.seat };

    ghost invariant = { λ p. IsPassBetweenCalls N.pool p.seat p.layouts p.gone };
}

impl<N: PoolName> Pass<N> {
    ghost use Rattle.std.specs.Prelude.{◌≡◌, ◌<◌};
    ghost use Rattle.funnel_model.specs.Legal.{IsIdle, IsLegal};

    /// Its number. The pass is not in the middle of a call.
    pub fn number(&self) -> u32
        ensures number { result ≡ self.now.number }
        ensures in_range { result < N.pool.limits.passes }
        ensures legal { IsLegal N.pool.limits self.now.front }
        ensures idle { IsIdle self.now.number self.now.front }
    {
        self.seat.number()
    }
}

/// What a pass of the engine that `N` names had seen at a time. Contracts see that part of the history.
#[derive(Drop)]
pub struct Note<N: PoolName> {
    pub(crate) note: SeatNote,
    pub(crate) of: PhantomData<N>,
}

impl<N: PoolName> Model for Note<N> {
    ghost use Rattle.std.specs.Coded.{codes};
    ghost use Rattle.funnel_model.specs.contracts.expr.Expr as e;
    ghost use Rattle.std.specs.Prelude.{◌≡◌, List};
    ghost use Rattle.funnel_model.specs.declared.event.Event.{Event};

    ghost Value = { List Event };

    ghost coded = { Prim.hlevel (codes, e.the_row.coded) };

    ghost view = { λ n. n.note.front };

    ghost invariant = { λ n. n.note.pool ≡ N.pool };
}

// The passes of a new engine that has so many slices.
pub(crate) fn name_passes<N: PoolName>(
    alloc: Global,
    seats: Vec<PassSeat>,
    slices: u32,
) -> Result<Vec<Pass<N>>, Memory>
    requires rest { All (IsResting N.pool) seats.items }
    requires slices { slices ≡ N.pool.limits.slices }
    ensures { IfOk result (λ passes. passes.items ≡ map view_of seats.items) }
{
    let mut passes = Vec::with_capacity(alloc, seats.len())?;
    for seat in seats {
        let layouts = FindLayouts::with_room(alloc, slices as usize)?;
        let gone = Gone::new(alloc)?;
        let of = PhantomData;
        passes.push(Pass {
            seat,
            layouts,
            gone,
            of,
        })?;
    }
    Ok(passes)
}

// The passes come back, before the pool is closed.
pub(crate) fn end_passes<N: PoolName>(pool: &Pool, home: &mut Home, mut passes: Vec<Pass<N>>)
    requires named { pool.now ≡ N.pool }
    requires home { home.old.pool ≡ pool.now }
    ensures pool { home.new.pool ≡ home.old.pool }
    ensures history { home.new.history ≡ home.old.history }
    ensures passes { All (EndsIn home.old.history) passes.items }
{
    while let Some(pass) = passes.pop() {
        end_pass(pool, home, pass);
    }
}

fn end_pass<N: PoolName>(pool: &Pool, home: &mut Home, pass: Pass<N>)
    requires named { pool.now ≡ N.pool }
    requires home { home.old.pool ≡ pool.now }
    ensures pool { home.new.pool ≡ home.old.pool }
    ensures history { home.new.history ≡ home.old.history }
    ensures pass { EndsIn home.old.history pass }
{
    let Pass {
        seat,
        layouts: _,
        gone: _,
        of: _,
    } = pass;
    pool.end_pass(home, seat);
}
