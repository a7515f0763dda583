use crate::search::Search;
use commit_desk::{FindLayouts, Gone};
use funnel_model::Token;
use slice_rule::{PassSeat, PoolName};
use std::marker::{Model, PhantomData};

/// A find of the engine that `N` names, which is open. It has its pass until it is finished, which has to be done; that may be
/// on another thread. Contracts see the pass, whose last event began the find.
pub struct OpenFind<N: PoolName> {
    pub(crate) seat: PassSeat,
    /// The layouts by which its slices are read, with room for an entry for each slice.
    pub(crate) layouts: FindLayouts,
    /// Where its pass is handed documents that may go, of which there are none.
    pub(crate) gone: Gone,
    pub(crate) begun: Begun,
    pub(crate) of: PhantomData<N>,
}

impl<N: PoolName> Model for OpenFind<N> {
    ghost use Rattle.std.specs.Coded.{codes};
    ghost use Rattle.funnel_model.specs.contracts.expr.Expr as e;
    ghost use Rattle.std.specs.Prelude.{◌≡◌, []};
    ghost use Rattle.engine.specs.Finds.{IsScanFor};
    ghost use Rattle.engine.specs.Passes.{HasRoomForEach, PassView, view_of};

    ghost Value = { PassView };

    ghost coded = { Prim.hlevel (codes, e.the_row.coded) };

    ghost view = { λ f. view_of f.seat };

    ghost invariant = { λ f. IsScanFor N.pool f.seat f.begun.token f.begun.search f.layouts.entries.items × HasRoomForEach N.pool f.layouts × (f.gone ≡ []) };
}

// A find that has begun: its token, and what it looks for.
pub(crate) struct Begun {
    pub token: Token,
    pub search: Search,
}
