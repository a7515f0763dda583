//! A pass between its calls, and in the middle of each.
use crate::draft::Draft;
use commit_desk::{FindLayout, FindLayouts, Look, SharedLayout, TakenMove, ToClear};
use document_store::{Doc, Found};
use funnel_model::{Candidates, Claim, Token, WordSet};
use row_layout::Bits;
use slice_rule::{PassSeat, PoolName};
use std::marker::{Model, PhantomData};

/// A pass that rests.
#[derive(Drop)]
pub(crate) struct Caller<N: PoolName> {
    pub seat: PassSeat,
    pub of: PhantomData<N>,
}

impl<N: PoolName> Model for Caller<N> {
    ghost use Rattle.commit_desk.specs.Passes.{IsResting};

    ghost Value = { Unit {0} };

    ghost view = { λ _. tt };

    ghost invariant = { λ c. IsResting N.pool c.seat };
}

/// A pass that has claimed a column for a document, the layout of its slice, and whether the slice was cleared for it.
pub(crate) struct Claiming<N: PoolName> {
    pub seat: PassSeat,
    pub claim: Claim,
    pub layout: SharedLayout,
    pub draft: Draft<N>,
    pub cleared: bool,
}

impl<N: PoolName> Model for Claiming<N> {
    ghost use Rattle.commit_desk.specs.Passes.{IsToWrite};

    ghost Value = { Unit {0} };

    ghost view = { λ _. tt };

    ghost invariant = { λ c. IsToWrite N.pool c.claim c.layout c.seat };
}

/// A pass that wrote a document into the column that it had claimed.
pub(crate) struct Written<N: PoolName> {
    pub seat: PassSeat,
    pub claim: Claim,
    pub doc: Doc,
    pub bits: Bits,
    pub of: PhantomData<N>,
}

impl<N: PoolName> Model for Written<N> {
    ghost use Rattle.commit_desk.specs.Passes.{HasWritten};

    ghost Value = { Unit {0} };

    ghost view = { λ _. tt };

    ghost invariant = { λ w. HasWritten N.pool w.claim w.doc.words w.bits.bits w.seat };
}

/// A pass that is to clear a slice.
pub(crate) struct Clearing<N: PoolName> {
    pub seat: PassSeat,
    pub to_clear: ToClear,
    pub of: PhantomData<N>,
}

impl<N: PoolName> Model for Clearing<N> {
    ghost use Rattle.std.specs.Prelude.{◌≡◌};
    ghost use Rattle.commit_desk.specs.Passes.{IsToClear};

    ghost Value = { Unit {0} };

    ghost view = { λ _. tt };

    ghost invariant = { λ c. IsToClear N.pool c.to_clear.job c.seat × (c.to_clear.slots ≡ N.pool.limits.columns) };
}

/// A pass that is to clear a slice for an add, and the layout that the slice has from then on.
pub(crate) struct Reusing<N: PoolName> {
    pub seat: PassSeat,
    pub to_clear: ToClear,
    pub layout: SharedLayout,
    pub of: PhantomData<N>,
}

impl<N: PoolName> Model for Reusing<N> {
    ghost use Rattle.std.specs.Prelude.{◌≡◌};
    ghost use Rattle.commit_desk.specs.Layouts.{IsLayoutOf};
    ghost use Rattle.commit_desk.specs.Passes.{IsToClear};

    ghost Value = { Unit {0} };

    ghost view = { λ _. tt };

    ghost invariant = { λ r. IsToClear N.pool r.to_clear.job r.seat × (r.to_clear.slots ≡ N.pool.limits.columns)
        × IsLayoutOf N.pool.config r.to_clear.job.slice r.seat.front r.layout };
}

/// A pass that has begun a find of no words, an entry of its layouts, and the others.
pub(crate) struct Finding<N: PoolName> {
    pub seat: PassSeat,
    pub token: Token,
    pub entry: FindLayout,
    pub layouts: FindLayouts,
    pub of: PhantomData<N>,
}

impl<N: PoolName> Model for Finding<N> {
    ghost use Rattle.commit_desk_tests.specs.Tested.{IsFindingAll};

    ghost Value = { Unit {0} };

    ghost view = { λ _. tt };

    ghost invariant = { λ f. IsFindingAll N.pool f.token f.entry f.layouts.entries.items f.seat };
}

/// A pass whose find of no words looks at all columns of a slice, from one on.
pub(crate) struct Looking<N: PoolName> {
    pub seat: PassSeat,
    pub token: Token,
    pub entry: FindLayout,
    pub layouts: FindLayouts,
    pub rest: WordSet,
    pub columns: Candidates,
    pub found: Found,
    pub from: usize,
    pub of: PhantomData<N>,
}

impl<N: PoolName> Model for Looking<N> {
    ghost use Rattle.commit_desk_tests.specs.Tested.{IsLookingAtAll};

    ghost Value = { Unit {0} };

    ghost view = { λ _. tt };

    ghost invariant = { λ l. IsLookingAtAll N.pool l.token l.entry l.layouts.entries.items l.seat l.columns l.found l.from };
}

/// A pass that has looked at a document to move it, and room for its bits.
pub(crate) struct Looked<N: PoolName> {
    pub seat: PassSeat,
    pub look: Look,
    pub bits: Bits,
    pub of: PhantomData<N>,
}

impl<N: PoolName> Model for Looked<N> {
    ghost use Rattle.commit_desk.specs.Moving.{HoldsLook};
    ghost use Rattle.commit_desk.specs.Passes.{IsResting};
    ghost use Rattle.commit_desk_tests.specs.Tested.{IsDraft};

    ghost Value = { Unit {0} };

    ghost view = { λ _. tt };

    ghost invariant = { λ l. IsResting N.pool l.seat × HoldsLook l.seat l.look × IsDraft l.look.doc.words l.bits };
}

/// A pass that has claimed a column for what it looked at.
pub(crate) struct Moving<N: PoolName> {
    pub seat: PassSeat,
    pub taken: TakenMove,
    pub bits: Bits,
    pub of: PhantomData<N>,
}

impl<N: PoolName> Model for Moving<N> {
    ghost use Rattle.commit_desk.specs.Moving.{HoldsLook};
    ghost use Rattle.commit_desk.specs.Passes.{IsToWrite};
    ghost use Rattle.commit_desk_tests.specs.Tested.{IsDraft};

    ghost Value = { Unit {0} };

    ghost view = { λ _. tt };

    ghost invariant = { λ m. IsToWrite N.pool m.taken.claim m.taken.layout m.seat × HoldsLook m.seat m.taken.look × IsDraft m.taken.look.doc.words m.bits };
}
