use funnel_model::Commits;
use slice_rule::Ended;
use std::marker::Model;

/// What an engine leaves behind. Contracts see its whole history.
#[derive(Drop)]
pub struct Closed {
    /// How many of the history's commits come before those that the journal keeps.
    pub base: u64,
    /// The commits that the journal keeps, which are the last ones, in order.
    pub commits: Commits,
    /// How many events the history has.
    pub events: u64,
    pub(crate) ended: Ended,
}

impl Model for Closed {
    ghost use Rattle.std.specs.Coded.{codes};
    ghost use Rattle.funnel_model.specs.contracts.expr.Expr as e;
    ghost use Rattle.std.specs.Prelude.{◌≡◌, length};
    ghost use Rattle.funnel_model.specs.History.{commits_after};
    ghost use Rattle.engine.specs.Engines.{ClosedState, IsClosed};

    ghost Value = { ClosedState };

    ghost coded = { Prim.hlevel (codes, e.the_row.coded) };

    ghost view = { λ c. record { base = c.base; commits = c.commits; events = c.events; history = c.ended.history } };

    ghost invariant = { λ c. IsClosed (record { base = c.base; commits = c.commits; events = c.events; history = c.ended.history }) };
}
