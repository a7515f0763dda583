//! The seats that callers hold.
use crate::view::View;
use atomic_table::Seat;
use std::marker::Model;

/// The seat of a pass. It has two numbers at run time: its own, and how many events it asked.
#[derive(Drop)]
pub struct PassSeat {
    pub(crate) number: u32,
    pub(crate) asked: u64,
    pub(crate) seat: Seat<(), View>,
}

impl Model for PassSeat {
    ghost use Rattle.std.specs.Coded.{codes};
    ghost use Rattle.funnel_model.specs.contracts.expr.Expr as e;
    ghost use Rattle.slice_rule.specs.Seats.{PassState, pass_state, IsPassSeat};

    ghost Value = { PassState };

    ghost coded = { Prim.hlevel (codes, e.the_row.coded) };

    ghost view = { λ s. pass_state s.number s.seat.table_id s.seat.me.0 };

    ghost invariant = { λ s. IsPassSeat s.number s.asked s.seat.me };
}

impl PassSeat {
    ghost use Rattle.std.specs.Prelude.{◌≡◌, ◌<◌};
    ghost use Rattle.funnel_model.specs.Legal.{IsLegal};

    /// The number of its pass.
    pub fn number(&self) -> u32
        ensures number { result ≡ self.now.number }
        ensures in_range { result < self.now.pool.limits.passes }
        ensures legal { IsLegal self.now.pool.limits self.now.front }
    {
        self.number
    }
}

/// The seat that appends the events. It has no byte at run time.
#[derive(Drop)]
pub struct Home {
    pub(crate) seat: Seat<(), View>,
}

impl Model for Home {
    ghost use Rattle.std.specs.Coded.{codes};
    ghost use Rattle.funnel_model.specs.contracts.expr.Expr as e;
    ghost use Rattle.slice_rule.specs.Seats.{HomeState, home_state, IsHomeSeat};

    ghost Value = { HomeState };

    ghost coded = { Prim.hlevel (codes, e.the_row.coded) };

    ghost view = { λ s. home_state s.seat.table_id s.seat.me.0 };

    ghost invariant = { λ s. IsHomeSeat s.seat.me };
}

/// What a seat knew when the note was split from it. It has no byte at run time.
#[derive(Drop)]
pub struct Note {
    pub(crate) seat: Seat<(), View>,
}

impl Model for Note {
    ghost use Rattle.std.specs.Coded.{codes};
    ghost use Rattle.funnel_model.specs.contracts.expr.Expr as e;
    ghost use Rattle.slice_rule.specs.Seats.{NoteState, note_state, IsNoteSeat};

    ghost Value = { NoteState };

    ghost coded = { Prim.hlevel (codes, e.the_row.coded) };

    ghost view = { λ s. note_state s.seat.table_id s.seat.me.0 };

    ghost invariant = { λ s. IsNoteSeat s.seat.me };
}
