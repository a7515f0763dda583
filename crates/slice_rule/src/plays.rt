//! What each step on the pool's words tells the seat that makes it.
use crate::view::View;
use atomic_table::{Join, Play, Split};
use std::marker::{Brand, PhantomData};

/// The event of a step. A step takes no argument for the proof alone, so each call picks it.
pub trait EventName {
    ghost use Rattle.funnel_model.specs.declared.event.Event.{Event};

    ghost named: { Event };
}

impl EventName for Brand {
    ghost use Rattle.funnel_model.specs.declared.event.Event.TheVariants as event;

    ghost named = { event.End 0 };
}

/// One more pass has a number, which the home holds until the pass has its seat.
pub struct Number;

impl Play<(), View> for Number {
    ghost use Rattle.slice_rule.specs.Tells.{Numbers};

    ghost then = { Numbers };
}

/// The seat of the pass that was numbered last.
pub struct ToPass;

impl Split<View> for ToPass {
    ghost use Rattle.slice_rule.specs.Views.{new_pass_view, with_seat};

    ghost left = { with_seat };

    ghost right = { new_pass_view };
}

/// A note of what a seat knows.
pub struct ToNote;

impl Split<View> for ToNote {
    ghost use Rattle.slice_rule.specs.Views.{note_of};

    ghost left = { λ v. v };

    ghost right = { note_of };
}

/// A seat takes what a note knows. The front of the note waits until the seat looks at the pool again.
pub struct TakeIn;

impl Join<View> for TakeIn {
    ghost use Rattle.slice_rule.specs.Views.{taken_in, spent};

    ghost both = { taken_in };

    ghost spent = { spent };
}

/// The seat's front is the longer of its own and that of the note that it took in.
pub struct Settle;

impl Play<(), View> for Settle {
    ghost use Rattle.slice_rule.specs.Tells.{Settles};

    ghost then = { Settles };
}

/// The pass asked the event.
pub struct Asks<J> {
    event: PhantomData<J>,
}

impl<J: EventName> Play<(), View> for Asks<J> {
    ghost use Rattle.slice_rule.specs.Tells.{AsksFor};

    ghost then = { AsksFor J.named };
}

/// The home appended the event.
pub struct Appends<J> {
    event: PhantomData<J>,
}

impl<J: EventName> Play<(), View> for Appends<J> {
    ghost use Rattle.slice_rule.specs.Tells.{AppendsEvent};

    ghost then = { AppendsEvent J.named };
}

/// The pass set a bit.
pub struct Sets;

impl Play<(), View> for Sets {
    ghost use Rattle.slice_rule.specs.Tells.{SetsBit};

    ghost then = { SetsBit };
}

/// The pass read a word.
pub struct Reads;

impl Play<(), View> for Reads {
    ghost use Rattle.slice_rule.specs.Tells.{ReadsWord};

    ghost then = { ReadsWord };
}

/// The pass made a word zero.
pub struct Clears;

impl Play<(), View> for Clears {
    ghost use Rattle.slice_rule.specs.Tells.{ClearsWord};

    ghost then = { ClearsWord };
}
