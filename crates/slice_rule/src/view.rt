//! What a seat knows of the pool. No value of these types is made: they exist for the proofs alone.
use crate::sizes::Sizes;
use funnel_model::{Bit, Config, Event};
use std::collections::LinkedList;

/// What a seat is.
pub enum Role {
    /// The one that appends events. So many passes are numbered, and so many of these have a seat of their own.
    Home(u64, u64),
    /// The seat of the pass with this number.
    Pass(u64),
    /// A copy of what another seat knew.
    Note,
    /// A note that was joined.
    Spent,
}

/// What a seat knows beside its front.
pub enum Fact {
    /// The pass with this number asked these events first, in this order.
    Asked(u64, LinkedList<Event>),
    /// This bit was set, under the Take with this number.
    BitSet(u64, Bit),
    /// This row word was made zero, under the Clear with this number.
    WordZero(u64, u64),
    /// This row word was read, under the Find with this number, and had this value.
    WordRead(u64, u64, u64),
}

/// What a seat knows.
pub struct View {
    pub limits: Sizes,
    /// The configuration that the pool was made with.
    pub config: Config,
    pub role: Role,
    /// The part of the history that it has seen.
    pub front: LinkedList<Event>,
    /// The front of the note that it joined last.
    pub met: LinkedList<Event>,
    /// The events that its pass asked.
    pub asked: LinkedList<Event>,
    /// What it did itself.
    pub own: LinkedList<Fact>,
    /// What notes told it.
    pub told: LinkedList<Fact>,
}
