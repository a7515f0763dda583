//! Names of events that borrow what they tell, so that an event costs no copy of a text.
ghost use Rattle.commit_desk.specs.Answers.{call_asked};
ghost use Rattle.funnel_model.specs.declared.event.Event.TheVariants as event;

use document_store::Doc;
use funnel_model::{Claim, Config};
use row_layout::Bits;
use slice_rule::Entry;

/// A document is added to the column that was claimed for it.
#[derive(Drop)]
pub struct Adds<'a> {
    pub pass: u32,
    pub doc: &'a Doc,
    pub claim: &'a Claim,
    pub bits: &'a Bits,
}

impl<'a> Entry for Adds<'a> {
    ghost event = { λ e. event.Add e.pass e.doc.now.id e.doc.now.text e.claim.now.slice e.claim.now.column e.bits.now.bits };
}

/// A document is dropped for the column that was claimed for it.
#[derive(Drop)]
pub struct Drops<'a> {
    pub pass: u32,
    pub doc: &'a Doc,
    pub claim: &'a Claim,
}

impl<'a> Entry for Drops<'a> {
    ghost event = { λ e. event.Drop e.pass e.doc.now.id e.doc.now.text e.claim.now.slice e.claim.now.column };
}

/// A document moves to the column that was claimed for it.
#[derive(Drop)]
pub struct Moves<'a> {
    pub pass: u32,
    pub id: u64,
    pub claim: &'a Claim,
    pub bits: &'a Bits,
}

impl<'a> Entry for Moves<'a> {
    ghost event = { λ e. event.Move e.pass e.id e.claim.now.slice e.claim.now.column e.bits.now.bits };
}

/// An add of a document is refused, or a put, which replaces.
#[derive(Drop)]
pub struct Refuses<'a> {
    pub pass: u32,
    pub replaces: bool,
    pub doc: &'a Doc,
}

impl<'a> Entry for Refuses<'a> {
    ghost event = { λ e. event.No e.pass (call_asked e.replaces e.doc.now.id e.doc.now.text) };
}

/// An engine is tuned.
#[derive(Drop)]
pub struct Tunes<'a> {
    pub pass: u32,
    pub config: &'a Config,
}

impl<'a> Entry for Tunes<'a> {
    ghost event = { λ e. event.Tune e.pass e.config.now };
}

/// A find begins.
#[derive(Drop)]
pub struct Finds<'a> {
    pub pass: u32,
    pub query: &'a str,
}

impl<'a> Entry for Finds<'a> {
    ghost event = { λ e. event.Find e.pass e.query.now };
}
