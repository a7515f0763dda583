//! What the calls of the desk answer.
use crate::look::Look;
use crate::shared_layout::SharedLayout;
use document_store::{Doc, OldSlots};
use funnel_model::{Blocked, Claim, ClearJob};

/// The history has so many events that no call is taken any more: this many.
#[derive(Clone, Copy, Debug, PartialEq, Eq)]
pub struct Spent {
    pub events: u64,
}

/// A slice that the pass is to clear: the job for its words, and its old slots, which have left the records with the
/// documents. The pass makes the words zero and empties the slots, and then gives both back.
#[derive(Debug)]
pub struct ToClear {
    pub job: ClearJob,
    pub slots: OldSlots,
    /// The layout of the slice's older treatment, where no other slice has that: for its owner to drop where the desk is free.
    pub old_layout: Option<SharedLayout>,
}

/// What became of an add's wish for a column. The layout is that by which the document's bits are to be set.
#[derive(Debug)]
pub enum Taken {
    /// The pass has claimed this column, whose slice has this layout.
    Claim(Claim, SharedLayout),
    /// No slice has a column left, and the pass is to clear this slice, which has this layout from now on. Then `opened_take` claims
    /// its first column.
    Clear(ToClear, SharedLayout),
    /// No slice has a column left, and none can be cleared, but another pass is clearing this one: the add is to be made again once it
    /// is open.
    Wait(u32),
    /// The add is refused.
    Refused(AddFault),
}

/// A column that was claimed for a document that is to be moved, and the layout of its slice. It must be spent, since its look must be.
#[derive(Debug)]
pub struct TakenMove {
    pub claim: Claim,
    pub look: Look,
    pub layout: SharedLayout,
}

/// Why no column was claimed for a document that a pass had looked at to move it. The look is over, and this is its document, for its
/// owner to drop where the desk is free.
#[derive(Debug)]
pub enum NotTaken {
    /// The document is moved no more, or there is no column for it.
    NoColumn(Doc),
    /// There was no memory, before a column was taken.
    Memory(Doc),
}

/// What became of a move. The documents are for their owner to drop where the desk is free.
#[derive(Debug, Drop)]
pub enum EndedMove {
    /// The document was moved. Where no open find may ask for it in its old column, this is the one that was there.
    Moved(Option<Doc>),
    /// The document is not any more where it was looked at: this is the copy.
    Void(Doc),
}

/// Why no document was added.
#[derive(Debug, Drop)]
pub enum AddFault {
    /// The number is live, and was added at this place.
    Present(u64),
    /// No slice has a column left, and none can be cleared: what keeps documents out of each.
    Full(Blocked),
    /// The history has this many events, and no call is taken any more.
    Spent(u64),
    /// There was no memory, before a column was taken or a slice cleared for the document.
    Memory,
}

/// Why a document was dropped at its commit.
#[derive(Clone, Copy, Debug, PartialEq, Eq)]
pub enum CommitFault {
    /// The number is live, and was added at this place.
    Present(u64),
}

/// What a put did.
#[derive(Clone, Copy, Debug, PartialEq, Eq)]
pub enum Put {
    /// The document was added, at this place; its number was not live.
    Added(u64),
    /// It took the place of the live document with its number, and was added at this place.
    Replaced(u64),
}

/// Why no document was deleted.
#[derive(Clone, Copy, Debug, PartialEq, Eq)]
pub enum DeleteFault {
    /// The number is not live.
    Absent,
    /// The history has this many events, and no call is taken any more.
    Spent(u64),
}

/// Why no slice is cleared.
#[derive(Clone, Copy, Debug, PartialEq, Eq)]
pub enum ClearRefusal {
    /// No slice is retired.
    NoneRetired,
    /// Each retired slice is guarded. This is the lowest one, with the lowest pass that guards it and the number of the
    /// event that began this pass's find.
    Guarded {
        slice: u32,
        pass: u32,
        opened_at: u64,
    },
    /// The history has this many events, and no call is taken any more.
    Spent(u64),
}

/// Why no find was made.
#[derive(Clone, Copy, Debug, PartialEq, Eq)]
pub enum FindFault {
    /// The history has this many events, and no call is taken any more.
    Spent(u64),
    /// There was no memory: before the find began, or after, and then it was ended.
    Memory,
}

/// What a look for the text of a live document came to.
#[derive(Clone, Copy, Debug, PartialEq, Eq)]
pub enum TextRead {
    /// The text was copied. The place of the document's add.
    Read(u64),
    /// The number is not live.
    Absent,
    /// There is no room for the text, which has this many bytes: the get is to be made again.
    Short(usize),
    /// The history has this many events, and no call is taken any more.
    Spent(u64),
}

/// Why the journal was not read.
#[derive(Clone, Copy, Debug, PartialEq, Eq)]
pub enum JournalFault {
    /// The journal no longer keeps the first so many commits, one of which was asked for.
    Trimmed(u64),
    /// The history has this many events, and no call is taken any more.
    Spent(u64),
    /// There was no memory.
    Memory,
}
