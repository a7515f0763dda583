use crate::commit::Commits;
use crate::ids::Ids;
use crate::stats::Stats;
use crate::text::Text;

/// What a line is answered.
#[derive(Debug, Drop)]
pub enum Reply {
    /// The document was added, at this place.
    Added(u64),
    /// The document was added at this place, and the live one with its number is live no more.
    Replaced(u64),
    /// A document with this number is live already; the place of its add.
    Present(u64),
    /// There is no column for another document.
    Full,
    /// The document was deleted, at this place.
    Deleted(u64),
    /// No document with this number is live.
    Absent,
    /// The numbers of the documents that have every word of the query, or that the boolean query keeps, in the order of their adds.
    Found(Ids),
    /// How many documents the boolean query keeps.
    Count(u64),
    /// How many documents the boolean query keeps, and the numbers of those that were asked for.
    FoundSome { count: u64, ids: Ids },
    /// The text of a live document, and the place of its add.
    Text { place: u64, text: Text },
    /// The number of commits so far.
    Place(u64),
    /// The commits that were asked for, in order.
    Commits(Commits),
    /// The journal no longer keeps the commits that were asked for, but only those after this many.
    Trimmed(u64),
    /// How full the engine is.
    Stats(Stats),
    /// This slice was cleared, and its columns are free again.
    Recycled(u32),
    /// No slice can be recycled: none is retired.
    NothingRetired,
    /// No slice can be recycled: each that is retired is guarded by a running find. The lowest of these slices, and the
    /// lowest pass that guards it.
    Guarded { slice: u32, pass: u32 },
    /// The statistics were taken; how many tunings there were, with this one.
    Tuned(u64),
    /// The statistics have the fault of this number.
    Tuning(u8),
    /// By these statistics a slice would need more row words than it has room for.
    Wide { needed: u64, room: u64 },
    /// The text is no boolean query: the token at this byte can't stand where it does, or the text ends here too early.
    Query(u64),
    /// The token at this byte opens more parentheses and minus signs than may be open at once.
    Deep(u64),
    /// The history has so many events that no call is taken any more.
    Spent,
    /// No memory was found for the call.
    Memory,
    /// The line is none of the protocol.
    Line,
    /// The line is longer than a line may be.
    Long,
}
