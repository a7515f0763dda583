use crate::bit_list::BitList;
use crate::call::Call;
use crate::config::Config;
use crate::text::Text;

/// One step of the model, made by a pass. The number of an event is its place in the history, from 1.
#[derive(Debug, Drop)]
pub enum Event {
    /// The pass claims a column of a slice.
    Take {
        pass: u32,
        slice: u32,
        column: u32,
    },
    /// A commit: the document in the claimed column is live from here on. Where its number is live already, it takes the place of
    /// that document, which is live no more; a find that is running still sees that one.
    Add {
        pass: u32,
        id: u64,
        text: Text,
        slice: u32,
        column: u32,
        bits: BitList,
    },
    /// The document isn't added to the claimed column: its number is live by now.
    Drop {
        pass: u32,
        id: u64,
        text: Text,
        slice: u32,
        column: u32,
    },
    /// A commit: the live document with this number is live no more.
    Del {
        pass: u32,
        id: u64,
    },
    /// The live document with this number moves from the column that it had to the claimed one. It stays live, with its
    /// text and its place; a find that is running still sees it in the column that it had, and a later one in the new column.
    Move {
        pass: u32,
        id: u64,
        slice: u32,
        column: u32,
        bits: BitList,
    },
    /// The claimed column gets no document after all, and there is no call that would be told so.
    Void {
        pass: u32,
        slice: u32,
        column: u32,
    },
    /// A query is answered by the documents that are live here. The pass holds a token until its
    /// `End`: while it is open, no slice is cleared that the find may read.
    Find {
        pass: u32,
        query: Text,
    },
    /// The pass hands its token back.
    End {
        pass: u32,
    },
    /// The pass begins to clear a slice of which each column is over: its document was deleted, replaced or moved away, or it got none.
    Clear {
        pass: u32,
        slice: u32,
    },
    /// The slice that the pass cleared is empty, and its columns are free again. `alone` is false where an add
    /// cleared it, whose `Take` follows at once, and true where the pass's call was to recycle.
    Opened {
        pass: u32,
        slice: u32,
        alone: bool,
    },
    /// New statistics are given. At each `Clear` a slice begins to be treated by those that were given last, and it stays so until its
    /// next `Clear`.
    Tune {
        pass: u32,
        config: Config,
    },
    /// A call that was refused before any other event of it.
    No {
        pass: u32,
        call: Call,
    },
    /// A call that reads what the history is here, and changes nothing.
    Read {
        pass: u32,
        call: Call,
    },
}
