use crate::config::Config;
use crate::expr::Expr;
use crate::text::Text;

/// The most columns that an add or a put takes to move documents there, beside the one for its own.
pub const MOST_MOVES: u32 = 16;

/// What a client asks of the engine.
#[derive(Debug, Drop)]
pub enum Call {
    /// Add the document of this number, unless it is live.
    Add { id: u64, text: Text },
    /// Add the document of this number, in the place of the live one with the number if there is one. In a history a put that is
    /// done stands as an add.
    Put { id: u64, text: Text },
    /// Delete the live document of this number.
    Delete { id: u64 },
    /// Find the documents that have every word of the query.
    Find { query: Text },
    /// Find the documents that the boolean expression keeps. In a history it stands as the find of the empty query.
    Query { expr: Expr },
    /// Tell how many documents the boolean expression keeps. In a history it stands as a query does, and so do the next two.
    Count { expr: Expr },
    /// Tell how many documents the boolean expression keeps, and at most so many numbers of those that were added last, the newest first.
    Newest { expr: Expr, most: u64 },
    /// Tell how many documents the boolean expression keeps, and at most so many numbers of those that were added first, the oldest first.
    Oldest { expr: Expr, most: u64 },
    /// Tell the text of the live document of this number, and its place.
    Get { id: u64 },
    /// Tell how many commits there were.
    Place,
    /// Tell the commits but the first so many.
    Journal { from: u64 },
    /// Tell how full the engine is.
    Stats,
    /// Clear and open a slice of which each column is over.
    Recycle,
    /// Treat each slice that is cleared from now on by this configuration, until another is given.
    Tune { config: Config },
}
