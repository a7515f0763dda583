/// What a search keeps. Its text borrows from the line.
#[derive(Clone, Copy, Debug, PartialEq, Eq)]
pub enum Search<'a> {
    /// The documents that the boolean query keeps which is written so.
    Query(&'a str),
    /// The documents that have every word of the text, as each has of one without words.
    Words(&'a str),
}

/// What a line asks for. Its text borrows from the line.
#[derive(Clone, Copy, Debug, PartialEq, Eq)]
pub enum Request<'a> {
    /// Add the document of this number.
    Add { id: u64, text: &'a str },
    /// Add the document of this number, in the place of the live one with the number if there is one.
    Put { id: u64, text: &'a str },
    /// Delete the document of this number.
    Delete { id: u64 },
    /// Tell the text of the document of this number.
    Get { id: u64 },
    /// Find the documents that have every word of the query.
    Find { query: &'a str },
    /// Find the documents that the boolean query keeps which is written so.
    Query { text: &'a str },
    /// Tell how many documents the search keeps.
    Count { kept: Search<'a> },
    /// Tell how many documents the search keeps, and at most so many of those that were added last, the newest first.
    Newest { most: u64, kept: Search<'a> },
    /// Tell how many documents the search keeps, and at most so many of those that were added first, the oldest first.
    Oldest { most: u64, kept: Search<'a> },
    /// Tell how many commits there were.
    Place,
    /// Tell the commits but the first so many.
    Journal { from: u64 },
    /// Tell how full the engine is.
    Stats,
    /// Clear and open a slice of which each column is over.
    Recycle,
    /// Treat each slice that is cleared, until others are given, by the statistics that are written so.
    Tune { text: &'a str },
}
