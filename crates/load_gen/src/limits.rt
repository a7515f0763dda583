/// A load has at most this many documents.
pub const MOST_DOCS: u32 = 4_194_304;

/// A document has at most this many drawn words.
pub const MOST_WORDS: u32 = 1_000;

/// The documents whose numbers are multiples of this one are deleted.
pub const DELETED_ONE_IN: u32 = 10;

/// A worker looks for the document that it added after each so many adds.
pub const CHECKED_ONE_IN: u32 = 100;
