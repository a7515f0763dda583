use crate::word_set::WordSet;

/// A boolean expression whose atoms are cut into words, so that they are cut once, and not for each document.
#[derive(Debug, Drop)]
pub enum WordExpr {
    /// Kept are the texts that have every word.
    Words(WordSet),
    And(Vec<WordExpr>),
    Or(Vec<WordExpr>),
    Not(Box<WordExpr>),
}
