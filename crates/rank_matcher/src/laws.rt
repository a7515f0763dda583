//! What holds of the hits of a plan.

ghost use Rattle.rank_matcher.specs.Laws.{DocumentsWithAllBitsAreHits, TextsWithAllBitsAreHits, WrittenAddsAreHits, WrittenBitsAreRowBits, WrittenDocumentsAreHits};

/// A column that has all bits of a document is a hit of the plan of each query that the document meets.
pub fn documents_with_all_bits_are_hits()
    ensures documents { DocumentsWithAllBitsAreHits }
    ensures texts { TextsWithAllBitsAreHits }
{}

/// What is written of a document is what a query of its words reads.
pub fn written_bits_are_found()
    ensures rows { WrittenBitsAreRowBits }
    ensures adds { WrittenAddsAreHits }
    ensures documents { WrittenDocumentsAreHits }
{}
