//! Laws on the words of plain texts, which are made of pieces of small letters and digits with one space between.
ghost use Rattle.std.specs.Prelude.{◌≡◌, ◌↔◌, ◌+◌, ◌<◌, ◌^◌, ◌==◌, ℕ, List, ◌∷◌, Contains, IsTrue, codes};
ghost use Rattle.std.specs.List.{list_all, list_any};
ghost use Rattle.std.specs.Str.{bytes_eq};
ghost use Rattle.funnel_model.specs.Words.{has_word, meets, words};
ghost use Rattle.load_gen.specs.Documents.{document, name_of_document};
ghost use Rattle.load_laws.specs.PlainTexts.{AllBeginWith, ArePieces, joined_by_spaces};

/// The words of a plain text are its pieces as they come in it, so a plain text meets a plain query exactly where it has
/// each of its pieces.
pub fn plain_texts_have_their_pieces_as_words()
    ensures words { (pieces : List (List ℕ)) → ArePieces pieces → words (joined_by_spaces pieces) ≡ pieces }
    ensures has { (pieces : List (List ℕ)) (word : List ℕ) → ArePieces pieces →
        IsTrue (has_word (joined_by_spaces pieces) word) ↔ Contains pieces word }
    ensures meets { (pieces query : List (List ℕ)) → ArePieces pieces → ArePieces query →
        meets (joined_by_spaces pieces) (joined_by_spaces query) ≡ list_all (λ word. list_any (bytes_eq word) pieces) query }
{}

/// The query of a document's name is met by the text with that name and other pieces that begin with w, as drawn words do,
/// and by no such text with another name. So it is met by the text of that document alone.
pub fn names_find_their_own_text()
    ensures others { (asked named : ℕ) (others : List (List ℕ)) → asked < 2 ^ 64 → named < 2 ^ 64 → ArePieces others →
        AllBeginWith (codes "w") others → meets (joined_by_spaces (name_of_document named ∷ others)) (name_of_document asked) ≡ (asked == named) }
    ensures document { (words seed i asked : ℕ) → i + 1 < 2 ^ 64 → asked < 2 ^ 64 →
        meets (document words seed i) (name_of_document asked) ≡ (asked == i + 1) }
{}
