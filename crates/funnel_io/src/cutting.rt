//! Laws of the lines into which bytes are cut: each function states them and does nothing.
ghost use Rattle.std.specs.Prelude.{◌≡◌, ◌++◌, ◌∷◌, [], List, ℕ, All};
ghost use Rattle.funnel_io.specs.Lines.{Cut, cut, whole_lines, rest_of, with_newlines, HasNoNewline};

/// Bytes are cut into lines in the one way in which they can be put together again.
pub fn lines_join()
    ensures joined { (bytes : List ℕ) → with_newlines (whole_lines bytes) ++ rest_of bytes ≡ bytes }
    ensures lines_free { (bytes : List ℕ) → All HasNoNewline (whole_lines bytes) }
    ensures rest_free { (bytes : List ℕ) → HasNoNewline (rest_of bytes) }

    // No other lines and no other rest without newline are joined to the same bytes.
    ensures only { (whole : List (List ℕ)) (rest : List ℕ) → All HasNoNewline whole → HasNoNewline rest
        → cut (with_newlines whole ++ rest) ≡ record { whole = whole; rest = rest } }
{}

/// Bytes that come in pieces are cut as they come: the lines of a front stay, and only its rest
/// is cut again with what follows.
pub fn lines_grow()
    ensures whole { (xs ys : List ℕ)
        → whole_lines (xs ++ ys) ≡ whole_lines xs ++ whole_lines (rest_of xs ++ ys) }
    ensures rest { (xs ys : List ℕ) → rest_of (xs ++ ys) ≡ rest_of (rest_of xs ++ ys) }
    ensures line { (xs line : List ℕ) → rest_of xs ≡ [] → HasNoNewline line
        → cut (xs ++ (line ++ 10 ∷ [])) ≡ record { whole = whole_lines xs ++ line ∷ []; rest = [] } }
{}
