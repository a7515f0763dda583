//! Laws of searches: what their atoms tell of a text, and which words an expression requires.
ghost use Rattle.funnel_model.specs.Required.{RequiredWordsAndResidueKeep};
ghost use Rattle.funnel_model.specs.Searches.{ReadSearchesAreRight};

/// Where what was read of each atom is right of a text, so is what it tells of the search: one that keeps the text may, and one that is
/// sure keeps it.
pub fn read_searches_are_right()
    ensures { ReadSearchesAreRight }
{}

/// The required words of an expression and its residue keep what the expression keeps.
pub fn required_words_and_residue_keep()
    ensures { RequiredWordsAndResidueKeep }
{}
