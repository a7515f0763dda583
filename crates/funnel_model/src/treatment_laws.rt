//! The laws of the treatment, which hold of every configuration in range.

ghost use Rattle.funnel_model.specs.TreatmentLaws.{ClassesAreGreatest, RowCountsAreLeast, RowCountsAreSmall, ListedWordsHaveTheirClass, UnlistedWordsHaveTheLastClass, RarerWordsHaveMoreRows, UnlistedWordsHaveMostRows};

/// The class of a word is the greatest that its count allows.
pub fn classes_are_greatest()
    ensures { ClassesAreGreatest }
{}

/// The row count of a class is the least that is enough, and at most 26.
pub fn row_counts_are_least()
    ensures least { RowCountsAreLeast }
    ensures small { RowCountsAreSmall }
{}

/// A listed word has the class of its count, and any other word the last class.
pub fn words_have_their_class()
    ensures listed { ListedWordsHaveTheirClass }
    ensures unlisted { UnlistedWordsHaveTheLastClass }
{}

/// A word that fewer documents hold has at least as many rows, and no word has more than an unlisted one.
pub fn rarer_words_have_more_rows()
    ensures listed { RarerWordsHaveMoreRows }
    ensures unlisted { UnlistedWordsHaveMostRows }
{}
