//! What holds of what a desk keeps, whatever the history. Each is the contract of a function that does nothing.
ghost use Rattle.commit_desk.specs.Laws.{AnswersAreByTests, CallsDoNothingElse, DesksHaveTheirCommits, MovesAreOne, MovesKeepTexts, NewDesksAreKept};
ghost use Rattle.commit_desk.specs.Laws.{ReadBitsTellWords, RefusedCallsKeepDocuments, ScansMissNone, ScansTellTexts, TurnsJudgeFewDocuments};

/// A desk that keeps nothing yet stands for the history without events, so what is kept of a history can be met.
pub fn new_desks_are_kept()
    ensures { NewDesksAreKept }
{}

/// What a desk keeps stands for one number of commits, one list of the last of them and one number of events: where two
/// histories could be that of one desk, these are equal. Which of them it is, its home knows.
pub fn desks_have_their_commits()
    ensures { DesksHaveTheirCommits }
{}

/// A call that is refused changes no live document, whatever the fault.
pub fn refused_calls_keep_documents()
    ensures { RefusedCallsKeepDocuments }
{}

/// Over one history a move has one answer: it is one document that is to be moved next, and no other column is taken for it, nor is
/// one refused where one may be taken.
pub fn moves_have_one_answer()
    ensures { MovesAreOne }
{}

/// A document that is moved has the text that is live: where it is still where it was looked at, it is the very document that was
/// looked at.
pub fn moves_keep_texts()
    ensures { MovesKeepTexts }
{}

/// A call of the desk makes events alone: it sets no bit and reads and clears no word for its pass.
pub fn calls_do_nothing_else()
    ensures { CallsDoNothingElse }
{}

/// What a find answers is what it answers by a test of the texts: whether they have every word of the query, or whether the
/// expression keeps them.
pub fn answers_are_by_tests()
    ensures { AnswersAreByTests }
{}

/// Where a column of a slice owns the bit of an exact word and a find read it as set, the document that was live there as the find
/// began has the word. So a find looks for no exact word in a document.
pub fn read_bits_tell_words()
    ensures { ReadBitsTellWords }
{}

/// A scan for a search misses no document that the search keeps: what it may not keep by what was read, it doesn't keep.
pub fn scans_miss_none()
    ensures { ScansMissNone }
{}

/// What the documents of a scan's candidates are looked at for decides whether the search keeps them: the rest of the required words
/// where bits tell that what else is asked keeps them, and both where they don't.
pub fn scans_tell_texts()
    ensures { ScansTellTexts }
{}

/// A turn decides 32 documents at most where each counts as 8 words at least, however few words are looked for in it.
pub fn turns_judge_few_documents()
    ensures { TurnsJudgeFewDocuments }
{}
