//! What holds of the bits that documents set.

ghost use Rattle.std.specs.Prelude.{◌≡◌, List, [], ◌∷◌, ◌++◌};
ghost use Rattle.funnel_model.specs.Events.{bits_on};
ghost use Rattle.funnel_model.specs.declared.bit_list.Bit.{Bit};
ghost use Rattle.funnel_model.specs.declared.config.Config.{Config};
ghost use Rattle.funnel_model.specs.declared.event.Event.{Event};
ghost use Rattle.funnel_model.specs.declared.event.Event.TheVariants as event;
ghost use Rattle.row_layout.specs.Laws.{BitsHaveOneOwner, DocumentsHaveBitsOfParts, DocumentsHaveOneListOfBits, DocumentsKeepTheirBits, EachRowHasItsBit, ExactWordsHaveOwnedBits, OwnedBitsTellWords, OwnedBitsTellWordsOfDocuments, PrivateRowsHaveOwnedBits, ReadSearchesTellTexts, RowsKeepToTheirColumn, SetBitsAreOfExactWords, SetBitsAreOfLiveDocuments, SetBitsTellWords, SoundBitsStandAtTheirColumn, TakenColumnsOwnNoSetBits, TextsHaveBitsOfQueries, TreatedBitsHaveOneOwner};
ghost use Rattle.row_layout.specs.Sound.{HasItsBits, IsSound};

/// The bits of a document have one for each of its words and each row of that word.
pub fn each_row_has_its_bit()
    ensures { EachRowHasItsBit }
{}

/// The bits of a document at a column are one list: those bits in rising order, each once.
pub fn documents_have_one_list_of_bits()
    ensures { DocumentsHaveOneListOfBits }
{}

/// A document has the bits of each set of its words, and so those of each query that it meets.
pub fn documents_have_bits_of_parts()
    ensures part { DocumentsHaveBitsOfParts }
    ensures query { TextsHaveBitsOfQueries }
{}

/// The bits of a column are those of the add or the move that puts a document there, and of no event elsewhere.
pub fn columns_have_the_bits_of_their_events()
    ensures added { (bits : List Bit) → bits_on 1 2 (event.Add 0 9 [] 1 2 bits) ≡ bits }
    ensures moved { (bits : List Bit) → bits_on 1 2 (event.Move 0 9 1 2 bits) ≡ bits }
    ensures other_column { (bits : List Bit) → bits_on 1 3 (event.Add 0 9 [] 1 2 bits) ++ bits_on 1 3 (event.Move 0 9 1 2 bits) ≡ [] }
    ensures other_slice { (bits : List Bit) → bits_on 0 2 (event.Add 0 9 [] 1 2 bits) ++ bits_on 0 2 (event.Move 0 9 1 2 bits) ≡ [] }
{}

/// The bits of a sound add or move are those of its own column. So in a sound history the event that put a document on a column has
/// exactly the document's bits there, while the slice isn't cleared.
pub fn documents_keep_their_bits()
    ensures place { SoundBitsStandAtTheirColumn }
    ensures documents { DocumentsKeepTheirBits }
{}

/// A bit has one owner, also where each slice has its own treatment. Each column of a slice owns the bits of its private rows, and so that
/// of the row of an exact word. No column of a slice owns the bit of a row at a column but that one.
pub fn owned_bits_have_one_owner()
    ensures one { BitsHaveOneOwner }
    ensures treated { TreatedBitsHaveOneOwner }
    ensures private { PrivateRowsHaveOwnedBits }
    ensures exact { ExactWordsHaveOwnedBits }
    ensures own { RowsKeepToTheirColumn }
{}

/// An owned bit tells its word: a document that has it has the word. So does the document that an add or a move of a sound history put
/// on the column, while its slice isn't cleared.
pub fn owned_bits_tell_words()
    ensures bits { OwnedBitsTellWords }
    ensures documents { OwnedBitsTellWordsOfDocuments }
{}

/// Where the set bits of the row words keep to their owners, a set bit that a column owns tells a word of the document that was put there,
/// while the slice isn't cleared, and so of a live one. A column that may be taken owns no set bit.
pub fn set_bits_tell_words()
    ensures exact { SetBitsAreOfExactWords }
    ensures live { SetBitsAreOfLiveDocuments }
    ensures words { SetBitsTellWords }
    ensures taken { TakenColumnsOwnNoSetBits }
{}

/// What a find read of the atoms of a search, at a column on which a document was live as it began, is right of the document's text: a
/// search that keeps the text may, and one that is sure keeps it.
pub fn read_searches_tell_texts()
    ensures { ReadSearchesTellTexts }
{}

/// A history is sound event by event: the empty one is, and one more event keeps it so where it has its bits. Its fronts are sound.
pub fn histories_are_sound_event_by_event()
    ensures start { (config : Config) → IsSound config [] }
    ensures push { (config : Config) (history : List Event) (e : Event) → IsSound config history → HasItsBits config history e →
        IsSound config (history ++ e ∷ []) }
    ensures before { (config : Config) (history later : List Event) → IsSound config (history ++ later) → IsSound config history }
{}
