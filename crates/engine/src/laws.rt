//! What the turns of an add say of the history, and what is left of an engine. Each is the contract of a function that does nothing.
ghost use Rattle.engine.specs.Laws.{AddsAreMadeWithTheirBits, AddsWithoutMemoryAddNothing, ClearedSlicesAreFilledFromTheFirst, ClosedEnginesCountTheirEvents, OpenFindsAreFinds};

/// An add that found no memory did nothing but move a few documents.
pub fn adds_without_memory_add_nothing()
    ensures { AddsWithoutMemoryAddNothing }
{}

/// An add that is answered by its place is in the history, with exactly the bits of its text at its column, by the treatment of its slice.
pub fn adds_are_made_with_their_bits()
    ensures { AddsAreMadeWithTheirBits }
{}

/// An add that has a slice cleared takes the first column of it.
pub fn cleared_slices_are_filled_from_the_first()
    ensures { ClearedSlicesAreFilledFromTheFirst }
{}

/// What is left of an engine tells how many events there were.
pub fn closed_engines_count_their_events()
    ensures { ClosedEnginesCountTheirEvents }
{}

/// A find that `begin_find` began and `finish_find` answered is one find of its pass.
pub fn open_finds_are_finds()
    ensures { OpenFindsAreFinds }
{}
