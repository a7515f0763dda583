//! What C calls. Each takes the index out of its handle, makes the call, and puts the index back.
ghost use Rattle.std.specs.Prelude.{◌≡◌};
ghost use Rattle.funnel_c.specs.Calls.{Adds, Closes, CopiesBytes, CopiesIds, Counts, Deletes, Finds, Gets, IfOpen, IfText, KeepsNewest, KeepsOldest, Opens, Puts, Queries, Reads, Stays, TellsNumbers, TellsPlace, became};
ghost use Rattle.funnel_c.specs.Codes.{number_of};
ghost use Rattle.funnel_c.specs.Fitting.{FitsIndex};

use crate::code::Code;
use crate::handle::Handle;
use crate::index::Index;
use crate::numbers::Numbers;
use crate::reading::copy_kept;
use std::alloc::Global;

/// Makes an index by a configuration of these bytes. Where they are none, its fault is told by its number.
#[unsafe(no_mangle)]
pub extern "C" fn funnel_open(
    handle: &mut Handle,
    alloc: Global,
    config: &[u8],
    fault: &mut u64,
) -> u32
    ensures { (told : Code) × (result ≡ number_of told) × Opens handle.old.index handle.new.index config.now told (became fault.old fault.new) }
{
    if let Some(index) = handle.take(alloc) {
        handle.put(index);
        return Code::Open.number();
    }
    match Index::open(alloc, config, fault) {
        Ok(index) => {
            handle.put(index);
            Code::Done.number()
        }
        Err(code) => code.number(),
    }
}

/// Frees the index.
#[unsafe(no_mangle)]
pub extern "C" fn funnel_close(handle: &mut Handle, alloc: Global) -> u32
    ensures { Closes handle.old.index handle.new.index result }
{
    let Some(index) = handle.take(alloc) else {
        return Code::Closed.number();
    };
    drop(index);
    Code::Done.number()
}

/// Adds a document, and tells the place of the add, or that of the live document with its number.
#[unsafe(no_mangle)]
pub extern "C" fn funnel_add(
    handle: &mut Handle,
    alloc: Global,
    id: u64,
    text: &[u8],
    place: &mut u64,
) -> u32
    ensures { IfOpen handle.old.index handle.new.index result (Stays (became place.old place.new)) (λ before after code.
        IfText text.now before after code (Stays (became place.old place.new)) (Adds id text.now before after code (became place.old place.new))) }
{
    let Some(mut index) = handle.take(alloc) else {
        return Code::Closed.number();
    };
    let code = index.add(alloc, id, text, place);
    handle.put(index);
    code.number()
}

/// Adds a document, in the place of the live one with its number where there is one. Tells the place of the add, and how many documents it
/// replaced.
#[unsafe(no_mangle)]
pub extern "C" fn funnel_put(
    handle: &mut Handle,
    alloc: Global,
    id: u64,
    text: &[u8],
    place: &mut u64,
    replaced: &mut u64,
) -> u32
    ensures { IfOpen handle.old.index handle.new.index result (Stays (became place.old place.new) × Stays (became replaced.old replaced.new)) (λ before after code.
        IfText text.now before after code (Stays (became place.old place.new) × Stays (became replaced.old replaced.new)) (Puts id text.now before after code (became place.old place.new) (became replaced.old replaced.new))) }
{
    let Some(mut index) = handle.take(alloc) else {
        return Code::Closed.number();
    };
    let code = index.put(alloc, id, text, place, replaced);
    handle.put(index);
    code.number()
}

/// Deletes the live document with this number, and tells the place of the delete.
#[unsafe(no_mangle)]
pub extern "C" fn funnel_delete(handle: &mut Handle, alloc: Global, id: u64, place: &mut u64) -> u32
    ensures { IfOpen handle.old.index handle.new.index result (Stays (became place.old place.new)) (λ before after code.
        Deletes id before after code (became place.old place.new)) }
{
    let Some(mut index) = handle.take(alloc) else {
        return Code::Closed.number();
    };
    let code = index.delete(id, place);
    handle.put(index);
    code.number()
}

/// Keeps the text of the live document with this number, and tells the place of its add and how many bytes it has.
#[unsafe(no_mangle)]
pub extern "C" fn funnel_get(
    handle: &mut Handle,
    alloc: Global,
    id: u64,
    place: &mut u64,
    count: &mut u64,
) -> u32
    ensures { IfOpen handle.old.index handle.new.index result (Stays (became place.old place.new) × Stays (became count.old count.new)) (λ before after code.
        Gets id before after code (became place.old place.new) (became count.old count.new)) }
{
    let Some(mut index) = handle.take(alloc) else {
        return Code::Closed.number();
    };
    let code = index.get(alloc, id, place, count);
    handle.put(index);
    code.number()
}

/// Keeps the numbers of the live documents that have every word of the query, and tells how many these are.
#[unsafe(no_mangle)]
pub extern "C" fn funnel_find(
    handle: &mut Handle,
    alloc: Global,
    query: &[u8],
    count: &mut u64,
) -> u32
    ensures { IfOpen handle.old.index handle.new.index result (Stays (became count.old count.new)) (λ before after code.
        IfText query.now before after code (Stays (became count.old count.new)) (Finds query.now before after code (became count.old count.new))) }
{
    let Some(mut index) = handle.take(alloc) else {
        return Code::Closed.number();
    };
    let code = index.find(alloc, query, count);
    handle.put(index);
    code.number()
}

/// Keeps the numbers of the live documents that the expression keeps, and tells how many these are, or at which byte it is none.
#[unsafe(no_mangle)]
pub extern "C" fn funnel_query(
    handle: &mut Handle,
    alloc: Global,
    text: &[u8],
    count: &mut u64,
) -> u32
    ensures { IfOpen handle.old.index handle.new.index result (Stays (became count.old count.new)) (λ before after code.
        IfText text.now before after code (Stays (became count.old count.new)) (Queries text.now before after code (became count.old count.new))) }
{
    let Some(mut index) = handle.take(alloc) else {
        return Code::Closed.number();
    };
    let code = index.query(alloc, text, count);
    handle.put(index);
    code.number()
}

/// Tells how many live documents have every word of the text, or are kept by it as an expression.
#[unsafe(no_mangle)]
pub extern "C" fn funnel_count(
    handle: &mut Handle,
    alloc: Global,
    words: bool,
    text: &[u8],
    count: &mut u64,
) -> u32
    ensures { IfOpen handle.old.index handle.new.index result (Stays (became count.old count.new)) (λ before after code.
        IfText text.now before after code (Stays (became count.old count.new)) (Counts words text.now before after code (became count.old count.new))) }
{
    let Some(mut index) = handle.take(alloc) else {
        return Code::Closed.number();
    };
    let code = index.count(alloc, words, text, count);
    handle.put(index);
    code.number()
}

/// Keeps the numbers of at most so many of those that were added last, the newest first, and tells how many there are of all.
#[unsafe(no_mangle)]
pub extern "C" fn funnel_newest(
    handle: &mut Handle,
    alloc: Global,
    most: u64,
    words: bool,
    text: &[u8],
    count: &mut u64,
) -> u32
    ensures { IfOpen handle.old.index handle.new.index result (Stays (became count.old count.new)) (λ before after code.
        IfText text.now before after code (Stays (became count.old count.new)) (KeepsNewest most words text.now before after code (became count.old count.new))) }
{
    let Some(mut index) = handle.take(alloc) else {
        return Code::Closed.number();
    };
    let code = index.newest(alloc, most, words, text, count);
    handle.put(index);
    code.number()
}

/// Keeps the numbers of at most so many of those that were added first, the oldest first, and tells how many there are of all.
#[unsafe(no_mangle)]
pub extern "C" fn funnel_oldest(
    handle: &mut Handle,
    alloc: Global,
    most: u64,
    words: bool,
    text: &[u8],
    count: &mut u64,
) -> u32
    ensures { IfOpen handle.old.index handle.new.index result (Stays (became count.old count.new)) (λ before after code.
        IfText text.now before after code (Stays (became count.old count.new)) (KeepsOldest most words text.now before after code (became count.old count.new))) }
{
    let Some(mut index) = handle.take(alloc) else {
        return Code::Closed.number();
    };
    let code = index.oldest(alloc, most, words, text, count);
    handle.put(index);
    code.number()
}

/// Tells the number of commits so far.
#[unsafe(no_mangle)]
pub extern "C" fn funnel_place(handle: &mut Handle, alloc: Global, place: &mut u64) -> u32
    ensures { IfOpen handle.old.index handle.new.index result (Stays (became place.old place.new)) (λ before after code.
        TellsPlace before after code (became place.old place.new)) }
{
    let Some(mut index) = handle.take(alloc) else {
        return Code::Closed.number();
    };
    let code = index.place(place);
    handle.put(index);
    code.number()
}

/// Keeps the commits after the first so many: the numbers of their documents, and a plus or a minus for each. Tells how many these are, or how
/// many commits are no longer kept where one of those is asked for.
#[unsafe(no_mangle)]
pub extern "C" fn funnel_journal(
    handle: &mut Handle,
    alloc: Global,
    from: u64,
    count: &mut u64,
) -> u32
    ensures { IfOpen handle.old.index handle.new.index result (Stays (became count.old count.new)) (λ before after code.
        Reads from before after code (became count.old count.new)) }
{
    let Some(mut index) = handle.take(alloc) else {
        return Code::Closed.number();
    };
    let code = index.journal(alloc, from, count);
    handle.put(index);
    code.number()
}

/// Tells how full the index is.
#[unsafe(no_mangle)]
pub extern "C" fn funnel_stats(handle: &mut Handle, alloc: Global, numbers: &mut Numbers) -> u32
    ensures { IfOpen handle.old.index handle.new.index result (Stays (became numbers.old numbers.new)) (λ before after code.
        TellsNumbers before after code (became numbers.old numbers.new)) }
{
    let Some(mut index) = handle.take(alloc) else {
        return Code::Closed.number();
    };
    let code = index.stats(numbers);
    handle.put(index);
    code.number()
}

/// Keeps the bytes of the configuration for so many documents that is fitted to the texts of these add lines, and tells how many bytes it has, or
/// by a number why none is.
#[unsafe(no_mangle)]
pub extern "C" fn funnel_fit(
    handle: &mut Handle,
    alloc: Global,
    documents: u64,
    lines: &[u8],
    count: &mut u64,
) -> u32
    ensures { IfOpen handle.old.index handle.new.index result (Stays (became count.old count.new)) (λ before after code.
        FitsIndex documents lines.now before after code (became count.old count.new)) }
{
    let Some(mut index) = handle.take(alloc) else {
        return Code::Closed.number();
    };
    let code = index.fit(alloc, documents, lines, count);
    handle.put(index);
    code.number()
}

/// Copies the numbers that are kept, from this place on, as far as there is room for them.
#[unsafe(no_mangle)]
pub extern "C" fn funnel_ids(
    handle: &mut Handle,
    alloc: Global,
    room: &mut [u64],
    from: usize,
) -> u32
    ensures { IfOpen handle.old.index handle.new.index result (Stays (became room.old room.new)) (λ before after code.
        CopiesIds from before after code (became room.old room.new)) }
{
    let Some(index) = handle.take(alloc) else {
        return Code::Closed.number();
    };
    copy_kept(index.ids.as_slice(), room, from);
    handle.put(index);
    Code::Done.number()
}

/// Copies the bytes that are kept, from this place on, as far as there is room for them.
#[unsafe(no_mangle)]
pub extern "C" fn funnel_bytes(
    handle: &mut Handle,
    alloc: Global,
    room: &mut [u8],
    from: usize,
) -> u32
    ensures { IfOpen handle.old.index handle.new.index result (Stays (became room.old room.new)) (λ before after code.
        CopiesBytes from before after code (became room.old room.new)) }
{
    let Some(index) = handle.take(alloc) else {
        return Code::Closed.number();
    };
    copy_kept(index.bytes.as_slice(), room, from);
    handle.put(index);
    Code::Done.number()
}
