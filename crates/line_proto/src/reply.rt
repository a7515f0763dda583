ghost use Rattle.std.specs.Prelude.{◌≡◌, ◌+◌, ◌≤◌, ◌<◌, ◌∷◌, ◌++◌, false, length, codes, decimal, OnOk, OnErr, IsOk, flat_map, vec_len, vec_capacity};
ghost use Rattle.line_proto.specs.Texts.{text_of, message_of, spaced, counted_ids, counted_commits, signed, has_newline, kept_numbers, room_numbers, is_list};
ghost use Rattle.funnel_model.specs.declared.reply.Reply.TheVariants as reply;

use funnel_model::{Commit, Memory, Reply, Stats};
use itoa::Buffer;
use std::alloc::AllocError;

/// Sets `out` to the reply's line, with its newline. It takes memory only where `out` has no room for the line;
/// where it finds none, what stands in `out` is no reply.
pub fn reply_text(reply: &Reply, out: &mut Vec<u8>) -> Result<(), Memory>
    ensures ok { OnOk result (out.new.items ≡ text_of reply.now) }
    ensures full { OnErr result (vec_capacity out.old < length (text_of reply.now)) }
    // Each line but a list of numbers or commits, or a text, has room in 256 bytes.
    ensures room { is_list reply.now ≡ false → 256 ≤ vec_capacity out.old → IsOk result }
    ensures capacity { vec_capacity out.old ≤ vec_capacity out.new }
{
    out.clear();
    push_line(out, reply)?;
    Ok(())
}

fn push_line(out: &mut Vec<u8>, reply: &Reply) -> Result<(), AllocError>
    ensures ok { OnOk result (out.new.items ≡ out.old.items ++ text_of reply.now) }
    ensures full { OnErr result (vec_capacity out.old < vec_len out.old + length (text_of reply.now)) }
    ensures short { is_list reply.now ≡ false → length (text_of reply.now) ≤ 256 }
    ensures capacity { vec_capacity out.old ≤ vec_capacity out.new }
{
    push_message(out, reply)?;
    out.extend_from_slice(b"\n")
}

fn push_message(out: &mut Vec<u8>, reply: &Reply) -> Result<(), AllocError>
    ensures ok { OnOk result (out.new.items ≡ out.old.items ++ message_of reply.now) }
    ensures full { OnErr result (vec_capacity out.old < vec_len out.old + length (message_of reply.now)) }
    ensures short { is_list reply.now ≡ false → length (message_of reply.now) < 256 }
    ensures capacity { vec_capacity out.old ≤ vec_capacity out.new }
{
    match reply {
        Reply::Added(place) => push_words_and_number(out, b"added ", *place),
        Reply::Replaced(place) => push_words_and_number(out, b"replaced ", *place),
        Reply::Present(place) => push_words_and_number(out, b"refused present ", *place),
        Reply::Full => out.extend_from_slice(b"refused full"),
        Reply::Deleted(place) => push_words_and_number(out, b"deleted ", *place),
        Reply::Absent => out.extend_from_slice(b"refused absent"),
        Reply::Found(ids) => push_words_and_list(out, b"found ", ids.as_slice()),
        Reply::Count(count) => push_words_and_number(out, b"count ", *count),
        Reply::FoundSome { count, ids } => push_some(out, *count, ids.as_slice()),
        Reply::Text { place, text } => push_text(out, *place, text.as_str()),
        Reply::Place(place) => push_words_and_number(out, b"place ", *place),
        Reply::Commits(commits) => push_words_and_commits(out, b"commits ", commits.as_slice()),
        Reply::Trimmed(base) => push_words_and_number(out, b"refused trimmed ", *base),
        Reply::Stats(stats) => push_stats(out, stats),
        Reply::Recycled(slice) => push_words_and_number(out, b"recycled ", u64::from(*slice)),
        Reply::NothingRetired => out.extend_from_slice(b"nothing retired"),
        Reply::Guarded { slice, pass } => push_guarded(out, *slice, *pass),
        Reply::Tuned(count) => push_words_and_number(out, b"tuned ", *count),
        Reply::Tuning(fault) => push_words_and_number(out, b"refused tuning ", u64::from(*fault)),
        Reply::Wide { needed, room } => push_wide(out, *needed, *room),
        Reply::Query(at) => push_words_and_number(out, b"refused query ", *at),
        Reply::Deep(at) => push_words_and_number(out, b"refused deep ", *at),
        Reply::Spent => out.extend_from_slice(b"refused spent"),
        Reply::Memory => out.extend_from_slice(b"refused memory"),
        Reply::Line => out.extend_from_slice(b"refused line"),
        Reply::Long => out.extend_from_slice(b"refused long"),
    }
}

/// Appends the slice and its guard.
fn push_guarded(out: &mut Vec<u8>, slice: u32, pass: u32) -> Result<(), AllocError>
    ensures ok { OnOk result (out.new.items ≡ out.old.items ++ message_of (reply.Guarded slice pass)) }
    ensures full { OnErr result (vec_capacity out.old < vec_len out.old + length (message_of (reply.Guarded slice pass))) }
    ensures short { length (message_of (reply.Guarded slice pass)) < 64 }
    ensures capacity { vec_capacity out.old ≤ vec_capacity out.new }
{
    push_words_and_number(out, b"guarded ", u64::from(slice))?;
    push_words_and_number(out, b" ", u64::from(pass))
}

/// Appends the words that a slice would need, and those that it has room for.
fn push_wide(out: &mut Vec<u8>, needed: u64, room: u64) -> Result<(), AllocError>
    ensures ok { OnOk result (out.new.items ≡ out.old.items ++ message_of (reply.Wide needed room)) }
    ensures full { OnErr result (vec_capacity out.old < vec_len out.old + length (message_of (reply.Wide needed room))) }
    ensures short { length (message_of (reply.Wide needed room)) < 64 }
    ensures capacity { vec_capacity out.old ≤ vec_capacity out.new }
{
    push_words_and_number(out, b"refused room ", needed)?;
    push_words_and_number(out, b" ", room)
}

/// Appends how many documents were found, and the numbers of some of them, each after a space.
fn push_some(out: &mut Vec<u8>, count: u64, ids: &[u64]) -> Result<(), AllocError>
    ensures ok { OnOk result (out.new.items ≡ out.old.items ++ message_of (reply.FoundSome count ids.now)) }
    ensures full { OnErr result (vec_capacity out.old < vec_len out.old + length (message_of (reply.FoundSome count ids.now))) }
    ensures capacity { vec_capacity out.old ≤ vec_capacity out.new }
{
    push_words_and_number(out, b"found ", count)?;
    push_spaced(out, ids)
}

/// Appends the place and the text of a document, or a refusal where the text has a newline, which would end the line.
fn push_text(out: &mut Vec<u8>, place: u64, text: &str) -> Result<(), AllocError>
    ensures ok { OnOk result (out.new.items ≡ out.old.items ++ message_of (reply.Text place text.now)) }
    ensures full { OnErr result (vec_capacity out.old < vec_len out.old + length (message_of (reply.Text place text.now))) }
    ensures capacity { vec_capacity out.old ≤ vec_capacity out.new }
{
    if has_newline(text) {
        return out.extend_from_slice(b"refused text");
    }
    push_placed(out, place, text)
}

/// Appends the place and the text of a document.
fn push_placed(out: &mut Vec<u8>, place: u64, text: &str) -> Result<(), AllocError>
    ensures ok { OnOk result (out.new.items ≡ out.old.items ++ (codes "text " ++ (decimal place ++ 32 ∷ text.now))) }
    ensures full { OnErr result (vec_capacity out.old < vec_len out.old + length (codes "text " ++ (decimal place ++ 32 ∷ text.now))) }
    ensures capacity { vec_capacity out.old ≤ vec_capacity out.new }
{
    push_words_and_number(out, b"text ", place)?;
    out.extend_from_slice(b" ")?;
    out.extend_from_slice(text.as_bytes())
}

fn has_newline(text: &str) -> bool
    ensures { result ≡ has_newline text.now }
{
    text.as_bytes().contains(&b'\n')
}

/// Appends the numbers of the engine, each after its word.
fn push_stats(out: &mut Vec<u8>, stats: &Stats) -> Result<(), AllocError>
    ensures ok { OnOk result (out.new.items ≡ out.old.items ++ message_of (reply.Stats stats.now)) }
    ensures full { OnErr result (vec_capacity out.old < vec_len out.old + length (message_of (reply.Stats stats.now))) }
    ensures short { length (message_of (reply.Stats stats.now)) < 256 }
    ensures capacity { vec_capacity out.old ≤ vec_capacity out.new }
{
    let Stats {
        documents,
        place,
        base,
        columns,
        free,
        retired,
        finds,
    } = *stats;
    push_kept(out, documents, place, base)?;
    push_room(out, columns, free, retired, finds)
}

/// Appends how many documents and commits there are.
fn push_kept(out: &mut Vec<u8>, documents: u64, place: u64, base: u64) -> Result<(), AllocError>
    ensures ok { OnOk result (out.new.items ≡ out.old.items ++ kept_numbers documents place base) }
    ensures full { OnErr result (vec_capacity out.old < vec_len out.old + length (kept_numbers documents place base)) }
    ensures short { length (kept_numbers documents place base) ≤ 96 }
    ensures capacity { vec_capacity out.old ≤ vec_capacity out.new }
{
    push_words_and_number(out, b"stats documents ", documents)?;
    push_words_and_number(out, b" place ", place)?;
    push_words_and_number(out, b" base ", base)
}

/// Appends how much room there is, and what uses it.
fn push_room(
    out: &mut Vec<u8>,
    columns: u64,
    free: u64,
    retired: u64,
    finds: u64,
) -> Result<(), AllocError>
    ensures ok { OnOk result (out.new.items ≡ out.old.items ++ room_numbers columns free retired finds) }
    ensures full { OnErr result (vec_capacity out.old < vec_len out.old + length (room_numbers columns free retired finds)) }
    ensures short { length (room_numbers columns free retired finds) ≤ 128 }
    ensures capacity { vec_capacity out.old ≤ vec_capacity out.new }
{
    push_words_and_number(out, b" columns ", columns)?;
    push_words_and_number(out, b" free ", free)?;
    push_words_and_number(out, b" retired ", retired)?;
    push_words_and_number(out, b" finds ", finds)
}

fn push_words_and_number(out: &mut Vec<u8>, words: &[u8], number: u64) -> Result<(), AllocError>
    ensures ok { OnOk result (out.new.items ≡ out.old.items ++ (words.now ++ decimal number)) }
    ensures full { OnErr result (vec_capacity out.old < vec_len out.old + length (words.now ++ decimal number)) }
    ensures digits { length (decimal number) ≤ 20 }
    ensures capacity { vec_capacity out.old ≤ vec_capacity out.new }
{
    out.extend_from_slice(words)?;
    push_number(out, number)
}

/// Appends the words, the number of ids, and each of them after a space.
fn push_words_and_list(out: &mut Vec<u8>, words: &[u8], ids: &[u64]) -> Result<(), AllocError>
    ensures ok { OnOk result (out.new.items ≡ out.old.items ++ (words.now ++ counted_ids ids.now)) }
    ensures full { OnErr result (vec_capacity out.old < vec_len out.old + length (words.now ++ counted_ids ids.now)) }
    ensures capacity { vec_capacity out.old ≤ vec_capacity out.new }
{
    push_words_and_number(out, words, ids.len() as u64)?;
    push_spaced(out, ids)
}

/// Appends the words, the number of commits, and each of them after a space.
fn push_words_and_commits(
    out: &mut Vec<u8>,
    words: &[u8],
    commits: &[Commit],
) -> Result<(), AllocError>
    ensures ok { OnOk result (out.new.items ≡ out.old.items ++ (words.now ++ counted_commits commits.now)) }
    ensures full { OnErr result (vec_capacity out.old < vec_len out.old + length (words.now ++ counted_commits commits.now)) }
    ensures capacity { vec_capacity out.old ≤ vec_capacity out.new }
{
    push_words_and_number(out, words, commits.len() as u64)?;
    push_signed(out, commits)
}

/// Appends each commit after a space.
fn push_signed(out: &mut Vec<u8>, commits: &[Commit]) -> Result<(), AllocError>
    ensures ok { OnOk result (out.new.items ≡ out.old.items ++ flat_map signed commits.now) }
    ensures full { OnErr result (vec_capacity out.old < vec_len out.old + length (flat_map signed commits.now)) }
    ensures capacity { vec_capacity out.old ≤ vec_capacity out.new }
{
    for commit in commits {
        push_commit(out, commit)?;
    }
    Ok(())
}

fn push_commit(out: &mut Vec<u8>, commit: &Commit) -> Result<(), AllocError>
    ensures ok { OnOk result (out.new.items ≡ out.old.items ++ signed commit.now) }
    ensures full { OnErr result (vec_capacity out.old < vec_len out.old + length (signed commit.now)) }
    ensures capacity { vec_capacity out.old ≤ vec_capacity out.new }
{
    if commit.add {
        push_words_and_number(out, b" +", commit.id)
    } else {
        push_words_and_number(out, b" -", commit.id)
    }
}

/// Appends each number after a space.
fn push_spaced(out: &mut Vec<u8>, ids: &[u64]) -> Result<(), AllocError>
    ensures ok { OnOk result (out.new.items ≡ out.old.items ++ spaced ids.now) }
    ensures full { OnErr result (vec_capacity out.old < vec_len out.old + length (spaced ids.now)) }
    ensures capacity { vec_capacity out.old ≤ vec_capacity out.new }
{
    for id in ids {
        push_words_and_number(out, b" ", *id)?;
    }
    Ok(())
}

fn push_number(out: &mut Vec<u8>, number: u64) -> Result<(), AllocError>
    ensures ok { OnOk result (out.new.items ≡ out.old.items ++ decimal number) }
    ensures full { OnErr result (vec_capacity out.old < vec_len out.old + length (decimal number)) }
    ensures digits { length (decimal number) ≤ 20 }
    ensures capacity { vec_capacity out.old ≤ vec_capacity out.new }
{
    let mut buffer = Buffer::new();
    out.extend_from_slice(buffer.format(number).as_bytes())
}
