//! Texts of documents as JSON strings, and commits.
ghost use Rattle.std.specs.Prelude.{◌≡◌, ◌+◌, ◌≤◌, ◌<◌, ◌++◌, ◌∷◌, codes, length, take, flat_map, OnOk, OnErr, vec_len, vec_capacity};
ghost use Rattle.json.specs.Print.{escape, escape_byte, escape_letter, quoted};
ghost use Rattle.std.specs.Char.{digit_char};
ghost use Rattle.http_front.specs.Responses.{commit_body, commits_body, document_body, joined_commits, text_body};

use crate::response::push_number_between;
use funnel_model::Commit;
use std::alloc::AllocError;

/// Appends the object of a document: its number, its place and its text.
pub(crate) fn push_document(
    out: &mut Vec<u8>,
    id: u64,
    place: u64,
    text: &str,
) -> Result<(), AllocError>
    ensures ok { OnOk result (out.new.items ≡ out.old.items ++ document_body id place text.now) }
    ensures full { OnErr result (vec_capacity out.old < vec_len out.old + length (document_body id place text.now)) }
    ensures capacity { vec_capacity out.old ≤ vec_capacity out.new }
{
    push_number_between(out, b"{\"id\":", id, b",")?;
    push_text(out, place, text)
}

/// Appends the object of a text and its place alone.
pub(crate) fn push_plain_text(out: &mut Vec<u8>, place: u64, text: &str) -> Result<(), AllocError>
    ensures ok { OnOk result (out.new.items ≡ out.old.items ++ (codes "{" ++ text_body place text.now)) }
    ensures full { OnErr result (vec_capacity out.old < vec_len out.old + length (codes "{" ++ text_body place text.now)) }
    ensures capacity { vec_capacity out.old ≤ vec_capacity out.new }
{
    out.extend_from_slice(b"{")?;
    push_text(out, place, text)
}

/// Appends the members of a text and its place, and the end of their object.
fn push_text(out: &mut Vec<u8>, place: u64, text: &str) -> Result<(), AllocError>
    ensures ok { OnOk result (out.new.items ≡ out.old.items ++ text_body place text.now) }
    ensures full { OnErr result (vec_capacity out.old < vec_len out.old + length (text_body place text.now)) }
    ensures capacity { vec_capacity out.old ≤ vec_capacity out.new }
{
    push_number_between(out, b"\"place\":", place, b",\"text\":")?;
    push_quoted(out, text.as_bytes())?;
    out.extend_from_slice(b"}")
}

/// Appends a JSON string.
fn push_quoted(out: &mut Vec<u8>, text: &[u8]) -> Result<(), AllocError>
    ensures ok { OnOk result (out.new.items ≡ out.old.items ++ quoted text.now) }
    ensures full { OnErr result (vec_capacity out.old < vec_len out.old + length (quoted text.now)) }
    ensures capacity { vec_capacity out.old ≤ vec_capacity out.new }
{
    out.extend_from_slice(b"\"")?;
    push_escaped(out, text)?;
    out.extend_from_slice(b"\"")
}

/// Appends each byte as it stands in a JSON string.
fn push_escaped(out: &mut Vec<u8>, text: &[u8]) -> Result<(), AllocError>
    ensures ok { OnOk result (out.new.items ≡ out.old.items ++ escape text.now) }
    ensures full { OnErr result (vec_capacity out.old < vec_len out.old + length (escape text.now)) }
    ensures capacity { vec_capacity out.old ≤ vec_capacity out.new }
{
    for byte in text {
        push_byte(out, *byte)?;
    }
    Ok(())
}

/// Appends a byte as it stands in a JSON string.
fn push_byte(out: &mut Vec<u8>, byte: u8) -> Result<(), AllocError>
    ensures ok { OnOk result (out.new.items ≡ out.old.items ++ escape_byte byte) }
    ensures full { OnErr result (vec_capacity out.old < vec_len out.old + length (escape_byte byte)) }
    ensures capacity { vec_capacity out.old ≤ vec_capacity out.new }
{
    let (escape, len) = escape_of(byte);
    out.extend_from_slice(&escape[..len])
}

/// What stands in a JSON string for a byte: its letter where it has one, its number where it is another control, and else itself.
fn escape_of(byte: u8) -> ([u8; 6], usize)
    ensures value { take result.1 result.0 ≡ escape_byte byte }
    ensures bound { result.1 ≤ 6 }
{
    let letter = letter(byte);
    if letter > 0 {
        return ([b'\\', letter, 0, 0, 0, 0], 2);
    }
    if byte < 0x20 {
        return (
            [b'\\', b'u', b'0', b'0', digit(byte / 16), digit(byte % 16)],
            6,
        );
    }
    ([byte, 0, 0, 0, 0, 0], 1)
}

/// The letter by which a byte is written behind a backslash, or 0 where it has none.
fn letter(byte: u8) -> u8
    ensures { result ≡ escape_letter byte }
{
    match byte {
        b'"' | b'\\' => byte,
        8 => b'b',
        12 => b'f',
        b'\n' => b'n',
        b'\r' => b'r',
        b'\t' => b't',
        _ => 0,
    }
}

/// The hexadecimal digit of a number below 16.
fn digit(number: u8) -> u8
    requires { number < 16 }
    ensures { result ≡ digit_char number }
{
    if number < 10 {
        b'0' + number
    } else {
        b'a' - 10 + number
    }
}

/// Appends the object of commits.
pub(crate) fn push_commits(out: &mut Vec<u8>, commits: &[Commit]) -> Result<(), AllocError>
    ensures ok { OnOk result (out.new.items ≡ out.old.items ++ commits_body commits.now) }
    ensures full { OnErr result (vec_capacity out.old < vec_len out.old + length (commits_body commits.now)) }
    ensures capacity { vec_capacity out.old ≤ vec_capacity out.new }
{
    out.extend_from_slice(b"{\"commits\":[")?;
    push_joined_commits(out, commits)?;
    out.extend_from_slice(b"]}")
}

/// Appends the commits, with a comma between each two.
fn push_joined_commits(out: &mut Vec<u8>, commits: &[Commit]) -> Result<(), AllocError>
    ensures ok { OnOk result (out.new.items ≡ out.old.items ++ joined_commits commits.now) }
    ensures full { OnErr result (vec_capacity out.old < vec_len out.old + length (joined_commits commits.now)) }
    ensures capacity { vec_capacity out.old ≤ vec_capacity out.new }
{
    let Some((first, others)) = commits.split_first() else {
        return Ok(());
    };
    push_commit(out, first)?;
    push_later_commits(out, others)
}

/// Appends each commit after a comma.
fn push_later_commits(out: &mut Vec<u8>, commits: &[Commit]) -> Result<(), AllocError>
    ensures ok { OnOk result (out.new.items ≡ out.old.items ++ flat_map (λ other. 44 ∷ commit_body other) commits.now) }
    ensures full { OnErr result (vec_capacity out.old < vec_len out.old + length (flat_map (λ other. 44 ∷ commit_body other) commits.now)) }
    ensures capacity { vec_capacity out.old ≤ vec_capacity out.new }
{
    for commit in commits {
        push_later_commit(out, commit)?;
    }
    Ok(())
}

fn push_later_commit(out: &mut Vec<u8>, commit: &Commit) -> Result<(), AllocError>
    ensures ok { OnOk result (out.new.items ≡ out.old.items ++ (44 ∷ commit_body commit.now)) }
    ensures full { OnErr result (vec_capacity out.old < vec_len out.old + length (44 ∷ commit_body commit.now)) }
    ensures capacity { vec_capacity out.old ≤ vec_capacity out.new }
{
    out.extend_from_slice(b",")?;
    push_commit(out, commit)
}

fn push_commit(out: &mut Vec<u8>, commit: &Commit) -> Result<(), AllocError>
    ensures ok { OnOk result (out.new.items ≡ out.old.items ++ commit_body commit.now) }
    ensures full { OnErr result (vec_capacity out.old < vec_len out.old + length (commit_body commit.now)) }
    ensures capacity { vec_capacity out.old ≤ vec_capacity out.new }
{
    if commit.add {
        push_number_between(out, b"{\"add\":", commit.id, b"}")
    } else {
        push_number_between(out, b"{\"del\":", commit.id, b"}")
    }
}
