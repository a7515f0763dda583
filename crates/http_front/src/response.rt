ghost use Rattle.std.specs.Prelude.{◌≡◌, ◌+◌, ◌≤◌, ◌<◌, ◌++◌, ◌∷◌, false, length, decimal, map, OnOk, OnErr, IsOk, vec_len, vec_capacity};
ghost use Rattle.line_proto.specs.Texts.{is_list};
ghost use Rattle.http_front.specs.declared.outcome.Shape.TheVariants.{Document, Metrics};
ghost use Rattle.http_front.specs.Responses.{after_commas, body_in_shape, body_of, body_of_reply, end_of_head, error_body, fault_body, ids_body, is_long, joined};
ghost use Rattle.http_front.specs.Responses.{kind_of, kind_of_reply, number_body, response, some_body, start_of_head, status_of, status_of_cause, status_of_reply, text_of, word_of_cause};
ghost use Rattle.http_front.specs.Steps.{IsRendered};

use crate::cause::Cause;
use crate::measures::{push_metrics, push_stats};
use crate::outcome::{Outcome, Shape};
use crate::texts::{push_commits, push_document, push_plain_text};
use funnel_model::Reply;
use itoa::Buffer;
use std::alloc::AllocError;

/// The room that a response needs, and its body, where it is no list and no text.
pub(crate) const TEXT_ROOM: usize = 2048;

/// Sets `text` to the response, or to that of a want of memory where none is found for a list.
pub(crate) fn render(told: &Outcome, closing: bool, body: &mut Vec<u8>, text: &mut Vec<u8>)
    requires body { TEXT_ROOM ≤ vec_capacity body.old }
    requires text { TEXT_ROOM ≤ vec_capacity text.old }
    ensures text { IsRendered closing told.now text.new.items }
    // A want of memory is told only where the body, or the response, has more bytes than there was room for.
    ensures enough { length (body_of told.now) ≤ vec_capacity body.old → length (text_of closing told.now) ≤ vec_capacity text.old
        → text.new.items ≡ text_of closing told.now }
    ensures body_room { TEXT_ROOM ≤ vec_capacity body.new }
    ensures text_room { TEXT_ROOM ≤ vec_capacity text.new }
{
    if write_response(told, closing, body, text).is_ok() {
        return;
    }
    if write_response(
        &Outcome::Replied(Shape::Object, Reply::Memory),
        closing,
        body,
        text,
    )
    .is_err()
    {
        unreachable!()
    }
}

/// Sets `text` to the response, and `body` to its body. Where no memory is found, what stands in them is no response.
fn write_response(
    told: &Outcome,
    closing: bool,
    body: &mut Vec<u8>,
    text: &mut Vec<u8>,
) -> Result<(), AllocError>
    ensures ok { OnOk result (text.new.items ≡ text_of closing told.now) }
    ensures enough { length (body_of told.now) ≤ vec_capacity body.old → length (text_of closing told.now) ≤ vec_capacity text.old → IsOk result }
    ensures room { is_long told.now ≡ false → TEXT_ROOM ≤ vec_capacity body.old → TEXT_ROOM ≤ vec_capacity text.old → IsOk result }
    ensures body_capacity { vec_capacity body.old ≤ vec_capacity body.new }
    ensures text_capacity { vec_capacity text.old ≤ vec_capacity text.new }
{
    body.clear();
    push_body(body, told)?;
    text.clear();
    push_response(text, closing, status(told), kind(told), body.as_slice())
}

/// The status of a response, with its reason.
fn status(told: &Outcome) -> &'static [u8]
    ensures value { result.now ≡ status_of told.now }
    ensures short { length result.now ≤ 24 }
{
    match told {
        Outcome::Replied(_, reply) => status_of_reply(reply),
        Outcome::Refused(Cause::Route) => b"404 Not Found",
        Outcome::Refused(Cause::Coding) => b"501 Not Implemented",
        Outcome::Refused(Cause::Long) => b"413 Content Too Large",
        Outcome::Refused(_) => b"400 Bad Request",
    }
}

/// The status of a reply.
fn status_of_reply(reply: &Reply) -> &'static [u8]
    ensures value { result.now ≡ status_of_reply reply.now }
    ensures short { length result.now ≤ 24 }
{
    match reply {
        Reply::Added(_) => b"201 Created",
        Reply::Absent => b"404 Not Found",
        Reply::Trimmed(_) => b"410 Gone",
        Reply::Tuning(_) | Reply::Query(_) | Reply::Deep(_) => b"400 Bad Request",
        Reply::Present(_) | Reply::NothingRetired | Reply::Guarded { .. } | Reply::Wide { .. } => {
            b"409 Conflict"
        }
        Reply::Full | Reply::Spent | Reply::Memory | Reply::Line | Reply::Long => {
            b"503 Service Unavailable"
        }
        Reply::Replaced(_)
        | Reply::Deleted(_)
        | Reply::Found(_)
        | Reply::Count(_)
        | Reply::FoundSome { .. }
        | Reply::Text { .. }
        | Reply::Place(_)
        | Reply::Commits(_)
        | Reply::Stats(_)
        | Reply::Recycled(_)
        | Reply::Tuned(_) => b"200 OK",
    }
}

/// Of which kind the body of a response is.
fn kind(told: &Outcome) -> &'static [u8]
    ensures value { result.now ≡ kind_of told.now }
    ensures short { length result.now ≤ 25 }
{
    match told {
        Outcome::Replied(shape, reply) => kind_of_reply(*shape, reply),
        Outcome::Refused(_) => b"application/json",
    }
}

/// Of which kind the body of a reply is.
fn kind_of_reply(shape: Shape, reply: &Reply) -> &'static [u8]
    ensures value { result.now ≡ kind_of_reply shape reply.now }
    ensures short { length result.now ≤ 25 }
{
    match shape {
        Shape::Object | Shape::Document(_) => b"application/json",
        Shape::Metrics => kind_of_metrics(reply),
    }
}

/// Of which kind the body of a reply is where metrics are asked for.
fn kind_of_metrics(reply: &Reply) -> &'static [u8]
    ensures value { result.now ≡ kind_of_reply Metrics reply.now }
    ensures short { length result.now ≤ 25 }
{
    match reply {
        Reply::Stats(_) => b"text/plain; version=0.0.4",
        _ => b"application/json",
    }
}

/// Appends a response: its status line, its fields, and its body with its length.
fn push_response(
    out: &mut Vec<u8>,
    closing: bool,
    status: &[u8],
    kind: &[u8],
    body: &[u8],
) -> Result<(), AllocError>
    ensures ok { OnOk result (out.new.items ≡ out.old.items ++ response closing status.now kind.now body.now) }
    ensures full { OnErr result (vec_capacity out.old < vec_len out.old + length (response closing status.now kind.now body.now)) }
    ensures capacity { vec_capacity out.old ≤ vec_capacity out.new }
{
    push_start(out, status, kind)?;
    push_number(out, body.len() as u64)?;
    push_rest(out, closing, body)
}

/// Appends the status line and the fields up to the number of the body's length.
fn push_start(out: &mut Vec<u8>, status: &[u8], kind: &[u8]) -> Result<(), AllocError>
    ensures ok { OnOk result (out.new.items ≡ out.old.items ++ start_of_head status.now kind.now) }
    ensures full { OnErr result (vec_capacity out.old < vec_len out.old + length (start_of_head status.now kind.now)) }
    ensures capacity { vec_capacity out.old ≤ vec_capacity out.new }
{
    out.extend_from_slice(b"HTTP/1.1 ")?;
    out.extend_from_slice(status)?;
    out.extend_from_slice(b"\r\nContent-Type: ")?;
    out.extend_from_slice(kind)?;
    out.extend_from_slice(b"\r\nContent-Length: ")
}

/// Appends what follows that number.
fn push_rest(out: &mut Vec<u8>, closing: bool, body: &[u8]) -> Result<(), AllocError>
    ensures ok { OnOk result (out.new.items ≡ out.old.items ++ (end_of_head closing ++ body.now)) }
    ensures full { OnErr result (vec_capacity out.old < vec_len out.old + length (end_of_head closing ++ body.now)) }
    ensures capacity { vec_capacity out.old ≤ vec_capacity out.new }
{
    out.extend_from_slice(end_of_head(closing))?;
    out.extend_from_slice(body)
}

/// What ends a head.
fn end_of_head(closing: bool) -> &'static [u8]
    ensures { result.now ≡ end_of_head closing }
{
    if closing {
        b"\r\nConnection: close\r\n\r\n"
    } else {
        b"\r\n\r\n"
    }
}

/// Appends the body of a response.
fn push_body(out: &mut Vec<u8>, told: &Outcome) -> Result<(), AllocError>
    ensures ok { OnOk result (out.new.items ≡ out.old.items ++ body_of told.now) }
    ensures full { OnErr result (vec_capacity out.old < vec_len out.old + length (body_of told.now)) }
    ensures short { is_long told.now ≡ false → length (body_of told.now) ≤ 1024 }
    ensures capacity { vec_capacity out.old ≤ vec_capacity out.new }
{
    match told {
        Outcome::Replied(shape, reply) => push_in_shape(out, *shape, reply),
        Outcome::Refused(cause) => push_error(out, word(*cause)),
    }
}

/// The word of a refusal.
fn word(cause: Cause) -> &'static [u8]
    ensures value { result.now ≡ word_of_cause cause }
    ensures short { length result.now ≤ 6 }
{
    match cause {
        Cause::Head => b"head",
        Cause::Coding => b"coding",
        Cause::Length => b"length",
        Cause::Long => b"long",
        Cause::Route => b"route",
        Cause::Body | Cause::Text => b"body",
        Cause::Query => b"query",
    }
}

/// Appends the body that tells a reply in a shape.
fn push_in_shape(out: &mut Vec<u8>, shape: Shape, reply: &Reply) -> Result<(), AllocError>
    ensures short { is_list reply.now ≡ false → length (body_in_shape shape reply.now) ≤ 1024 }
    ensures ok { OnOk result (out.new.items ≡ out.old.items ++ body_in_shape shape reply.now) }
    ensures full { OnErr result (vec_capacity out.old < vec_len out.old + length (body_in_shape shape reply.now)) }
    ensures capacity { vec_capacity out.old ≤ vec_capacity out.new }
{
    match shape {
        Shape::Object => push_reply(out, reply),
        Shape::Document(id) => push_document_reply(out, id, reply),
        Shape::Metrics => push_metrics_reply(out, reply),
    }
}

/// Appends the body that tells the reply to a get of this number.
fn push_document_reply(out: &mut Vec<u8>, id: u64, reply: &Reply) -> Result<(), AllocError>
    ensures short { is_list reply.now ≡ false → length (body_in_shape (Document id) reply.now) ≤ 256 }
    ensures ok { OnOk result (out.new.items ≡ out.old.items ++ body_in_shape (Document id) reply.now) }
    ensures full { OnErr result (vec_capacity out.old < vec_len out.old + length (body_in_shape (Document id) reply.now)) }
    ensures capacity { vec_capacity out.old ≤ vec_capacity out.new }
{
    match reply {
        Reply::Text { place, text } => push_document(out, id, *place, text.as_str()),
        _ => push_reply(out, reply),
    }
}

/// Appends the body that tells the reply where metrics are asked for.
fn push_metrics_reply(out: &mut Vec<u8>, reply: &Reply) -> Result<(), AllocError>
    ensures short { is_list reply.now ≡ false → length (body_in_shape Metrics reply.now) ≤ 1024 }
    ensures ok { OnOk result (out.new.items ≡ out.old.items ++ body_in_shape Metrics reply.now) }
    ensures full { OnErr result (vec_capacity out.old < vec_len out.old + length (body_in_shape Metrics reply.now)) }
    ensures capacity { vec_capacity out.old ≤ vec_capacity out.new }
{
    match reply {
        Reply::Stats(stats) => push_metrics(out, stats),
        _ => push_reply(out, reply),
    }
}

/// Appends the object that tells a reply.
fn push_reply(out: &mut Vec<u8>, reply: &Reply) -> Result<(), AllocError>
    ensures short { is_list reply.now ≡ false → length (body_of_reply reply.now) ≤ 256 }
    ensures ok { OnOk result (out.new.items ≡ out.old.items ++ body_of_reply reply.now) }
    ensures full { OnErr result (vec_capacity out.old < vec_len out.old + length (body_of_reply reply.now)) }
    ensures capacity { vec_capacity out.old ≤ vec_capacity out.new }
{
    match reply {
        Reply::Added(place)
        | Reply::Replaced(place)
        | Reply::Deleted(place)
        | Reply::Place(place) => { push_named(out, b"place", *place) }
        Reply::Present(place) => push_fault(out, b"present", b"place", *place),
        Reply::Full => push_error(out, b"full"),
        Reply::Absent => push_error(out, b"absent"),
        Reply::Found(ids) => push_ids(out, ids.as_slice()),
        Reply::Count(count) => push_named(out, b"count", *count),
        Reply::FoundSome { count, ids } => push_some(out, *count, ids.as_slice()),
        Reply::Text { place, text } => push_plain_text(out, *place, text.as_str()),
        Reply::Commits(commits) => push_commits(out, commits.as_slice()),
        Reply::Trimmed(_) => push_error(out, b"trimmed"),
        Reply::Stats(stats) => push_stats(out, stats),
        Reply::Recycled(slice) => push_named(out, b"slice", u64::from(*slice)),
        Reply::NothingRetired => push_error(out, b"nothing"),
        Reply::Guarded { .. } => push_error(out, b"guarded"),
        Reply::Tuned(count) => push_named(out, b"tuned", *count),
        Reply::Tuning(fault) => push_fault(out, b"tuning", b"fault", u64::from(*fault)),
        Reply::Wide { .. } => push_error(out, b"wide"),
        Reply::Query(at) => push_fault(out, b"syntax", b"at", *at),
        Reply::Deep(at) => push_fault(out, b"deep", b"at", *at),
        Reply::Spent => push_error(out, b"spent"),
        Reply::Memory | Reply::Line | Reply::Long => push_error(out, b"memory"),
    }
}

/// Appends an object that tells an error and a number of it.
fn push_fault(out: &mut Vec<u8>, word: &[u8], name: &[u8], number: u64) -> Result<(), AllocError>
    ensures ok { OnOk result (out.new.items ≡ out.old.items ++ fault_body word.now name.now number) }
    ensures full { OnErr result (vec_capacity out.old < vec_len out.old + length (fault_body word.now name.now number)) }
    ensures digits { length (decimal number) ≤ 20 }
    ensures capacity { vec_capacity out.old ≤ vec_capacity out.new }
{
    out.extend_from_slice(b"{\"error\":\"")?;
    out.extend_from_slice(word)?;
    out.extend_from_slice(b"\",\"")?;
    out.extend_from_slice(name)?;
    push_number_between(out, b"\":", number, b"}")
}

/// Appends an object that tells a number.
fn push_named(out: &mut Vec<u8>, name: &[u8], number: u64) -> Result<(), AllocError>
    ensures ok { OnOk result (out.new.items ≡ out.old.items ++ number_body name.now number) }
    ensures full { OnErr result (vec_capacity out.old < vec_len out.old + length (number_body name.now number)) }
    ensures digits { length (decimal number) ≤ 20 }
    ensures capacity { vec_capacity out.old ≤ vec_capacity out.new }
{
    out.extend_from_slice(b"{\"")?;
    out.extend_from_slice(name)?;
    push_number_between(out, b"\":", number, b"}")
}

/// Appends an object that tells an error.
fn push_error(out: &mut Vec<u8>, word: &[u8]) -> Result<(), AllocError>
    ensures ok { OnOk result (out.new.items ≡ out.old.items ++ error_body word.now) }
    ensures full { OnErr result (vec_capacity out.old < vec_len out.old + length (error_body word.now)) }
    ensures capacity { vec_capacity out.old ≤ vec_capacity out.new }
{
    out.extend_from_slice(b"{\"error\":\"")?;
    out.extend_from_slice(word)?;
    out.extend_from_slice(b"\"}")
}

/// Appends the object of numbers.
fn push_ids(out: &mut Vec<u8>, ids: &[u64]) -> Result<(), AllocError>
    ensures ok { OnOk result (out.new.items ≡ out.old.items ++ ids_body ids.now) }
    ensures full { OnErr result (vec_capacity out.old < vec_len out.old + length (ids_body ids.now)) }
    ensures capacity { vec_capacity out.old ≤ vec_capacity out.new }
{
    out.extend_from_slice(b"{\"ids\":[")?;
    push_joined(out, ids)?;
    out.extend_from_slice(b"]}")
}

/// Appends the object of how many documents were found and some of their numbers.
fn push_some(out: &mut Vec<u8>, count: u64, ids: &[u64]) -> Result<(), AllocError>
    ensures ok { OnOk result (out.new.items ≡ out.old.items ++ some_body count ids.now) }
    ensures full { OnErr result (vec_capacity out.old < vec_len out.old + length (some_body count ids.now)) }
    ensures capacity { vec_capacity out.old ≤ vec_capacity out.new }
{
    push_number_between(out, b"{\"count\":", count, b",\"ids\":[")?;
    push_joined(out, ids)?;
    out.extend_from_slice(b"]}")
}

/// Appends the numbers, with a comma between each two.
fn push_joined(out: &mut Vec<u8>, ids: &[u64]) -> Result<(), AllocError>
    ensures ok { OnOk result (out.new.items ≡ out.old.items ++ joined ids.now) }
    ensures full { OnErr result (vec_capacity out.old < vec_len out.old + length (joined ids.now)) }
    ensures capacity { vec_capacity out.old ≤ vec_capacity out.new }
{
    let Some((first, others)) = ids.split_first() else {
        return Ok(());
    };
    push_number(out, *first)?;
    push_after_commas(out, others)
}

/// Appends each number after a comma.
fn push_after_commas(out: &mut Vec<u8>, ids: &[u64]) -> Result<(), AllocError>
    ensures ok { OnOk result (out.new.items ≡ out.old.items ++ after_commas ids.now) }
    ensures full { OnErr result (vec_capacity out.old < vec_len out.old + length (after_commas ids.now)) }
    ensures capacity { vec_capacity out.old ≤ vec_capacity out.new }
{
    for id in ids {
        push_after_comma(out, *id)?;
    }
    Ok(())
}

/// Appends a comma and the number.
fn push_after_comma(out: &mut Vec<u8>, id: u64) -> Result<(), AllocError>
    ensures ok { OnOk result (out.new.items ≡ out.old.items ++ 44 ∷ decimal id) }
    ensures full { OnErr result (vec_capacity out.old < vec_len out.old + length (44 ∷ decimal id)) }
    ensures capacity { vec_capacity out.old ≤ vec_capacity out.new }
{
    out.extend_from_slice(b",")?;
    push_number(out, id)
}

pub(crate) fn push_number_between(
    out: &mut Vec<u8>,
    before: &[u8],
    number: u64,
    after: &[u8],
) -> Result<(), AllocError>
    ensures ok { OnOk result (out.new.items ≡ out.old.items ++ (before.now ++ (decimal number ++ after.now))) }
    ensures full { OnErr result (vec_capacity out.old < vec_len out.old + length (before.now ++ (decimal number ++ after.now))) }
    ensures digits { length (decimal number) ≤ 20 }
    ensures capacity { vec_capacity out.old ≤ vec_capacity out.new }
{
    out.extend_from_slice(before)?;
    push_number(out, number)?;
    out.extend_from_slice(after)
}

pub(crate) fn push_number(out: &mut Vec<u8>, number: u64) -> Result<(), AllocError>
    ensures ok { OnOk result (out.new.items ≡ out.old.items ++ decimal number) }
    ensures full { OnErr result (vec_capacity out.old < vec_len out.old + length (decimal number)) }
    ensures digits { length (decimal number) ≤ 20 }
    ensures capacity { vec_capacity out.old ≤ vec_capacity out.new }
{
    let mut buffer = Buffer::new();
    out.extend_from_slice(buffer.format(number).as_bytes())
}
