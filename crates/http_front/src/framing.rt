ghost use Rattle.std.specs.Prelude.{◌≡◌, ◌≤◌, ◌<◌, ◌+◌, length, take, drop, map, All, MatchResult, codes, [], Some};
ghost use Rattle.httparse.specs.Grammar.{HasNoRequest, MayBecomeRequest};
ghost use Rattle.httparse.specs.Spans.{IsHeaderWithin, header_bytes};
ghost use Rattle.http_front.specs.Steps.{HasHeadAt, IsGoodHead, IsRefusedByFields, IsSeen, closes_with};

use crate::buffer::CAPACITY;
use crate::cause::Cause;
use crate::fields::{Values, asks_to_close, body_length, field_values};
use crate::head_end::ends_in_target;
use httparse::Status;
use httparse::spans::{HeaderSpan, RequestSpans, Span, parse_request};

/// The most bytes of a request's head.
pub const MAX_HEAD: usize = 16_384;

/// The most fields of a head.
pub const MAX_FIELDS: usize = 32;

/// The most bytes of a request's body.
pub const MAX_BODY: usize = 65_536;

/// More fields than a head of [`MAX_HEAD`] bytes can have: each has three bytes at least.
pub(crate) const MOST_FIELDS: usize = MAX_HEAD / 3;

/// Where the parts of a request lie.
#[derive(Clone, Copy, Debug)]
pub(crate) struct Parts {
    pub(crate) method: Span,
    pub(crate) target: Span,
    pub(crate) body: Span,
    /// The connection is closed after the response.
    pub(crate) closes: bool,
}

/// What begins the bytes.
#[derive(Clone, Copy, Debug)]
pub(crate) enum Frame {
    /// A whole request.
    Request(Parts),
    /// A refusal that closes the connection.
    Refused(Cause),
}

/// What the bytes decide.
#[derive(Clone, Copy, Debug)]
pub(crate) enum Seen {
    Frame(Frame),
    /// Nothing, before so many bytes are there.
    More(usize),
}

/// What the bytes decide. `spans` is room for the fields of a head.
pub(crate) fn look(bytes: &[u8], spans: &mut [HeaderSpan]) -> Seen
    requires few { length bytes.now ≤ CAPACITY }
    requires room { length spans.old ≡ MOST_FIELDS }
    ensures { IsSeen bytes.now result }
{
    let first = first_bytes(bytes);
    match parse_request(first, spans) {
        Ok(Status::Complete(head)) => judge(bytes, first, &spans[..head.headers], &head),
        Ok(Status::Partial) => wait_for_head(bytes),
        Err(_) => {
            if ends_in_target(first) {
                wait_for_head(bytes)
            } else {
                Seen::Frame(Frame::Refused(Cause::Head))
            }
        }
    }
}

/// As many of the bytes as a head may have.
fn first_bytes(bytes: &[u8]) -> &[u8]
    ensures { result.now ≡ take MAX_HEAD bytes.now }
{
    if bytes.len() < MAX_HEAD {
        bytes
    } else {
        &bytes[..MAX_HEAD]
    }
}

/// What bytes decide that begin with no whole head, but can come to.
fn wait_for_head(bytes: &[u8]) -> Seen
    requires none { HasNoRequest (take MAX_HEAD bytes.now) }
    requires may { MayBecomeRequest (take MAX_HEAD bytes.now) }
    ensures { IsSeen bytes.now result }
{
    if bytes.len() < MAX_HEAD {
        Seen::More(bytes.len() + 1)
    } else {
        Seen::Frame(Frame::Refused(Cause::Head))
    }
}

/// What bytes decide that begin with a whole head.
fn judge(bytes: &[u8], first: &[u8], fields: &[HeaderSpan], head: &RequestSpans) -> Seen
    requires few { length bytes.now ≤ CAPACITY }
    requires first { first.now ≡ take MAX_HEAD bytes.now }
    requires head { HasHeadAt first.now fields.now head.now }
    ensures { IsSeen bytes.now result }
{
    let length = match check_fields(first, fields) {
        Ok(length) => length,
        Err(cause) => return Seen::Frame(Frame::Refused(cause)),
    };
    let end = head.len + length;
    if bytes.len() < end {
        return Seen::More(end);
    }
    Seen::Frame(Frame::Request(Parts {
        method: head.method,
        target: head.path,
        body: Span {
            start: head.len,
            end,
        },
        closes: closes_with(head.version, first, fields),
    }))
}

/// Whether the response to a request of this version closes the connection.
fn closes_with(version: u8, bytes: &[u8], fields: &[HeaderSpan]) -> bool
    requires { All (IsHeaderWithin (length bytes.now)) fields.now }
    ensures { result ≡ closes_with version (map (header_bytes bytes.now) fields.now) }
{
    version == 0 || asks_to_close(bytes, fields)
}

/// The length of the body, or why a head with these fields is refused.
fn check_fields(bytes: &[u8], fields: &[HeaderSpan]) -> Result<usize, Cause>
    requires { All (IsHeaderWithin (length bytes.now)) fields.now }
    ensures { MatchResult result (IsGoodHead (map (header_bytes bytes.now) fields.now))
        (IsRefusedByFields (map (header_bytes bytes.now) fields.now)) }
{
    if fields.len() > MAX_FIELDS {
        return Err(Cause::Head);
    }
    let Values::None = field_values(bytes, fields, b"transfer-encoding") else {
        return Err(Cause::Coding);
    };
    let Some(length) = body_length(bytes, fields) else {
        return Err(Cause::Length);
    };
    if length > MAX_BODY as u64 {
        return Err(Cause::Long);
    }
    Ok(length as usize)
}
