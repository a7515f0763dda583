//! Requests over HTTP to a serve, whole and in pieces.
use crate::endings::Wanted;
use crate::gates::GateRow;
use crate::rows::{Row, expect_all};
use crate::setting::{NONE, SOUND, UNREAD};
use funnel_io::End;
use std::test::Fail;

const HTTP: &[&str] = &["serve", "--port=7000", "--workers=1", "--http"];

/// A document that is added and found.
const FOUND: &[u8] =
    b"POST /documents HTTP/1.1\r\nHost: a\r\nContent-Length: 25\r\n\r\n{\"id\":7,\"text\":\"The cat\"}\
GET /find?q=CAT HTTP/1.1\r\nHost: a\r\n\r\n";

const FOUND_RESPONSES: &[u8] =
    b"HTTP/1.1 201 Created\r\nContent-Type: application/json\r\nContent-Length: 11\r\n\r\n{\"place\":1}\
HTTP/1.1 200 OK\r\nContent-Type: application/json\r\nContent-Length: 11\r\n\r\n{\"ids\":[7]}";

/// A query that is none, and a byte that no head begins with.
const REFUSED: &[u8] = b"GET /find?q=%zz HTTP/1.1\r\nHost: a\r\n\r\n\x01";

const REFUSED_RESPONSES: &[u8] =
    b"HTTP/1.1 400 Bad Request\r\nContent-Type: application/json\r\nContent-Length: 17\r\n\r\n{\"error\":\"query\"}\
HTTP/1.1 400 Bad Request\r\nContent-Type: application/json\r\nContent-Length: 16\r\nConnection: close\r\n\r\n{\"error\":\"head\"}";

static REQUESTS: [Row; 6] = [
    Row(
        HTTP,
        (b"", UNREAD),
        SOUND,
        &[GateRow {
            conns: &[((FOUND, 1_000), NONE, NONE)],
            fails: NONE,
            refuses: false,
        }],
        0,
        Wanted::Sessions(&[&[(End::Done, FOUND_RESPONSES)]]),
    ),
    Row(
        HTTP,
        (b"", UNREAD),
        SOUND,
        &[GateRow {
            conns: &[((FOUND, 7), NONE, NONE)],
            fails: NONE,
            refuses: false,
        }],
        0,
        Wanted::Sessions(&[&[(End::Done, FOUND_RESPONSES)]]),
    ),
    Row(
        HTTP,
        (b"", UNREAD),
        SOUND,
        &[GateRow {
            conns: &[((FOUND, 1), NONE, NONE)],
            fails: NONE,
            refuses: false,
        }],
        0,
        Wanted::Sessions(&[&[(End::Done, FOUND_RESPONSES)]]),
    ),
    Row(
        HTTP,
        (b"", UNREAD),
        SOUND,
        &[GateRow {
            conns: &[((REFUSED, 1_000), NONE, NONE)],
            fails: NONE,
            refuses: false,
        }],
        0,
        Wanted::Sessions(&[&[(End::Done, REFUSED_RESPONSES)]]),
    ),
    Row(
        HTTP,
        (b"", UNREAD),
        SOUND,
        &[GateRow {
            conns: &[((REFUSED, 7), NONE, NONE)],
            fails: NONE,
            refuses: false,
        }],
        0,
        Wanted::Sessions(&[&[(End::Done, REFUSED_RESPONSES)]]),
    ),
    Row(
        HTTP,
        (b"", UNREAD),
        SOUND,
        &[GateRow {
            conns: &[((REFUSED, 1), NONE, NONE)],
            fails: NONE,
            refuses: false,
        }],
        0,
        Wanted::Sessions(&[&[(End::Done, REFUSED_RESPONSES)]]),
    ),
];

#[test]
fn requests_in_pieces_are_answered_as_whole_ones(rt: HostRuntime) -> Result<(), Fail> {
    expect_all(&rt, rt.alloc(), &REQUESTS)?;
    Ok(())
}
