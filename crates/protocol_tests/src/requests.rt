//! Requests over HTTP to a service that refuses each call.
use crate::sessions::{SpentPass, conn_of};
use funnel_io::{End, MemConn};
use http_front::serve_http;
use session::MOST_BYTES;
use std::alloc::Global;
use std::process::Abort;
use std::test::Fail;

// A document to be added, a value that stands for nothing, a put, a get, a count, the metrics, a key that comes twice, and a byte that no head
// begins with; what follows it isn't answered.
const REQUESTS: &[u8] =
    b"POST /documents HTTP/1.1\r\nHost: a\r\nContent-Length: 25\r\n\r\n{\"id\":7,\"text\":\"The cat\"}\
GET /find?q=%zz HTTP/1.1\r\nHost: a\r\n\r\n\
PUT /documents/7 HTTP/1.1\r\nContent-Length: 12\r\n\r\n{\"text\":\"a\"}\
GET /documents/7 HTTP/1.1\r\n\r\n\
GET /count?q=a HTTP/1.1\r\n\r\n\
GET /metrics HTTP/1.1\r\n\r\n\
GET /query?q=a&q=b HTTP/1.1\r\n\r\n\x01GET /place HTTP/1.1\r\n\r\n";

const RESPONSES: &str =
    "HTTP/1.1 503 Service Unavailable\r\nContent-Type: application/json\r\nContent-Length: 17\r\n\r\n{\"error\":\"spent\"}\
HTTP/1.1 400 Bad Request\r\nContent-Type: application/json\r\nContent-Length: 17\r\n\r\n{\"error\":\"query\"}\
HTTP/1.1 503 Service Unavailable\r\nContent-Type: application/json\r\nContent-Length: 17\r\n\r\n{\"error\":\"spent\"}\
HTTP/1.1 503 Service Unavailable\r\nContent-Type: application/json\r\nContent-Length: 17\r\n\r\n{\"error\":\"spent\"}\
HTTP/1.1 503 Service Unavailable\r\nContent-Type: application/json\r\nContent-Length: 18\r\n\r\n{\"error\":\"memory\"}\
HTTP/1.1 503 Service Unavailable\r\nContent-Type: application/json\r\nContent-Length: 17\r\n\r\n{\"error\":\"spent\"}\
HTTP/1.1 404 Not Found\r\nContent-Type: application/json\r\nContent-Length: 17\r\n\r\n{\"error\":\"route\"}\
HTTP/1.1 400 Bad Request\r\nContent-Type: application/json\r\nContent-Length: 16\r\nConnection: close\r\n\r\n{\"error\":\"head\"}";

// The requests in pieces of one size, each of which is read at once: a read more would fail.
fn requests(alloc: Global, size: usize) -> Result<MemConn, Fail> {
    let mut pieces = Vec::new(alloc);
    for piece in REQUESTS.chunks(size.max(1)) {
        pieces.push(piece)?;
    }
    let one_more = (pieces.len() as u64).saturating_add(1);
    conn_of(alloc, pieces.as_slice(), &[one_more], &[])
}

fn expect_responses(rt: &impl Abort, alloc: Global, conn: &mut MemConn) {
    assert_eq!(rt;
        serve_http(alloc, &mut SpentPass, conn, MOST_BYTES),
        End::Done
    );
    assert_eq!(rt; conn.sink.bytes(), RESPONSES.as_bytes());
}

#[test]
fn requests_are_answered_in_order_until_one_closes(rt: HostRuntime) -> Result<(), Fail> {
    for size in [1, 7, 1000] {
        let mut conn = requests(rt.alloc(), size)?;
        expect_responses(&rt, rt.alloc(), &mut conn);
    }
    Ok(())
}
