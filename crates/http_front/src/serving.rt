ghost use Rattle.std.specs.Prelude.{◌≡◌, ◌<◌, ◌≤◌, ◌+◌, length, [], false, IfNone, IfOk, IfErr, OnOk, MatchOption, Some};
ghost use Rattle.funnel_io.specs.Beside.{StaysBeside};
ghost use Rattle.session.specs.Ends.{Stand};
ghost use Rattle.session.specs.Turns.{StopsReading};
ghost use Rattle.session.specs.declared.serving.TheConstants.{MOST_BYTES};
ghost use Rattle.http_front.specs.Ends.{ServesRequests};
ghost use Rattle.http_front.specs.Entries.{HasNoEntry};
ghost use Rattle.http_front.specs.Steps.{AnswersFrame, HasServed, IsFrame};
ghost use Rattle.http_front.specs.Ready.{IsReady};
ghost use Rattle.http_front.specs.Turns.{request_by_request};
ghost use Rattle.http_front.specs.TurnSteps.{EndsUndecided, HasHadTurns, ReadsOn};

use crate::answering::{Decoding, outcome_of};
use crate::buffer::{Buffer, LONGEST};
use crate::framing::{Frame, MAX_HEAD, MOST_FIELDS, Seen, look};
use crate::outcome::Outcome;
use crate::response::{TEXT_ROOM, render};
use funnel_io::{Connection, End, Got, write_all};
use httparse::spans::{EMPTY_HEADER_SPAN, HeaderSpan};
use json::Scratch;
use line_proto::Service;
use std::alloc::{AllocError, Global};

/// Answers the requests of a connection, until a response closes it, its input is at its end, `limit` bytes were taken, or
/// a read or a write fails. A read may bring several requests: each is answered, and its response goes out whole, before
/// the next read. A request that the end of the input cuts isn't answered. No read or write that failed is tried again.
/// Want of memory ends it at the start alone; later only a response tells it, where a document in a body or its call finds none, or in
/// place of a response that does.
pub fn serve_http<S: Service, C: Connection>(
    alloc: Global,
    service: &mut S,
    conn: &mut C,
    limit: u64,
) -> End
    requires some { 1 ≤ limit }
    requires few { limit ≤ MOST_BYTES }
    ensures caller { S.caller service.new ≡ S.caller service.old }
    ensures borrowed { C.borrowed conn.new ≡ C.borrowed conn.old }
    ensures serves { ServesRequests (S.caller service.old) limit
        record { front = S.front service.old; incoming = C.incoming conn.old; outgoing = C.outgoing conn.old }
        record { front = S.front service.new; incoming = C.incoming conn.new; outgoing = C.outgoing conn.new }
        result }

    // A request has its turn only where the response before it was written whole, at one go, and didn't close. Anything more
    // is read only where each request that is whole had its turn, and every read gave bytes. Nothing is read once `limit`
    // bytes were taken, each read has room for 64 bytes or for all that may still be taken, and with `Done` the last read
    // found the end, or a response closes.
    ensures in_turns { StopsReading request_by_request C.read_gives C.write_gives limit (result ≡ End.Done) conn.old conn.new }
    ensures untouched { result ≡ End.Memory → (conn.new ≡ conn.old) × (service.new ≡ service.old) }
{
    let Ok(mut server) = Server::new(alloc, limit) else {
        return End::Memory;
    };
    loop {
        if let Some(end) = server.turn(service, conn, limit) {
            return end;
        }
    }
}

/// What a connection keeps between its requests.
#[derive(Drop)]
struct Server {
    buffer: Buffer,
    spans: Vec<HeaderSpan>,
    decoding: Decoding,
    body: Vec<u8>,
    text: Vec<u8>,
    left: u64,
}

/// What the response to a request tells.
#[derive(Drop)]
struct Answer {
    told: Outcome,
    /// The connection is closed after it.
    closing: bool,
    /// How many bytes the request has.
    len: usize,
}

impl Server {
    fn new(alloc: Global, limit: u64) -> Result<Server, AllocError>
        ensures { IfOk result (λ server. IsReady server × (server.buffer.bytes ≡ []) × (server.left ≡ limit)) }
    {
        Ok(Server {
            buffer: Buffer::new(alloc)?,
            spans: vec![in alloc; EMPTY_HEADER_SPAN; MOST_FIELDS]?,
            decoding: Decoding {
                scratch: Scratch::new(alloc),
                query: Vec::with_capacity(alloc, MAX_HEAD)?,
            },
            body: Vec::with_capacity(alloc, TEXT_ROOM)?,
            text: Vec::with_capacity(alloc, TEXT_ROOM)?,
            left: limit,
        })
    }

    /// Answers the next request and writes its response, or says how the connection ends.
    fn turn<S: Service, C: Connection>(
        &mut self,
        service: &mut S,
        conn: &mut C,
        limit: u64,
    ) -> Option<End>
        requires { IsReady self.old }
        ensures ready { IsReady self.new }
        ensures caller { S.caller service.new ≡ S.caller service.old }
        ensures borrowed { C.borrowed conn.new ≡ C.borrowed conn.old }
        ensures serves { (old : Stand) →
            HasServed (S.caller service.old) limit self.old.left self.old.buffer.bytes old
            record { front = S.front service.old; incoming = C.incoming conn.old; outgoing = C.outgoing conn.old } →
            MatchOption result
            (HasServed (S.caller service.old) limit self.new.left self.new.buffer.bytes old
            record { front = S.front service.new; incoming = C.incoming conn.new; outgoing = C.outgoing conn.new })
            (ServesRequests (S.caller service.old) limit old
            record { front = S.front service.new; incoming = C.incoming conn.new; outgoing = C.outgoing conn.new }) }
        ensures in_turns { (first : C) → HasHadTurns C.read_gives C.write_gives limit self.old.left self.old.buffer.bytes first conn.old →
            MatchOption result (HasHadTurns C.read_gives C.write_gives limit self.new.left self.new.buffer.bytes first conn.new)
            (λ end. StopsReading request_by_request C.read_gives C.write_gives limit (end ≡ End.Done) first conn.new) }
        ensures started { result ≡ Some End.Memory → ⊥ }
        ensures fewer { IfNone result (length self.new.buffer.bytes + self.new.left < length self.old.buffer.bytes + self.old.left) }
    {
        let frame = match self.next_frame(conn, limit) {
            Ok(frame) => frame,
            Err(end) => return Some(end),
        };
        let answer = self.respond(service, &frame);
        render(&answer.told, answer.closing, &mut self.body, &mut self.text);
        let Ok(()) = write_all(conn, self.text.as_slice()) else {
            return Some(End::WriteFault);
        };
        if answer.closing {
            return Some(End::Done);
        }
        self.buffer.skip(answer.len);
        None
    }

    /// Answers the request that begins the bytes.
    fn respond<S: Service>(&mut self, service: &mut S, frame: &Frame) -> Answer
        requires ready { IsReady self.old }
        requires frame { IsFrame self.old.buffer.bytes frame.now }
        ensures kept { self.new ≡ record self.old { decoding = self.new.decoding } }
        ensures ready { IsReady self.new }
        ensures caller { S.caller service.new ≡ S.caller service.old }
        ensures answers { AnswersFrame self.old.buffer.bytes result.len result.closing
            (S.caller service.old) (S.front service.old) result.told (S.front service.new) }
        ensures some { result.closing ≡ false → (0 < result.len) × (result.len ≤ length self.old.buffer.bytes) }
    {
        match frame {
            Frame::Request(parts) => Answer {
                told: outcome_of(service, self.buffer.bytes(), parts, &mut self.decoding),
                closing: parts.closes,
                len: parts.body.end,
            },
            Frame::Refused(cause) => Answer {
                told: Outcome::Refused(*cause),
                closing: true,
                len: 0,
            },
        }
    }

    /// Reads until the bytes decide what begins them, or says how the connection ends.
    fn next_frame<C: Connection>(&mut self, conn: &mut C, limit: u64) -> Result<Frame, End>
        requires { IsReady self.old }
        ensures ready { IsReady self.new }
        ensures stays { StaysBeside C.borrowed C.beside_read conn.old conn.new }
        ensures frame { IfOk result (IsFrame self.new.buffer.bytes) }
        ensures reads { OnOk result (ReadsOn HasNoEntry C.incoming C.read_gives conn.old conn.new
            self.old.buffer.bytes self.new.buffer.bytes self.old.left self.new.left) }
        ensures ends { IfErr result (λ end. EndsUndecided HasNoEntry limit end C.incoming C.read_gives conn.old conn.new
            self.old.buffer.bytes self.new.buffer.bytes self.old.left self.new.left) }
    {
        loop {
            match look(self.buffer.bytes(), &mut self.spans) {
                Seen::Frame(frame) => return Ok(frame),
                Seen::More(least) => self.read_until(conn, least, limit)?,
            }
        }
    }

    /// Reads until so many bytes are there, or says how the connection ends.
    fn read_until<C: Connection>(
        &mut self,
        conn: &mut C,
        least: usize,
        limit: u64,
    ) -> Result<(), End>
        requires ready { IsReady self.old }
        requires more { length self.old.buffer.bytes < least }
        requires fits { least ≤ LONGEST }
        ensures ready { IsReady self.new }
        ensures stays { StaysBeside C.borrowed C.beside_read conn.old conn.new }
        ensures reads { OnOk result (ReadsOn (λ bytes. length bytes < least) C.incoming C.read_gives conn.old conn.new
            self.old.buffer.bytes self.new.buffer.bytes self.old.left self.new.left) }
        ensures fewer { OnOk result (self.new.left < self.old.left) }
        ensures ends { IfErr result (λ end. EndsUndecided (λ bytes. length bytes < least) limit end C.incoming C.read_gives conn.old conn.new
            self.old.buffer.bytes self.new.buffer.bytes self.old.left self.new.left) }
    {
        while self.buffer.len() < least {
            if self.left == 0 {
                return Err(End::ByteLimit(limit));
            }
            match self.buffer.read(conn, &mut self.left) {
                Got::Bytes(_) => {}
                Got::End => return Err(End::Done),
                Got::Failed => return Err(End::ReadFault),
            }
        }
        Ok(())
    }
}
