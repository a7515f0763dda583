ghost use Rattle.std.specs.Prelude.{◌≡◌, ◌<◌, ◌≤◌, ◌+◌, OnOk, IfOk, IfErr, MatchOption, MatchResult, IfNone, is_ok, vec_capacity};
ghost use Rattle.funnel_io.specs.Beside.{StaysBeside};
ghost use Rattle.funnel_io.specs.LineReading.{most_lines, unused};
ghost use Rattle.session.specs.Ends.{Serves, Stand, is_read_fault, is_write_fault};
ghost use Rattle.session.specs.Steps.{AnswersNext, EndsNext, HasGone, HasServedLines, ReadsOn};
ghost use Rattle.session.specs.Turns.{StopsReading, line_by_line};
ghost use Rattle.session.specs.declared.serving.TheConstants.{MOST_BYTES};

use crate::answering::{TEXT_ROOM, render, reply_to};
use funnel_io::{Connection, End, Line, LineReader, write_all};
use funnel_model::Reply;
use line_proto::Service;
use std::alloc::Global;

/// A session takes at most so many bytes.
pub const MOST_BYTES: u64 = 1 << 40;

/// Answers the lines of a connection, until its input is at its end, or `limit` bytes were taken, or
/// a read or a write fails. A read may bring several lines: each is answered, and its reply goes out
/// whole, before the next read. No read or write that failed is tried again. Want of memory ends it
/// at the start alone; where no memory is found for a reply's text, `refused memory` is written.
pub fn serve_session<S: Service, C: Connection>(
    alloc: Global,
    service: &mut S,
    conn: &mut C,
    limit: u64,
) -> End
    requires some { 1 ≤ limit }
    requires few { limit ≤ MOST_BYTES }
    ensures caller { S.caller service.new ≡ S.caller service.old }
    ensures borrowed { C.borrowed conn.new ≡ C.borrowed conn.old }
    ensures serves { Serves (S.caller service.old) limit
        record { front = S.front service.old; incoming = C.incoming conn.old; outgoing = C.outgoing conn.old }
        record { front = S.front service.new; incoming = C.incoming conn.new; outgoing = C.outgoing conn.new }
        result }

    // A line has its turn only once it was read, and where the reply before it was written whole, at one go. Anything more
    // is read only where each line that ended so far had its turn, and every read gave bytes. Nothing is read once `limit`
    // bytes were taken, each read has room for 64 bytes or for all that may still be taken, and with `Done` the last read
    // found the end.
    ensures in_turns { StopsReading line_by_line C.read_gives C.write_gives limit (result ≡ End.Done) conn.old conn.new }
    ensures untouched { result ≡ End.Memory → (conn.new ≡ conn.old) × (service.new ≡ service.old) }
{
    let Ok(reader) = LineReader::new(alloc) else {
        return End::Memory;
    };
    let Ok(text) = Vec::with_capacity(alloc, TEXT_ROOM) else {
        return End::Memory;
    };
    let mut server = Server {
        reader,
        text,
        left: limit,
    };
    loop {
        if let Some(end) = server.turn(service, conn, limit) {
            return end;
        }
    }
}

/// What a session keeps between its lines.
#[derive(Drop)]
struct Server {
    reader: LineReader,
    text: Vec<u8>,
    left: u64,
}

impl Server {
    /// Answers the next line and writes its reply, or says how the session ends.
    fn turn<S: Service, C: Connection>(
        &mut self,
        service: &mut S,
        conn: &mut C,
        limit: u64,
    ) -> Option<End>
        requires { TEXT_ROOM ≤ vec_capacity self.old.text }
        ensures caller { S.caller service.new ≡ S.caller service.old }
        ensures borrowed { C.borrowed conn.new ≡ C.borrowed conn.old }
        ensures room { TEXT_ROOM ≤ vec_capacity self.new.text }
        ensures serves { (old : Stand) →
            HasServedLines (S.caller service.old) limit self.old.left self.old.reader old
            record { front = S.front service.old; incoming = C.incoming conn.old; outgoing = C.outgoing conn.old } →
            MatchOption result
            (HasServedLines (S.caller service.old) limit self.new.left self.new.reader old
            record { front = S.front service.new; incoming = C.incoming conn.new; outgoing = C.outgoing conn.new })
            (Serves (S.caller service.old) limit old
            record { front = S.front service.new; incoming = C.incoming conn.new; outgoing = C.outgoing conn.new }) }
        ensures in_turns { (first : C) → HasGone C.read_gives C.write_gives limit self.old.left first conn.old self.old.reader →
            MatchOption result (HasGone C.read_gives C.write_gives limit self.new.left first conn.new self.new.reader)
            (λ end. StopsReading line_by_line C.read_gives C.write_gives limit (end ≡ End.Done) first conn.new) }
        ensures started { result ≡ Some End.Memory → ⊥ }
        ensures fewer { IfNone result (most_lines self.new.reader.held self.new.reader.long + self.new.left
            < most_lines self.old.reader.held self.old.reader.long + self.old.left) }
    {
        let reply = match self.next_reply(service, conn, limit) {
            Ok(reply) => reply,
            Err(end) => return Some(end),
        };
        render(&reply, &mut self.text);
        match write_all(conn, self.text.as_slice()) {
            Ok(()) => None,
            Err(_) => Some(End::WriteFault),
        }
    }

    /// Reads the next line and has it answered, or says how the session ends.
    fn next_reply<S: Service, C: Connection>(
        &mut self,
        service: &mut S,
        conn: &mut C,
        limit: u64,
    ) -> Result<Reply, End>
        ensures caller { S.caller service.new ≡ S.caller service.old }
        ensures stays { StaysBeside C.borrowed C.outgoing conn.old conn.new }
        ensures text { self.new.text ≡ self.old.text }
        ensures answers { IfOk result (AnswersNext (S.caller service.old) self.old.reader self.new.reader
            (C.incoming conn.old) (C.incoming conn.new) self.old.left self.new.left (S.front service.old) (S.front service.new)) }
        ensures ends { IfErr result (EndsNext limit self.old.reader self.new.reader
            (C.incoming conn.old) (C.incoming conn.new) self.old.left self.new.left (S.front service.old) (S.front service.new)) }
        ensures reads { ReadsOn C.read_gives conn.old conn.new self.old.reader self.new.reader self.old.left self.new.left (is_ok result) }
        ensures started { result ≡ Err End.Memory → ⊥ }
        ensures fewer { OnOk result (most_lines self.new.reader.held self.new.reader.long + self.new.left
            < most_lines self.old.reader.held self.old.reader.long + self.old.left) }
    {
        match self.reader.next_line(conn, &mut self.left) {
            Line::Whole => Ok(reply_to(service, self.reader.line())),
            Line::Long => Ok(Reply::Long),
            Line::Finished => Err(End::Done),
            Line::Failed => Err(End::ReadFault),
            Line::Limit => Err(End::ByteLimit(limit)),
        }
    }
}
