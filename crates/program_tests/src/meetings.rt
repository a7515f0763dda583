//! Connections of a serve that wait for each other.
use crate::setting::{
    NONE, Pieces, SOUND, Streams, UNREAD, end_of, expect, sink_of, source_of, streams_of,
};
use funnel_io::{
    Borrower, Connection, End, Gate, Got, MemSink, MemSource, Next, Opening, Put, Sink, Source,
};
use std::alloc::{AllocError, Global};
use std::marker::Model;
use std::sync::Wait;
use std::sync::atomic::{AtomicBool, Ordering};
use std::test::Fail;
use std::thread;
use std::thread::Threads;

// A connection of which one read waits until another connection has got a reply. It tells contracts nothing of its bytes.
#[derive(Drop)]
struct Meeting<'a> {
    source: MemSource,
    sink: MemSink,
    faults: u64,
    write_faults: u64,
    reads: u64,
    // The number of the read that waits.
    waits_at: u64,
    replied: &'a AtomicBool,
    awaited: &'a AtomicBool,
}

impl Meeting<'_> {
    // Whether the other connection has got a reply, within so many turns.
    fn meets(&self) -> bool {
        for _ in 0..1_000_000 {
            if self.awaited.load(Ordering::SeqCst) {
                return true;
            }
            thread::yield_now();
        }
        false
    }
}

impl Borrower for Meeting<'_> {}

impl Source for Meeting<'_> {
    ghost use Rattle.funnel_io.specs.Streams.{nothing_read, nothing_written};

    ghost incoming = { λ m. record nothing_read { faults = m.faults } };

    ghost beside_read = { λ m. record nothing_written { faults = m.write_faults } };

    fn read(&mut self, room: &mut [u8]) -> Got {
        self.reads = self.reads.saturating_add(1);
        let meets = self.reads != self.waits_at || self.meets();
        let got = if meets {
            self.source.read(room)
        } else {
            Got::Failed
        };
        if let Got::Failed = got {
            self.faults = self.faults.saturating_add(1);
        }
        got
    }
}

impl Sink for Meeting<'_> {
    ghost use Rattle.funnel_io.specs.Streams.{nothing_read, nothing_written};

    ghost outgoing = { λ m. record nothing_written { faults = m.write_faults } };

    ghost beside_write = { λ m. record nothing_read { faults = m.faults } };

    fn write(&mut self, piece: &[u8]) -> Put {
        let put = self.sink.write(piece);
        match put {
            Put::Bytes(_) => self.replied.store(true, Ordering::SeqCst),
            Put::Failed => self.write_faults = self.write_faults.saturating_add(1),
        }
        put
    }
}

impl Connection for Meeting<'_> {
    ghost use Rattle.std.specs.Prelude.{refl};

    ghost reads_leave_writes = { λ _. refl };

    ghost writes_leave_reads = { λ _. refl };
}

// A gate of one such connection.
#[derive(Drop)]
struct MeetingGate<'a> {
    waiting: Option<Meeting<'a>>,
    served: Option<(Meeting<'a>, End)>,
}

// Contracts see whether its connection is gone.
impl<'a> Model for MeetingGate<'a> {
    ghost use Rattle.std.specs.Prelude.{◌≡◌, Bool, IfSome, is_none};

    ghost Value = { Bool };

    ghost view = { λ g. is_none g.waiting };

    ghost invariant = { λ g. IfSome g.waiting (λ m. (m.faults ≡ 0) × (m.write_faults ≡ 0)) };
}

impl<'a> Gate for MeetingGate<'a> {
    type Conn = Meeting<'a>;

    ghost use Rattle.std.specs.Prelude.{None};

    ghost gate_faults = { λ _. 0 };

    ghost waiting = { λ _. None };

    ghost is_closed = { λ is_gone. is_gone };

    ghost out = { λ _. 0 };

    ghost served = { λ _. None };

    fn open(&mut self) -> Opening {
        Opening::Open
    }

    fn next(&mut self) -> Next<Meeting<'a>> {
        match self.waiting.take() {
            Some(conn) => Next::Conn(conn),
            None => Next::Closed,
        }
    }

    fn done(&mut self, conn: Meeting<'a>, end: End) {
        self.served = Some((conn, end));
    }

    fn end(&mut self) {}
}

fn meeting_gate<'a>(
    alloc: Global,
    pieces: Pieces,
    waits_at: u64,
    replied: &'a AtomicBool,
    awaited: &'a AtomicBool,
) -> Result<MeetingGate<'a>, AllocError> {
    let source = source_of(alloc, pieces, NONE)?;
    let sink = sink_of(alloc, 100, NONE)?;
    let conn = Meeting {
        source,
        sink,
        faults: 0,
        write_faults: 0,
        reads: 0,
        waits_at,
        replied,
        awaited,
    };
    Ok(MeetingGate {
        waiting: Some(conn),
        served: None,
    })
}

// Gates of two connections, each of which waits for a reply of the other.
fn meeting_gates<'a>(
    alloc: Global,
    first: &'a AtomicBool,
    second: &'a AtomicBool,
) -> Result<Vec<MeetingGate<'a>>, AllocError> {
    let mut gates = Vec::new(alloc);
    gates.push(meeting_gate(alloc, (b"add 1 a\n", 8), 1, first, second)?)?;
    gates.push(meeting_gate(alloc, (b"add 2 b\nplace\n", 8), 2, second, first)?)?;
    Ok(gates)
}

// Whether the connection was served, and got these replies.
fn is_served(gate: &MeetingGate, replies: &[u8]) -> bool {
    match &gate.served {
        Some((conn, end)) => *end == End::Done && conn.sink.bytes() == replies,
        None => false,
    }
}

fn are_served(gates: &[MeetingGate]) -> bool {
    match gates {
        [one, two] => is_served(one, b"added 2\n") && is_served(two, b"added 1\nplace 2\n"),
        _ => false,
    }
}

const WORDS: &[&str] = &["serve", "--port", "7000", "--workers", "2"];

fn serve_gates<R: Threads + Wait + Sync>(
    rt: &R,
    alloc: Global,
    streams: &mut Streams,
    gates: Vec<MeetingGate>,
) -> (u8, bool) {
    let ended = end_of(rt, alloc, WORDS, streams, gates);
    (ended.status(), are_served(&ended.gates))
}

// The status of a serve of both, and whether they were served.
fn meet<R: Threads + Wait + Sync>(
    rt: &R,
    alloc: Global,
    first: &AtomicBool,
    second: &AtomicBool,
) -> Result<(u8, bool), AllocError> {
    let mut streams = streams_of(alloc, (b"", UNREAD), SOUND)?;
    let gates = meeting_gates(alloc, first, second)?;
    Ok(serve_gates(rt, alloc, &mut streams, gates))
}

#[test]
fn workers_answer_beside_each_other(rt: HostRuntime) -> Result<(), Fail> {
    let first = AtomicBool::new(false);
    let second = AtomicBool::new(false);
    let met = meet(&rt, rt.alloc(), &first, &second)?;
    expect(&rt, met, (0, true));
    Ok(())
}
