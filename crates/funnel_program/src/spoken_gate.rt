//! Gates that say on standard error what becomes of them.
ghost use Rattle.std.specs.Prelude.{◌≡◌, true};
ghost use Rattle.funnel_io.specs.Counts.{counted};

use crate::closed::NOTHING;
use funnel_io::{End, Gate, Next, Opening, TcpConn, TcpGate};
use std::alloc::{AllocError, Global};
use std::fs::File;
use std::io;
use std::io::IsTerminal;

/// The gate of a worker. Where it failed after it was opened, it says at its end that its worker ended, and why. The last gate of a
/// serve says where all workers listen, once it is opened. From its opening on it keeps a descriptor for its first connection, so that a
/// serve with too few for its workers doesn't begin.
#[derive(Drop)]
pub(crate) struct SpokenGate<'a> {
    rt: &'a HostRuntime,
    gate: TcpGate<'a, HostRuntime>,
    worker: usize,
    was_opened: bool,
    /// What keeps the descriptor of the first connection.
    reserved: Option<File>,
    faults: u64,
    /// What the system said where it had no descriptor to keep.
    unreserved: Option<io::Error>,
    /// The port of the first gate, where this is the last one.
    first_port: Option<u32>,
}

impl SpokenGate<'_> {
    pub(crate) fn port(&self) -> u32 {
        self.gate.port()
    }

    /// What the system said of the last call that failed.
    pub(crate) fn error(&self) -> Option<io::Error> {
        self.unreserved.or(self.gate.error())
    }

    /// Listens, and keeps a descriptor.
    fn open_with_room(&mut self) -> Opening
        ensures { self.new.faults ≡ self.old.faults }
    {
        let Opening::Open = self.gate.open() else {
            return Opening::Fault;
        };
        match File::open(self.rt, NOTHING) {
            Ok(file) => {
                self.reserved = Some(file);
                Opening::Open
            }
            Err(error) => {
                self.unreserved = Some(error);
                Opening::Fault
            }
        }
    }

    fn count_fault(&mut self)
        ensures { self.new.faults ≡ counted true self.old.faults }
    {
        self.faults = self.faults.saturating_add(1);
    }

    /// Says what failed, and what the system said, where something did.
    pub(crate) fn say_error(&self) -> io::Result<()> {
        let (rt, worker, port) = (self.rt, self.worker, self.port());
        match self.error() {
            Some(error) if self.was_opened => {
                eprintln!(rt; "funnel: worker {worker} ended, on port {port}: {error}")
            }
            Some(error) => eprintln!(rt; "funnel: listening on port {port}: {error}"),
            None => Ok(()),
        }
    }

    /// Says where all workers listen, where standard error is a terminal.
    fn say_where(&self, first: u32) -> io::Result<()> {
        let (rt, last) = (self.rt, self.port());
        if !rt.stderr().is_terminal() {
            return Ok(());
        }
        if first == last {
            eprintln!(rt; "funnel: a serve listens on 127.0.0.1, on port {last}")
        } else {
            eprintln!(rt; "funnel: a serve listens on 127.0.0.1, on ports {first} to {last}")
        }
    }
}

impl Gate for SpokenGate<'_> {
    type Conn = TcpConn;

    ghost use Rattle.std.specs.Prelude.{None, false};

    ghost gate_faults = { λ g. g.faults };

    ghost waiting = { λ _. None };

    ghost is_closed = { λ _. false };

    ghost out = { λ _. 0 };

    ghost served = { λ _. None };

    fn open(&mut self) -> Opening {
        let Opening::Open = self.open_with_room() else {
            self.count_fault();
            return Opening::Fault;
        };
        self.was_opened = true;
        if let Some(first) = self.first_port {
            // Where the line can't be written, the person isn't told.
            let _ = self.say_where(first);
        }
        Opening::Open
    }

    fn next(&mut self) -> Next<TcpConn> {
        self.reserved = None;
        match self.gate.next() {
            Next::Conn(conn) => Next::Conn(conn),
            Next::Closed => Next::Closed,
            Next::Fault => {
                self.count_fault();
                Next::Fault
            }
        }
    }

    fn done(&mut self, conn: TcpConn, end: End) {
        self.gate.done(conn, end);
    }

    fn end(&mut self) {
        if self.was_opened {
            // As in `open`.
            let _ = self.say_error();
        }
        self.reserved = None;
        self.gate.end();
    }
}

/// These gates, each of which says what becomes of it.
pub(crate) fn spoken<'a>(
    rt: &'a HostRuntime,
    alloc: Global,
    gates: Vec<TcpGate<'a, HostRuntime>>,
) -> Result<Vec<SpokenGate<'a>>, AllocError> {
    let first_port = gates.first().map(|gate| gate.port());
    let count = gates.len();
    let mut all = Vec::with_capacity(alloc, count)?;
    for (worker, gate) in gates.into_iter().enumerate() {
        let is_last = worker + 1 == count;
        all.push(SpokenGate {
            rt,
            gate,
            worker,
            was_opened: false,
            reserved: None,
            faults: 0,
            unreserved: None,
            first_port: if is_last { first_port } else { None },
        })?;
    }
    Ok(all)
}
