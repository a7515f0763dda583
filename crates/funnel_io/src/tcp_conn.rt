ghost use Rattle.std.specs.Prelude.{◌≡◌};

use crate::borrower::Borrower;
use crate::calling::{read_once, write_once};
use crate::connection::Connection;
use crate::sink::{Put, Sink};
use crate::source::{Got, Source};
use std::io;
use std::io::Read;
use std::marker::Model;
use std::net::{Shutdown, TcpStream};
use std::time::{Clock, Duration, Instant};

/// So many bytes are left aside at most of what a peer sends after the last of what it is told.
const MOST_LEFT_ASIDE: usize = 65_536;

/// And for so many seconds.
const LONGEST_ASIDE: u64 = 1;

/// So many bytes are left aside at a time.
const ASIDE_ROOM: usize = 4_096;

/// A TCP connection, by one handle of its stream. It tells nothing of its bytes. Each error of the
/// system is a fault, also that of a call that was interrupted or waited too long: nothing is
/// tried again.
#[derive(Drop)]
pub struct TcpConn {
    stream: TcpStream,
    read_faults: u64,
    write_faults: u64,
    /// A read found the end.
    ended: bool,
}

// A contract sees how many reads and how many writes failed.
impl Model for TcpConn {
    ghost use Rattle.funnel_io.specs.Std.{ConnFaults};

    ghost Value = { ConnFaults };

    ghost view = { λ c. record { reads = c.read_faults; writes = c.write_faults } };
}

impl TcpConn {
    pub(crate) fn new(stream: TcpStream) -> TcpConn
        ensures { result ≡ record { reads = 0; writes = 0 } }
    {
        TcpConn {
            stream,
            read_faults: 0,
            write_faults: 0,
            ended: false,
        }
    }

    /// Tells the peer that nothing more is written. One that is gone already can't be told.
    pub(crate) fn end_writing(&self) {
        let _ = self.stream.shutdown(Shutdown::Write);
    }

    /// Ends what is written. Where the peer wasn't read to its end, what it still sends is left aside, so that nothing that
    /// was written is lost as the connection is closed: up to 65,536 bytes, to its end, or for one second.
    pub(crate) fn leave<K: Clock>(mut self, clock: &K) {
        self.end_writing();
        if !self.ended {
            // Where the system or its clock fails, nothing more is left aside.
            let _ = leave_aside(&mut self.stream, clock);
        }
    }
}

impl Borrower for TcpConn {}

impl Source for TcpConn {
    ghost use Rattle.std.specs.Prelude.{None};

    ghost incoming = { λ c. record { left = None; taken = None; faults = c.reads } };

    ghost beside_read = { λ c. record { written = None; faults = c.writes } };

    fn read(&mut self, room: &mut [u8]) -> Got {
        let mut error = None;
        let got = read_once(&mut self.stream, room, &mut self.read_faults, &mut error);
        self.ended |= got == Got::End;
        got
    }
}

impl Sink for TcpConn {
    ghost use Rattle.std.specs.Prelude.{None};

    ghost outgoing = { λ c. record { written = None; faults = c.writes } };

    ghost beside_write = { λ c. record { left = None; taken = None; faults = c.reads } };

    fn write(&mut self, piece: &[u8]) -> Put {
        let mut error = None;
        write_once(&mut self.stream, piece, &mut self.write_faults, &mut error)
    }
}

impl Connection for TcpConn {
    ghost use Rattle.std.specs.Prelude.{refl};

    ghost reads_leave_writes = { λ _. refl };

    ghost writes_leave_reads = { λ _. refl };
}

// Reads what the peer sends, which nobody is told.
fn leave_aside<K: Clock>(stream: &mut TcpStream, clock: &K) -> io::Result<()> {
    let start = Instant::now(clock)?;
    let longest = Duration::from_secs(LONGEST_ASIDE);
    let mut room = [0; ASIDE_ROOM];
    let mut left = MOST_LEFT_ASIDE;
    while left > 0 {
        let Some(wait) = longest.checked_sub(start.elapsed(clock)?) else {
            return Ok(());
        };
        stream.set_read_timeout(Some(wait))?;
        let most = left.min(ASIDE_ROOM);
        let count = stream.read(&mut room[..most])?;
        if count == 0 {
            return Ok(());
        }
        left -= count;
    }
    Ok(())
}
