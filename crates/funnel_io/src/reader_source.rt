ghost use Rattle.std.specs.Prelude.{◌≡◌};

use crate::borrower::Borrower;
use crate::calling::read_once;
use crate::source::{Got, Source};
use std::io;
use std::io::{Read, Stdin};
use std::marker::Model;

/// A source over a reader of std's. It tells what is left where the reader does. Each error of the
/// reader is a fault, also that of a call that was interrupted: nothing is tried again.
#[derive(Drop)]
pub struct ReaderSource<R> {
    reader: R,
    faults: u64,
    error: Option<io::Error>,
}

/// The process's standard input. It tells nothing of its bytes.
pub type StdinSource = ReaderSource<Stdin>;

// A contract sees the reader and the count of its reads that failed.
impl<R> Model for ReaderSource<R> {
    ghost use Rattle.funnel_io.specs.Std.{Counting};

    ghost Value = { Counting R };

    ghost view = { λ s. record { inner = s.reader; faults = s.faults } };
}

impl<R> ReaderSource<R> {
    pub fn new(reader: R) -> ReaderSource<R>
        ensures { result ≡ record { inner = reader; faults = 0 } }
    {
        ReaderSource {
            reader,
            faults: 0,
            error: None,
        }
    }

    /// What the reader said of the last read that failed.
    pub fn error(&self) -> Option<io::Error> {
        self.error
    }
}

impl<R> Borrower for ReaderSource<R> {}

impl<R: Read> Source for ReaderSource<R> {
    ghost use Rattle.std.specs.Prelude.{None};
    ghost use Rattle.funnel_io.specs.Streams.{nothing_written};

    ghost incoming = { λ s. record { left = R.remaining s.inner; taken = None; faults = s.faults } };

    ghost beside_read = { λ _. nothing_written };

    fn read(&mut self, room: &mut [u8]) -> Got {
        read_once(&mut self.reader, room, &mut self.faults, &mut self.error)
    }
}
