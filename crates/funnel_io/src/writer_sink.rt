ghost use Rattle.std.specs.Prelude.{◌≡◌};

use crate::borrower::Borrower;
use crate::calling::write_once;
use crate::sink::{Put, Sink};
use std::io;
use std::io::{Stdout, Write};
use std::marker::Model;

/// A sink over a writer of std's. It tells its bytes where the writer does. Each error of the
/// writer is a fault, also that of a call that was interrupted, and so is a write that takes
/// nothing: nothing is tried again. Nothing is buffered here.
#[derive(Drop)]
pub struct WriterSink<W> {
    writer: W,
    faults: u64,
    error: Option<io::Error>,
}

/// The process's standard output. It tells nothing of its bytes, and those that a write took have
/// gone to the system.
pub type StdoutSink = WriterSink<Stdout>;

// A contract sees the writer and the count of its writes that failed.
impl<W> Model for WriterSink<W> {
    ghost use Rattle.funnel_io.specs.Std.{Counting};

    ghost Value = { Counting W };

    ghost view = { λ s. record { inner = s.writer; faults = s.faults } };
}

impl<W> WriterSink<W> {
    pub fn new(writer: W) -> WriterSink<W>
        ensures { result ≡ record { inner = writer; faults = 0 } }
    {
        WriterSink {
            writer,
            faults: 0,
            error: None,
        }
    }

    /// What the writer said of the last write that failed.
    pub fn error(&self) -> Option<io::Error> {
        self.error
    }
}

impl<W> Borrower for WriterSink<W> {}

impl<W: Write> Sink for WriterSink<W> {
    ghost use Rattle.funnel_io.specs.Streams.{nothing_read};

    ghost outgoing = { λ s. record { written = W.contents s.inner; faults = s.faults } };

    ghost beside_write = { λ _. nothing_read };

    fn write(&mut self, piece: &[u8]) -> Put {
        write_once(&mut self.writer, piece, &mut self.faults, &mut self.error)
    }
}
