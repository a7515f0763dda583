ghost use Rattle.std.specs.Prelude.{◌≡◌, ◌<◌, ◌≤◌, ◌-◌, [], IfOk, length, ⊤};
ghost use Rattle.funnel_io.specs.Memory.{IsWrite, outgoing_of};
ghost use Rattle.funnel_io.specs.Answers.{MatchPut, bytes_put};
ghost use Rattle.funnel_io.specs.Streams.{Writes};

use crate::borrower::Borrower;
use crate::sink::{Put, Sink};
use std::alloc::{AllocError, Global};
use std::marker::Model;

/// A sink that keeps what is written, within a room that is set when it is made.
#[derive(Debug, Drop)]
pub struct MemSink {
    bytes: Vec<u8>,
    room: usize,
    writes: u64,
    fails: Vec<u64>,
    faults: u64,
}

impl Model for MemSink {
    ghost use Rattle.std.specs.Prelude.{◌+◌, ◌≤◌, vec_len, vec_capacity};
    ghost use Rattle.funnel_io.specs.Memory.{SinkState};

    ghost Value = { SinkState };

    ghost view = { λ s. record {
      written = s.bytes.items;
      room = s.room;
      writes = s.writes;
      fails = s.fails.items;
      faults = s.faults;
    } };

    ghost invariant = { λ s. vec_len s.bytes + s.room ≤ vec_capacity s.bytes };
}

impl MemSink {
    /// A sink with room for so many bytes. Writes are numbered from 1, and those in `fails` fail.
    pub fn new(alloc: Global, room: usize, fails: Vec<u64>) -> Result<MemSink, AllocError>
        ensures { IfOk result (λ sink. sink ≡ record {
          written = [];
          room = room;
          writes = 0;
          fails = fails.items;
          faults = 0;
        }) }
    {
        Ok(MemSink {
            bytes: Vec::with_capacity(alloc, room)?,
            room,
            writes: 0,
            fails,
            faults: 0,
        })
    }

    /// The bytes that were written.
    pub fn bytes(&self) -> &[u8]
        ensures { result.now ≡ self.now.written }
    {
        &self.bytes
    }
}

impl Borrower for MemSink {}

impl Sink for MemSink {
    ghost use Rattle.funnel_io.specs.Memory.{IsSinkWrite, outgoing_of};
    ghost use Rattle.funnel_io.specs.Streams.{nothing_read};

    ghost outgoing = { outgoing_of };

    ghost beside_write = { λ _. nothing_read };

    ghost write_gives = { IsSinkWrite };

    fn write(&mut self, piece: &[u8]) -> Put
        requires { 0 < length piece.now }
        ensures count { MatchPut result (λ n. (1 ≤ n) × (n ≤ length piece.now)) ⊤ }
        ensures writes { Writes (bytes_put result piece.now) (outgoing_of self.old) (outgoing_of self.new) }

        // Which writes fail; each other write takes the whole piece.
        ensures exact { IsWrite self.old piece.now result self.new }
    {
        self.writes = self.writes.saturating_add(1);
        if piece.len() > self.room || self.fails.contains(&self.writes) {
            self.faults = self.faults.saturating_add(1);
            return Put::Failed;
        }
        self.bytes.extend_from_slice(piece).unwrap();
        self.room -= piece.len();
        Put::Bytes(piece.len())
    }
}
