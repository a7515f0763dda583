ghost use Rattle.std.specs.Prelude.{◌≡◌, ◌<◌, ◌≤◌, ◌+◌, [], IfOk, length, drop};
ghost use Rattle.funnel_io.specs.Beside.{StaysBeside};
ghost use Rattle.funnel_io.specs.BufferReads.{ReadsOnce, TellsRead};

use crate::framing::{MAX_BODY, MAX_HEAD};
use funnel_io::{Got, Source, read_behind};
use std::alloc::{AllocError, Global};
use std::marker::Model;

/// As many bytes as a request may have.
pub(crate) const LONGEST: usize = MAX_HEAD + MAX_BODY;

/// A read has room for so many bytes at least.
const LEAST_ROOM: usize = 64;

/// As many bytes as a buffer holds: those of a request, and behind them the room of a read.
pub(crate) const CAPACITY: usize = LONGEST + LEAST_ROOM;

/// The bytes that were read and not yet answered, in a buffer of fixed size. They lie from `start` to `end`.
#[derive(Drop)]
pub(crate) struct Buffer {
    room: Vec<u8>,
    start: usize,
    end: usize,
}

impl Model for Buffer {
    ghost use Rattle.std.specs.Prelude.{◌-◌, length, slice_range};
    ghost use Rattle.http_front.specs.Steps.{Held, IsInPlace};

    ghost Value = { Held };

    ghost view = { λ b. record {
      bytes = slice_range b.room.items b.start b.end;
      room = length b.room.items - b.end;
    } };

    ghost invariant = { λ b. IsInPlace b.room.items b.start b.end };
}

impl Buffer {
    pub(crate) fn new(alloc: Global) -> Result<Buffer, AllocError>
        ensures { IfOk result (λ buffer. buffer.bytes ≡ []) }
    {
        Ok(Buffer {
            room: vec![in alloc; 0; CAPACITY]?,
            start: 0,
            end: 0,
        })
    }

    /// The bytes that were read and not yet answered.
    pub(crate) fn bytes(&self) -> &[u8]
        ensures bytes { result.now ≡ self.now.bytes }
        ensures few { length result.now ≤ CAPACITY }
    {
        &self.room[self.start..self.end]
    }

    pub(crate) fn len(&self) -> usize
        ensures { result ≡ length self.now.bytes }
    {
        self.end - self.start
    }

    /// Lets the first bytes go.
    pub(crate) fn skip(&mut self, count: usize)
        requires { count ≤ length self.old.bytes }
        ensures { self.new.bytes ≡ drop count self.old.bytes }
    {
        self.start += count;
        if self.start == self.end {
            self.start = 0;
            self.end = 0;
        }
    }

    /// Reads further bytes, at most `left` of them, and counts them down.
    pub(crate) fn read<C: Source>(&mut self, conn: &mut C, left: &mut u64) -> Got
        requires few { length self.old.bytes < LONGEST }
        requires some { 0 < left.old }
        ensures stays { StaysBeside C.borrowed C.beside_read conn.old conn.new }
        ensures once { ReadsOnce C.incoming C.read_gives conn.old conn.new self.old.bytes self.new.bytes result left.old left.new }
        ensures told { TellsRead C.incoming result conn.old conn.new left.old left.new }
    {
        self.make_room();
        self.read_on(conn, left)
    }

    /// Moves the bytes to the front where the room of a read doesn't fit behind them.
    fn make_room(&mut self)
        requires { length self.old.bytes < LONGEST }
        ensures bytes { self.new.bytes ≡ self.old.bytes }
        ensures enough { LEAST_ROOM ≤ self.new.room }
    {
        if self.end > LONGEST {
            self.move_to_front();
        }
    }

    /// Reads into the room behind the bytes.
    fn read_on<C: Source>(&mut self, conn: &mut C, left: &mut u64) -> Got
        requires room { LEAST_ROOM ≤ self.old.room }
        requires some { 0 < left.old }
        ensures stays { StaysBeside C.borrowed C.beside_read conn.old conn.new }
        ensures once { ReadsOnce C.incoming C.read_gives conn.old conn.new self.old.bytes self.new.bytes result left.old left.new }
        ensures told { TellsRead C.incoming result conn.old conn.new left.old left.new }
    {
        read_behind(conn, &mut self.room, &mut self.end, left)
    }

    /// Moves the bytes to the front of the buffer.
    fn move_to_front(&mut self)
        ensures bytes { self.new.bytes ≡ self.old.bytes }
        ensures room { self.new.room + length self.old.bytes ≡ CAPACITY }
    {
        self.room.copy_within(self.start..self.end, 0);
        self.end -= self.start;
        self.start = 0;
    }
}
