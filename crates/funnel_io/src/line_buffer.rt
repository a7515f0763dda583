ghost use Rattle.std.specs.Prelude.{◌≡◌, ◌<◌, ◌≤◌, ◌+◌, [], ◌∷◌, ◌++◌, IfOk, MatchBool, length, ⊤};
ghost use Rattle.funnel_io.specs.Beside.{StaysBeside};
ghost use Rattle.funnel_io.specs.BufferReads.{TellsRead};
ghost use Rattle.funnel_io.specs.Lines.{HasNoNewline};
ghost use Rattle.funnel_io.specs.BufferReads.{ReadsOnce};

use crate::line_reader::MAX_LINE_LEN;
use crate::reading::read_behind;
use crate::source::{Got, Source};
use memchr::memchr;
use std::alloc::{AllocError, Global};
use std::marker::Model;

/// The fewest bytes that a read has room for, where as many may be taken.
pub(crate) const LEAST_ROOM: usize = 64;

const CAPACITY: usize = MAX_LINE_LEN + LEAST_ROOM;

const NEWLINE: u8 = b'\n';

// Bytes that were read and not yet given as lines, in a buffer of fixed size. They lie from
// `start` to `end`, and no newline is before `searched`. The line that was taken last lies where
// it was read until bytes are moved.
#[derive(Drop)]
pub(crate) struct LineBuffer {
    buffer: Vec<u8>,
    line_start: usize,
    line_end: usize,
    start: usize,
    searched: usize,
    end: usize,
}

impl Model for LineBuffer {
    ghost use Rattle.std.specs.Prelude.{◌-◌, length, slice_range};
    ghost use Rattle.funnel_io.specs.LineBuffers.{HeldBytes, IsInPlace};

    ghost Value = { HeldBytes };

    ghost view = { λ h. record {
      line = slice_range h.buffer.items h.line_start h.line_end;
      bytes = slice_range h.buffer.items h.start h.end;
      room = length h.buffer.items - h.end;
    } };

    ghost invariant = { λ h. IsInPlace h.buffer.items h.line_start h.line_end h.start h.searched h.end };
}

impl LineBuffer {
    pub(crate) fn new(alloc: Global) -> Result<LineBuffer, AllocError>
        ensures empty { IfOk result (λ held. held.bytes ≡ []) }
        ensures no_line { IfOk result (λ held. held.line ≡ []) }
    {
        Ok(LineBuffer {
            buffer: vec![in alloc; 0; CAPACITY]?,
            line_start: 0,
            line_end: 0,
            start: 0,
            searched: 0,
            end: 0,
        })
    }

    pub(crate) fn len(&self) -> usize
        ensures { result ≡ length self.now.bytes }
    {
        self.end - self.start
    }

    pub(crate) fn room(&self) -> usize
        ensures { result ≡ self.now.room }
    {
        self.buffer.len() - self.end
    }

    /// The line that was taken last.
    pub(crate) fn line(&self) -> &[u8]
        ensures { result.now ≡ self.now.line }
    {
        &self.buffer[self.line_start..self.line_end]
    }

    /// Takes the bytes up to the first newline as a line, and lets the newline go.
    pub(crate) fn take_line(&mut self) -> bool
        ensures bytes { MatchBool result
            (self.old.bytes ≡ self.new.line ++ 10 ∷ self.new.bytes)
            (self.new ≡ self.old) }
        ensures clean { MatchBool result (HasNoNewline self.new.line) (HasNoNewline self.new.bytes) }
    {
        match memchr(NEWLINE, &self.buffer[self.searched..self.end]) {
            Some(at) => {
                self.line_start = self.start;
                self.line_end = self.searched + at;
                self.start = self.line_end + 1;
                self.searched = self.start;
                true
            }
            None => {
                self.searched = self.end;
                false
            }
        }
    }

    /// Takes all bytes as a line.
    pub(crate) fn take_rest(&mut self)
        ensures line { self.new.line ≡ self.old.bytes }
        ensures empty { self.new.bytes ≡ [] }
    {
        self.line_start = self.start;
        self.line_end = self.end;
        self.start = self.end;
        self.searched = self.end;
    }

    /// Lets all bytes go.
    pub(crate) fn clear(&mut self)
        ensures empty { self.new.bytes ≡ [] }
        ensures room { self.new.room ≡ CAPACITY }
    {
        self.start = 0;
        self.searched = 0;
        self.end = 0;
    }

    /// Moves the bytes to the front of the buffer.
    pub(crate) fn move_to_front(&mut self)
        ensures bytes { self.new.bytes ≡ self.old.bytes }
        ensures room { self.new.room + length self.old.bytes ≡ CAPACITY }
    {
        self.buffer.copy_within(self.start..self.end, 0);
        self.searched -= self.start;
        self.end -= self.start;
        self.start = 0;
    }

    /// Reads further bytes, at most `left` of them, and counts them down.
    pub(crate) fn read<C: Source>(&mut self, conn: &mut C, left: &mut u64) -> Got
        requires clean { HasNoNewline self.old.bytes }
        requires room { LEAST_ROOM ≤ self.old.room }
        requires some { 0 < left.old }
        ensures stays { StaysBeside C.borrowed C.beside_read conn.old conn.new }
        ensures once { ReadsOnce C.incoming C.read_gives conn.old conn.new self.old.bytes self.new.bytes result left.old left.new }
        ensures told { TellsRead C.incoming result conn.old conn.new left.old left.new }
    {
        read_behind(conn, &mut self.buffer, &mut self.end, left)
    }
}
