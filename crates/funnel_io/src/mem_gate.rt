ghost use Rattle.std.specs.Prelude.{◌≡◌, ◌<◌, ◌≤◌, ◌+◌, ◌-◌, [], ◌∷◌, ◌++◌, Some, IfOk, map, ⊤, All, false, true};
ghost use Rattle.funnel_io.specs.MemGates.{MemGateState, IsEnded, IsNext, IsOpened, IsTakenBack, IsUnused, served_of};
ghost use Rattle.funnel_io.specs.Answers.{MatchNext};

use crate::duplex::MemConn;
use crate::end::End;
use crate::gate::{Gate, Next, Opening};
use crate::served_conn::ServedConn;
use std::alloc::{AllocError, Global};
use std::marker::Model;

/// A gate that hands out stored connections, and whose calls of `next` of given numbers fail. It can be made to refuse to be opened.
// The connections wait in reverse, and `total` is the number that waits, is out or was served.
#[derive(Debug, Drop)]
pub struct MemGate {
    waiting: Vec<MemConn>,
    total: usize,
    served: Vec<ServedConn>,
    calls: u64,
    fails: Vec<u64>,
    faults: u64,
    refuses: bool,
    opened: u64,
    ended: u64,
}

impl Model for MemGate {
    ghost use Rattle.std.specs.Prelude.{◌+◌, ◌-◌, ◌≤◌, All, reverse, vec_len, vec_capacity};
    ghost use Rattle.funnel_io.specs.MemGates.{MemGateState, IsUnused};

    ghost Value = { MemGateState };

    ghost view = { λ g. record {
      waiting = reverse g.waiting.items;
      out = g.total - (vec_len g.waiting + vec_len g.served);
      served = g.served.items;
      calls = g.calls;
      fails = g.fails.items;
      faults = g.faults;
      refuses = g.refuses;
      opened = g.opened;
      ended = g.ended;
    } };

    ghost invariant = { λ g. (vec_len g.waiting + vec_len g.served ≤ g.total) × (g.total ≤ vec_capacity g.served) × All IsUnused g.waiting.items };
}

impl MemGate {
    /// A gate of these connections, which were not used yet. Calls of `next` are numbered from 1,
    /// and those in `fails` fail.
    pub fn new(
        alloc: Global,
        mut waiting: Vec<MemConn>,
        fails: Vec<u64>,
    ) -> Result<MemGate, AllocError>
        requires { All IsUnused waiting.items }
        ensures { IfOk result (λ gate. gate ≡ record {
          waiting = waiting.items;
          out = 0;
          served = [];
          calls = 0;
          fails = fails.items;
          faults = 0;
          refuses = false;
          opened = 0;
          ended = 0;
        }) }
    {
        let total = waiting.len();
        let served = Vec::with_capacity(alloc, total)?;
        waiting.reverse();
        Ok(MemGate {
            waiting,
            total,
            served,
            calls: 0,
            fails,
            faults: 0,
            refuses: false,
            opened: 0,
            ended: 0,
        })
    }

    /// The same gate, which refuses to be opened.
    pub fn refusing(self) -> MemGate
        ensures { result ≡ record self { refuses = true } }
    {
        MemGate {
            refuses: true,
            ..self
        }
    }

    /// How many calls of `open` were made.
    pub fn opened(&self) -> u64
        ensures { result ≡ self.now.opened }
    {
        self.opened
    }

    /// How many calls of `end` were made.
    pub fn ended(&self) -> u64
        ensures { result ≡ self.now.ended }
    {
        self.ended
    }

    /// The connections that came back, oldest first.
    pub fn served(&self) -> &[ServedConn]
        ensures { result.now ≡ self.now.served }
    {
        &self.served
    }
}

impl Gate for MemGate {
    type Conn = MemConn;

    ghost use Rattle.std.specs.Prelude.{◌==◌, Some, length, map};
    ghost use Rattle.funnel_io.specs.MemGates.{IsEnded, IsNext, IsOpened, IsTakenBack, served_of};

    ghost gate_faults = { λ g. g.faults };

    ghost waiting = { λ g. Some g.waiting };

    ghost is_closed = { λ g. length g.waiting == 0 };

    ghost out = { λ g. g.out };

    ghost served = { λ g. Some (map served_of g.served) };

    ghost next_gives = { IsNext };

    ghost done_gives = { IsTakenBack };

    ghost open_gives = { IsOpened };

    ghost end_gives = { IsEnded };

    fn open(&mut self) -> Opening
        ensures { IsOpened self.old result self.new }
    {
        self.opened = self.opened.saturating_add(1);
        if self.refuses {
            self.faults = self.faults.saturating_add(1);
            return Opening::Fault;
        }
        Opening::Open
    }

    fn next(&mut self) -> Next<MemConn>
        ensures fresh { MatchNext result IsUnused ⊤ ⊤ }

        // Which calls fail, and what each other one gives.
        ensures exact { IsNext self.old result self.new }
    {
        self.calls = self.calls.saturating_add(1);
        if self.fails.contains(&self.calls) {
            self.faults = self.faults.saturating_add(1);
            return Next::Fault;
        }
        match self.waiting.pop() {
            Some(conn) => Next::Conn(conn),
            None => Next::Closed,
        }
    }

    fn done(&mut self, conn: MemConn, end: End)
        requires { 0 < self.old.out }
        ensures { IsTakenBack self.old conn end self.new }
    {
        let served = ServedConn {
            conn,
            session_end: end,
        };
        self.served.push(served).unwrap();
    }

    fn end(&mut self)
        ensures { IsEnded self.old self.new }
    {
        self.ended = self.ended.saturating_add(1);
    }
}
