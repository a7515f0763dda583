ghost use Rattle.std.specs.Prelude.{◌≡◌, ◌<◌, ◌+◌, ℕ, Bool, true, false, List, [], ◌∷◌, ◌++◌, Option, IfSome, OnSome, ⊤};
ghost use Rattle.std.specs.Option.{option_map};
ghost use Rattle.funnel_io.specs.Counts.{counted};
ghost use Rattle.funnel_io.specs.Answers.{MatchNext, gate_failed, opening_failed};
ghost use Rattle.funnel_io.specs.Served.{Served, served_as, IsFresh};

use crate::connection::Connection;
use crate::end::End;

/// What a gate gave.
#[derive(Debug, Drop)]
pub enum Next<C> {
    /// The next connection.
    Conn(C),
    /// No connection waits any more.
    Closed,
    /// The gate failed.
    Fault,
}

/// Whether a gate opened.
#[derive(Clone, Copy, Debug, PartialEq, Eq)]
pub enum Opening {
    /// It did.
    Open,
    /// The gate failed.
    Fault,
}

/// Where connections come from, and where they go back to. Whoever uses a gate opens it before it asks for the first connection,
/// and ends it when it asks for no more.
pub trait Gate {
    type Conn: Connection;

    ghost use Rattle.funnel_io.specs.declared.end.End.{End};
    ghost use Rattle.funnel_io.specs.declared.gate.Next.{Next};
    ghost use Rattle.funnel_io.specs.declared.gate.Opening.{Opening};

    // How many calls of `open` and of `next` failed, up to the counter's last value.
    ghost gate_faults: { Self → ℕ };

    // The connections that wait, in the order in which they come, where the gate tells them.
    ghost waiting: { Self → Option (List Self.Conn) };

    // Whether no connection comes any more. A gate that never closes tells so by it, also where it tells nothing of those that wait.
    ghost is_closed: { Self → Bool };

    // How many of its connections are out, where the gate tells the waiting ones.
    ghost out: { Self → ℕ };

    // The connections that came back, oldest first, where the gate tells them.
    ghost served: { Self → Option (List Served) };

    // What else a gate tells of its calls: that an `open` and a `next` with their answers, a `done` with what it was handed, and an
    // `end` lead from one state to the next. So a caller can't leave one out where it says which calls it made.
    ghost open_gives: { Self → Opening → Self → Type 0 } = { λ _ _ _. ⊤ };

    ghost next_gives: { Self → Next Self.Conn → Self → Type 0 } = { λ _ _ _. ⊤ };

    ghost done_gives: { Self → Self.Conn → End → Self → Type 0 } = { λ _ _ _ _. ⊤ };

    ghost end_gives: { Self → Self → Type 0 } = { λ _ _. ⊤ };

    /// Gets ready to hand out connections, as by listening on a port. A gate that failed has not become ready.
    fn open(&mut self) -> Opening
        ensures faults { gate_faults self.new ≡ counted (opening_failed result) (gate_faults self.old) }
        ensures waiting { waiting self.new ≡ waiting self.old }
        ensures served { served self.new ≡ served self.old }
        ensures is_closed { is_closed self.new ≡ is_closed self.old }
        ensures out { out self.new ≡ out self.old }
        ensures gives { open_gives self.old result self.new };

    /// Waits for the next connection and hands it out.
    fn next(&mut self) -> Next<Self::Conn>
        ensures faults { gate_faults self.new ≡ counted (gate_failed result) (gate_faults self.old) }
        ensures served { served self.new ≡ served self.old }
        ensures waiting { MatchNext result
            (λ conn. waiting self.old ≡ option_map (λ rest. conn ∷ rest) (waiting self.new))
            (waiting self.new ≡ waiting self.old)
            (waiting self.new ≡ waiting self.old) }
        ensures out { MatchNext result
            (λ _. OnSome (waiting self.old) (out self.new ≡ out self.old + 1))
            (out self.new ≡ out self.old)
            (out self.new ≡ out self.old) }
        ensures fresh { MatchNext result
            (λ conn. IsFresh (Self.Conn.incoming conn) (Self.Conn.outgoing conn)) ⊤ ⊤ }
        ensures closed { MatchNext result (λ _. ⊤) (IfSome (waiting self.old) (λ conns. conns ≡ [])) ⊤ }
        ensures is_closed { MatchNext result
            (λ _. is_closed self.old ≡ false)
            (is_closed self.new ≡ true)
            (is_closed self.new ≡ is_closed self.old) }
        ensures gives { next_gives self.old result self.new };

    /// Takes back a connection of its own, with the end of its session.
    fn done(&mut self, conn: Self::Conn, end: End)
        requires { OnSome (waiting self.old) (0 < out self.old) }
        ensures count { gate_faults self.new ≡ gate_faults self.old }
        ensures waiting { waiting self.new ≡ waiting self.old }
        ensures is_closed { is_closed self.new ≡ is_closed self.old }
        ensures out { OnSome (waiting self.old) (out self.old ≡ out self.new + 1) }
        ensures served { served self.new ≡ option_map
            (λ list. list ++ served_as (Self.Conn.incoming conn) (Self.Conn.outgoing conn) end ∷ [])
            (served self.old) }
        ensures gives { done_gives self.old conn end self.new };

    /// Lets go of all by which it hands out connections, as of the port that it listens on.
    fn end(&mut self)
        ensures faults { gate_faults self.new ≡ gate_faults self.old }
        ensures waiting { waiting self.new ≡ waiting self.old }
        ensures served { served self.new ≡ served self.old }
        ensures is_closed { is_closed self.new ≡ is_closed self.old }
        ensures out { out self.new ≡ out self.old }
        ensures gives { end_gives self.old self.new };
}
