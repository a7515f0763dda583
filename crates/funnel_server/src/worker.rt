ghost use Rattle.std.specs.Prelude.{◌≡◌, ◌<◌, false, true, MatchBool};
ghost use Rattle.engine.specs.Clients.{caller_of};
ghost use Rattle.http_front.specs.Turns.{request_by_request};
ghost use Rattle.session.specs.Turns.{StopsReading, line_by_line};
ghost use Rattle.session.specs.declared.serving.TheConstants.{MOST_BYTES};
ghost use Rattle.funnel_server.specs.GateTurns.{WorksInTurns};
ghost use Rattle.funnel_server.specs.Sessions.{IsServed};
ghost use Rattle.funnel_server.specs.Turns.{AsksInVain, ServesInTurn, StopsInTurns};
ghost use Rattle.funnel_server.specs.Workers.{HasMetNoFault, is_memory};

use engine::{Client, PoolName};
use funnel_io::{Connection, End, Gate, Next};
use http_front::serve_http;
use session::{MOST_BYTES, serve_session};
use std::marker::Model;
use std::sync::Wait;

/// What answers the connections of a gate by one pass of an engine. Contracts see the gate itself, and what it and the client tell.
#[derive(Drop)]
pub struct Worker<'a, G: Gate, N: PoolName, R: Wait> {
    pub gate: G,
    pub client: Client<'a, N, R>,
    /// Whether it answers requests over HTTP, and no lines.
    pub http: bool,
    /// How many more connections it serves.
    pub left: u64,
    /// Whether the gate failed.
    pub fault: bool,
    /// Whether a session found no memory.
    pub memory: bool,
}

impl<'a, G: Gate, N: PoolName, R: Wait> Model for Worker<'a, G, N, R> {
    ghost use Rattle.engine.specs.Clients.{caller_of};
    ghost use Rattle.funnel_server.specs.Gates.{gate_state};
    ghost use Rattle.funnel_server.specs.Workers.{WorkerWithGate};
    ghost use Rattle.std.specs.Coded.{codes};
    ghost use Rattle.funnel_model.specs.contracts.expr.Expr as expr;

    ghost Value = { WorkerWithGate G };

    ghost coded = { Prim.hlevel (codes, expr.the_row.coded) };

    ghost view = { λ w. record {
      gate = w.gate;
      state = record {
        gate = gate_state G.Gate G.Conn.Source G.Conn.Sink w.gate;
        caller = caller_of N.pool.config N.pool.limits w.client;
        front = w.client.front;
        http = w.http;
        left = w.left;
        fault = w.fault;
        memory = w.memory;
      };
    } };
}

impl<'a, G: Gate, N: PoolName, R: Wait> Worker<'a, G, N, R> {
    /// Serves the connections of its gate, until it stops, and ends the gate.
    pub(crate) fn work(&mut self)
        requires { HasMetNoFault self.old.state }
        ensures { WorksInTurns G.Gate G.Conn.Source.own G.Conn.Sink.own self.old self.new }
    {
        self.serve_all();
        self.gate.end();
    }

    /// Serves the connections of its gate, until it stops.
    fn serve_all(&mut self)
        requires { HasMetNoFault self.old.state }
        ensures { StopsInTurns G.Gate G.Conn.Source.own G.Conn.Sink.own self.old self.new }
    {
        while self.left > 0 {
            if !self.serve_next() {
                return;
            }
        }
    }

    /// Serves the next connection, or says that there is none.
    fn serve_next(&mut self) -> bool
        requires some { 0 < self.old.state.left }
        requires no_fault { self.old.state.fault ≡ false }
        ensures { MatchBool result
            (ServesInTurn G.Gate G.Conn.Source.own G.Conn.Sink.own self.old self.new)
            (AsksInVain G.Gate self.old self.new) }
    {
        let mut conn = match self.gate.next() {
            Next::Conn(conn) => conn,
            Next::Closed => return false,
            Next::Fault => {
                self.fault = true;
                return false;
            }
        };
        let end = serve_conn(self.http, &mut self.client, &mut conn);
        self.gate.done(conn, end);
        self.left -= 1;
        self.memory |= found_no_memory(end);
        true
    }
}

/// Answers the requests of a connection, or its lines.
fn serve_conn<N: PoolName, R: Wait, C: Connection>(
    http: bool,
    client: &mut Client<'_, N, R>,
    conn: &mut C,
) -> End
    ensures caller { caller_of N.pool.config N.pool.limits client.new ≡ caller_of N.pool.config N.pool.limits client.old }
    ensures serves { IsServed http (caller_of N.pool.config N.pool.limits client.old)
        record { front = client.old.front; incoming = C.incoming conn.old; outgoing = C.outgoing conn.old }
        record { front = client.new.front; incoming = C.incoming conn.new; outgoing = C.outgoing conn.new }
        result }
    ensures by_line { http ≡ false → StopsReading line_by_line C.read_gives C.write_gives MOST_BYTES (result ≡ End.Done) conn.old conn.new }
    ensures by_request { http ≡ true → StopsReading request_by_request C.read_gives C.write_gives MOST_BYTES (result ≡ End.Done) conn.old conn.new }
    ensures untouched { result ≡ End.Memory → (conn.new ≡ conn.old) × (client.new ≡ client.old) }
{
    let alloc = client.alloc;
    if http {
        serve_http(alloc, client, conn, MOST_BYTES)
    } else {
        serve_session(alloc, client, conn, MOST_BYTES)
    }
}

/// Whether a session that ended so found no memory.
fn found_no_memory(end: End) -> bool
    ensures { result ≡ is_memory end }
{
    matches!(end, End::Memory)
}
