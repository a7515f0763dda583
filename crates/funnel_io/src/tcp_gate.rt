ghost use Rattle.std.specs.Prelude.{◌≡◌, ◌<◌, ◌≤◌, ◌^◌, OnOk, IfOk, ⊤, true, false};
ghost use Rattle.std.specs.Option.{is_some};
ghost use Rattle.funnel_io.specs.Answers.{MatchNext, MatchOpening, gate_failed, opening_failed};
ghost use Rattle.funnel_io.specs.Counts.{counted};
ghost use Rattle.funnel_io.specs.Std.{IsSameGate, IsUnfailed, new_gate};

use crate::end::End;
use crate::gate::{Gate, Next, Opening};
use crate::listening::listen_on;
use crate::passing::passes;
use crate::shared_port::SharedPort;
use crate::tcp_conn::TcpConn;
use std::io;
use std::io::ErrorKind;
use std::marker::Model;
use std::net::{Net, OpenListener, TcpStream};
use std::time::{Clock, Duration};

/// A gate that listens on a port of 127.0.0.1 from its opening to its end, alone or with others on a shared port. It tells nothing
/// of its connections.
///
/// Where the system refuses a connection for want of descriptors or memory, or because the peer is
/// gone, the next one is waited for. Each other error of the system is a fault of the gate: nothing
/// is tried again.
///
/// A read or a write of a connection that waits for `idle` seconds is a fault of that connection.
/// With 0 it waits as long as it takes.
#[derive(Drop)]
pub struct TcpGate<'a, R: Net<Stream = TcpStream> + Clock> {
    rt: &'a R,
    port: u32,
    idle: u32,
    shared: Option<&'a SharedPort<R::Listener>>,
    listener: Option<R::Listener>,
    faults: u64,
    error: Option<io::Error>,
}

// A contract sees the port, whether it is a shared one, the seconds, whether it listens, and the count of the calls that failed.
impl<'a, R: Net<Stream = TcpStream> + Clock> Model for TcpGate<'a, R> {
    ghost use Rattle.std.specs.Prelude.{◌<◌, ◌^◌, IfSome};
    ghost use Rattle.std.specs.Option.{is_some};
    ghost use Rattle.funnel_io.specs.Std.{PortGate};

    ghost Value = { PortGate };

    ghost view = { λ g. record { port = g.port; shared = is_some g.shared; idle = g.idle; listens = is_some g.listener; faults = g.faults } };

    ghost invariant = { λ g. IfSome g.listener (λ _. g.port < 2 ^ 16) };
}

impl<'a, R: Net<Stream = TcpStream> + Clock> TcpGate<'a, R> {
    /// A gate on a port of its own, which does not listen yet. It takes no memory.
    pub fn new(rt: &'a R, port: u32, idle: u32) -> TcpGate<'a, R>
        ensures { result ≡ new_gate false idle port }
    {
        TcpGate::on(rt, port, idle, None)
    }

    /// A gate that does not listen yet, on a shared port where there is one, and else on its own. It takes no memory.
    pub fn on(
        rt: &'a R,
        port: u32,
        idle: u32,
        shared: Option<&'a SharedPort<R::Listener>>,
    ) -> TcpGate<'a, R>
        ensures { result ≡ new_gate (is_some shared.entry) idle port }
    {
        TcpGate {
            rt,
            port,
            idle,
            shared,
            listener: None,
            faults: 0,
            error: None,
        }
    }

    pub fn port(&self) -> u32
        ensures { result ≡ self.now.port }
    {
        self.port
    }

    /// What the system said of the last call that failed.
    pub fn error(&self) -> Option<io::Error> {
        self.error
    }

    /// Listens on its port, where there is such a port.
    fn listen(&self) -> io::Result<R::Listener>
        ensures { OnOk result (self.now.port < 2 ^ 16) }
    {
        let Ok(port) = u16::try_from(self.port) else {
            return Err(io::Error::from(ErrorKind::InvalidInput));
        };
        match self.shared {
            Some(shared) => shared.copy(self.rt, port),
            None => listen_on(self.rt, port),
        }
    }

    /// Waits for the next connection, where it listens.
    fn accept(&self) -> io::Result<TcpConn>
        ensures listens { OnOk result (self.now.listens ≡ true) }
        ensures port { OnOk result (self.now.port < 2 ^ 16) }
        ensures fresh { IfOk result IsUnfailed }
    {
        match &self.listener {
            Some(listener) => connection(next_stream(self.rt, listener)?, self.idle),
            None => Err(io::Error::from(ErrorKind::NotConnected)),
        }
    }

    /// Keeps what the system said, and counts the call that failed.
    fn fail(&mut self, error: io::Error)
        ensures same { IsSameGate self.old self.new }
        ensures listens { self.new.listens ≡ self.old.listens }
        ensures faults { self.new.faults ≡ counted true self.old.faults }
    {
        self.error = Some(error);
        self.faults = self.faults.saturating_add(1);
    }
}

impl<R: Net<Stream = TcpStream> + Clock> Gate for TcpGate<'_, R> {
    type Conn = TcpConn;

    ghost use Rattle.std.specs.Prelude.{None, false};

    ghost gate_faults = { λ g. g.faults };

    ghost waiting = { λ _. None };

    ghost is_closed = { λ _. false };

    ghost out = { λ _. 0 };

    ghost served = { λ _. None };

    /// A port above 65,535 can't be listened on, which is a fault too.
    fn open(&mut self) -> Opening
        ensures same { IsSameGate self.old self.new }
        ensures listens { MatchOpening result (self.new.listens ≡ true) (self.new.listens ≡ self.old.listens) }
        ensures there { MatchOpening result (self.old.port < 2 ^ 16) ⊤ }
        ensures faults { self.new.faults ≡ counted (opening_failed result) self.old.faults }
    {
        match self.listen() {
            Ok(listener) => {
                self.listener = Some(listener);
                Opening::Open
            }
            Err(error) => {
                self.fail(error);
                Opening::Fault
            }
        }
    }

    /// A gate that was not opened, or has ended, has no connection to give, which is a fault.
    fn next(&mut self) -> Next<TcpConn>
        ensures same { IsSameGate self.old self.new }
        ensures listens { self.new.listens ≡ self.old.listens }
        ensures faults { self.new.faults ≡ counted (gate_failed result) self.old.faults }
        ensures fresh { MatchNext result IsUnfailed ⊤ ⊤ }
        ensures listening { MatchNext result (λ _. self.old.listens ≡ true) ⊤ ⊤ }
        ensures there { MatchNext result (λ _. self.old.port < 2 ^ 16) ⊤ ⊤ }
        ensures never_closed { MatchNext result (λ _. ⊤) ⊥ ⊤ }
    {
        match self.accept() {
            Ok(conn) => Next::Conn(conn),
            Err(error) => {
                self.fail(error);
                Next::Fault
            }
        }
    }

    /// Ends what is written before the connection is closed. Where its session is done, what the peer still sends is first
    /// left aside, up to 65,536 bytes, its end, or for one second, so that it reads every reply.
    fn done(&mut self, conn: TcpConn, end: End)
        ensures same { self.new ≡ self.old }
    {
        match end {
            End::Done => conn.leave(self.rt),
            _ => conn.end_writing(),
        }
    }

    /// Listens no more, on a shared port by its own copy alone.
    fn end(&mut self)
        ensures same { IsSameGate self.old self.new }
        ensures listens { self.new.listens ≡ false }
        ensures faults { self.new.faults ≡ self.old.faults }
    {
        self.listener = None;
    }
}

// The stream of the next connection, after those that the system refused for a cause that passes.
fn next_stream<L: OpenListener>(clock: &impl Clock, listener: &L) -> io::Result<L::Stream> {
    for accepted in listener.incoming() {
        match accepted {
            Err(error) if passes(clock, &error) => {}
            ended => return ended,
        }
    }
    Err(io::Error::from(ErrorKind::TimedOut))
}

// The stream as a connection, whose small replies go out at once, and whose reads and writes wait
// for so many seconds, or as long as it takes where there are none.
fn connection(stream: TcpStream, idle: u32) -> io::Result<TcpConn>
    ensures fresh { IfOk result IsUnfailed }
{
    // Where the system refuses, a reply may wait a while.
    let _ = stream.set_nodelay(true);
    if idle > 0 {
        let most = Some(Duration::from_secs(u64::from(idle)));
        stream.set_read_timeout(most)?;
        stream.set_write_timeout(most)?;
    }
    Ok(TcpConn::new(stream))
}
