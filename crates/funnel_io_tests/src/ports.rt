//! A gate on a port.
use crate::network::{Network, Seen};
use funnel_io::{
    Connection, End, Gate, Got, Line, LineReader, Next, Opening, Put, SharedPort, Source, TcpGate,
    write_all,
};
use std::alloc::{AllocError, Global};
use std::io::{ErrorKind, Read, Write};
use std::net::{Ipv4Addr, Shutdown, SocketAddr, TcpListener, TcpStream};
use std::test::Fail;
use std::time::Duration;
use std::{io, thread};

fn listen_anywhere(rt: &HostRuntime) -> io::Result<(TcpListener, u16)> {
    let listener = TcpListener::bind(rt, (Ipv4Addr::LOCALHOST, 0))?;
    let port = listener.local_addr()?.port();
    Ok((listener, port))
}

/// A port that nobody listens on.
fn free_port(rt: &HostRuntime) -> io::Result<u16> {
    let (_listener, port) = listen_anywhere(rt)?;
    Ok(port)
}

/// Connects once the port is listened on.
fn connect(rt: &HostRuntime, port: u16) -> io::Result<TcpStream> {
    for _ in 0..10_000 {
        if let Ok(stream) = TcpStream::connect(rt, (Ipv4Addr::LOCALHOST, port)) {
            return Ok(stream);
        }
        thread::sleep(rt, Duration::from_millis(1));
    }
    Err(io::Error::from(ErrorKind::TimedOut))
}

/// Writes two lines in two pieces, and ends what it writes.
fn send_lines(rt: &HostRuntime, stream: &mut TcpStream) -> io::Result<()> {
    stream.write_all(b"one\ntw")?;
    thread::sleep(rt, Duration::from_millis(1));
    stream.write_all(b"o\n")?;
    stream.shutdown(Shutdown::Write)
}

/// Sends the lines, and reads to their end what comes back. Gives whether it is the lines.
fn ask(rt: &HostRuntime, port: u16) -> io::Result<bool> {
    let mut stream = connect(rt, port)?;
    send_lines(rt, &mut stream)?;
    let mut replies = Vec::new(rt.alloc());
    stream.read_to_end(&mut replies)?;
    Ok(replies.as_slice() == b"one\ntwo\n".as_slice())
}

fn ask_twice(rt: &HostRuntime, port: u16) -> bool {
    matches!(ask(rt, port), Ok(true)) && matches!(ask(rt, port), Ok(true))
}

/// Answers each line of a connection by itself, until no further line is whole, and gives the last answer.
fn echo_lines<C: Connection>(conn: &mut C, reader: &mut LineReader) -> Line {
    let mut left = u64::MAX;
    for _ in 0..u64::MAX {
        let line = reader.next_line(conn, &mut left);
        if line != Line::Whole {
            return line;
        }
        if write_all(conn, reader.line()).is_err() || write_all(conn, b"\n").is_err() {
            return Line::Failed;
        }
    }
    Line::Limit
}

/// Answers the lines of the next connection, and gives the last answer.
fn echo<G: Gate>(gate: &mut G, reader: &mut LineReader) -> Line {
    let Next::Conn(mut conn) = gate.next() else {
        return Line::Failed;
    };
    let line = echo_lines(&mut conn, reader);
    gate.done(conn, End::Done);
    line
}

/// Whether a gate that is opened answers the lines of the next two connections to their end.
fn echo_twice<G: Gate>(gate: &mut G, alloc: Global) -> Result<bool, AllocError> {
    if gate.open() == Opening::Fault {
        return Ok(false);
    }
    let first = echo(gate, &mut LineReader::new(alloc)?);
    let second = echo(gate, &mut LineReader::new(alloc)?);
    Ok((first, second) == (Line::Finished, Line::Finished))
}

#[test]
fn lines_are_answered_over_tcp(rt: HostRuntime) -> Result<(), Fail> {
    let port = free_port(&rt)?;
    let mut gate = TcpGate::new(&rt, u32::from(port), 0);
    let (rt, alloc, gate) = (&rt, rt.alloc(), &mut gate);
    let done = thread::join(
        rt,
        move || echo_twice(gate, alloc),
        move || ask_twice(rt, port),
    );
    assert_eq!(rt; done, (Ok(true), true));
    Ok(())
}

/// Sends more than is read, and reads to its end what comes back. Gives whether it is the reply.
fn send_too_much(rt: &HostRuntime, port: u16) -> io::Result<bool> {
    let mut stream = connect(rt, port)?;
    stream.write_all(&[b'x'; 60_000])?;
    let mut reply = Vec::new(rt.alloc());
    stream.read_to_end(&mut reply)?;
    Ok(reply.as_slice() == b"enough\n".as_slice())
}

/// Whether a gate that is opened answers the first bytes of the next connection, which is done then.
fn answer_early<G: Gate>(gate: &mut G) -> bool {
    if gate.open() == Opening::Fault {
        return false;
    }
    let Next::Conn(mut conn) = gate.next() else {
        return false;
    };
    let got = conn.read(&mut [0; 4]);
    let written = write_all(&mut conn, b"enough\n").is_ok();
    gate.done(conn, End::Done);
    written && got == Got::Bytes(4)
}

#[test]
fn a_reply_is_read_though_more_was_sent(rt: HostRuntime) -> Result<(), Fail> {
    let port = free_port(&rt)?;
    let mut gate = TcpGate::new(&rt, u32::from(port), 0);
    let (rt, gate) = (&rt, &mut gate);
    let done = thread::join(
        rt,
        move || answer_early(gate),
        move || matches!(send_too_much(rt, port), Ok(true)),
    );
    assert_eq!(rt; done, (true, true));
    Ok(())
}

/// Whether the gate does not open.
fn fails<G: Gate>(gate: &mut G) -> bool {
    gate.open() == Opening::Fault
}

/// What the gate gives next, once it is opened.
fn opened_next<G: Gate>(gate: &mut G) -> Next<G::Conn> {
    match gate.open() {
        Opening::Open => gate.next(),
        Opening::Fault => Next::Fault,
    }
}

/// Whether a gate on the port fails twice.
fn fails_on(rt: &HostRuntime, port: u32) -> bool {
    let mut gate = TcpGate::new(rt, port, 0);
    fails(&mut gate) && fails(&mut gate)
}

#[test]
fn a_port_that_cannot_be_listened_on_is_a_fault(rt: HostRuntime) -> Result<(), Fail> {
    let (_taken, port) = listen_anywhere(&rt)?;
    for port in [u32::from(port), 65_536, u32::MAX] {
        assert!(rt; fails_on(&rt, port), "{port}");
    }
    Ok(())
}

/// How often a network is asked that can't be listened on, where so many calls of a gate on it fail.
fn asked_by(calls: u64) -> u64 {
    let seen = Seen::nothing();
    let network = Network {
        listener: None,
        refusal: None,
        seen: &seen,
    };
    let mut gate = TcpGate::new(&network, 7000, 0);
    for _ in 0..calls {
        if !fails(&mut gate) {
            return u64::MAX;
        }
    }
    seen.calls.get()
}

#[test]
fn a_call_that_failed_is_not_made_again(rt: HostRuntime) {
    for calls in 1..4 {
        assert_eq!(rt; asked_by(calls), calls);
    }
}

/// Takes the next connection of a gate on the port 7000 and is done with it. Gives whether a small reply goes out at once.
fn take_one(network: &Network<'_>) -> io::Result<bool> {
    let mut gate = TcpGate::new(network, 7000, 0);
    let Next::Conn(conn) = opened_next(&mut gate) else {
        return Ok(false);
    };
    let at_once = network.seen.is_at_once();
    gate.done(conn, End::Done);
    at_once
}

/// What a gate did that took one connection: where it listened, whether it sends small replies at once, and how many bytes
/// the client reads then.
type Taken = (Option<SocketAddr>, bool, usize);

/// The network keeps a handle of the connection, so that the client reads its end only where the gate said it.
fn taken(rt: &HostRuntime, listener: &TcpListener, port: u16) -> io::Result<Taken> {
    let mut client = connect(rt, port)?;
    client.set_read_timeout(Some(Duration::from_secs(10)))?;
    let seen = Seen::nothing();
    let listener = Some(listener);
    let at_once = take_one(&Network {
        listener,
        refusal: None,
        seen: &seen,
    })?;
    Ok((seen.address.get(), at_once, client.read(&mut [0; 4])?))
}

#[test]
fn a_gate_listens_at_home_and_ends_its_connections(rt: HostRuntime) -> Result<(), Fail> {
    let (listener, port) = listen_anywhere(&rt)?;
    let taken = taken(&rt, &listener, port)?;
    let home = SocketAddr::from((Ipv4Addr::LOCALHOST, 7000));
    assert_eq!(rt; taken, (Some(home), true, 0));
    Ok(())
}

/// Whether a gate on a network that refuses the first connection with this error gives the next one, and how long it waited.
fn taken_after(rt: &HostRuntime, code: i32) -> io::Result<(bool, Duration)> {
    let (listener, port) = listen_anywhere(rt)?;
    let _client = connect(rt, port)?;
    let seen = Seen::nothing();
    let network = Network {
        listener: Some(&listener),
        refusal: Some(code),
        seen: &seen,
    };
    let mut gate = TcpGate::new(&network, 7000, 0);
    let taken = matches!(opened_next(&mut gate), Next::Conn(_));
    Ok((taken, seen.waited.get()))
}

/// Errors of Linux: no descriptor of the process or of the system, no memory, and no room for buffers.
static LACKS: [i32; 4] = [24, 23, 12, 105];

/// Errors of Linux: the peer broke the protocol, gave the connection up or reset it, its network or host is out of reach, or it
/// didn't answer in time.
static GONE: [i32; 6] = [71, 103, 104, 101, 113, 110];

#[test]
fn a_refusal_that_passes_is_no_fault(rt: HostRuntime) -> Result<(), Fail> {
    for code in LACKS {
        assert_eq!(rt;
            taken_after(&rt, code)?,
            (true, Duration::from_millis(50)),
            "{code}"
        );
    }
    for code in GONE {
        assert_eq!(rt; taken_after(&rt, code)?, (true, Duration::ZERO), "{code}");
    }
    Ok(())
}

#[test]
fn a_refusal_for_good_is_a_fault(rt: HostRuntime) -> Result<(), Fail> {
    for code in [1, 9, 22] {
        assert_eq!(rt; taken_after(&rt, code)?, (false, Duration::ZERO), "{code}");
    }
    Ok(())
}

/// What a read gives of a client that sends nothing.
fn read_from_silent<C: Connection>(conn: &mut C) -> Got {
    conn.read(&mut [0; 4])
}

/// The last of many writes to a client that reads nothing.
fn write_to_deaf<C: Connection>(conn: &mut C) -> Put {
    for _ in 0..10_000 {
        if conn.write(&[b'x'; 65_536]) == Put::Failed {
            return Put::Failed;
        }
    }
    Put::Bytes(0)
}

/// What a connection gives whose client does nothing, by a gate that lets it wait for a second.
fn idle_answers(rt: &HostRuntime) -> io::Result<(Got, Put)> {
    let (listener, port) = listen_anywhere(rt)?;
    let _client = connect(rt, port)?;
    let seen = Seen::nothing();
    let network = Network {
        listener: Some(&listener),
        refusal: None,
        seen: &seen,
    };
    let mut gate = TcpGate::new(&network, 7000, 1);
    match opened_next(&mut gate) {
        Next::Conn(mut conn) => Ok((read_from_silent(&mut conn), write_to_deaf(&mut conn))),
        Next::Closed | Next::Fault => Err(io::Error::from(ErrorKind::NotConnected)),
    }
}

#[test]
fn an_idle_client_is_a_fault_of_its_connection(rt: HostRuntime) -> Result<(), Fail> {
    assert_eq!(rt; idle_answers(&rt)?, (Got::Failed, Put::Failed));
    Ok(())
}

/// Whether the gate fails where it is asked for a connection before it is opened, and after its end.
fn fails_while_closed<G: Gate>(gate: &mut G) -> (bool, bool)
where
    G::Conn: Drop,
{
    let before = matches!(gate.next(), Next::Fault);
    let opened = gate.open() == Opening::Open;
    gate.end();
    (before, opened && matches!(gate.next(), Next::Fault))
}

#[test]
fn a_gate_listens_from_its_opening_to_its_end(rt: HostRuntime) -> Result<(), Fail> {
    let port = free_port(&rt)?;
    let mut gate = TcpGate::new(&rt, u32::from(port), 0);
    assert_eq!(rt; fails_while_closed(&mut gate), (true, true));
    // The port is free again.
    let _listener = TcpListener::bind(&rt, (Ipv4Addr::LOCALHOST, port))?;
    Ok(())
}

/// Whether each of two gates on a shared port, the first of which ends between, takes a connection.
fn share(rt: &HostRuntime, port: u16) -> io::Result<[bool; 2]> {
    let shared = SharedPort::new();
    let mut one = TcpGate::on(rt, u32::from(port), 0, Some(&shared));
    let mut other = TcpGate::on(rt, u32::from(port), 0, Some(&shared));
    if fails(&mut one) || fails(&mut other) {
        return Ok([false, false]);
    }
    let _first = connect(rt, port)?;
    let by_one = matches!(one.next(), Next::Conn(_));
    one.end();
    let _second = connect(rt, port)?;
    Ok([by_one, matches!(other.next(), Next::Conn(_))])
}

#[test]
fn gates_share_a_port(rt: HostRuntime) -> Result<(), Fail> {
    assert_eq!(rt; share(&rt, free_port(&rt)?)?, [true, true]);
    Ok(())
}
