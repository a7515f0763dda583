//! A gate in memory.
ghost use Rattle.std.specs.Prelude.{IfOk};
ghost use Rattle.funnel_io.specs.MemGates.{IsUnused};

use crate::streams::source_of;
use funnel_io::{
    Connection, End, Gate, Got, MemConn, MemGate, MemSink, Next, Opening, ServedConn, WriteFailed,
    write_all,
};
use std::alloc::{AllocError, Global};
use std::process::Abort;
use std::test::Fail;

fn conn_of(alloc: Global, piece: &[u8]) -> Result<MemConn, AllocError>
    ensures { IfOk result IsUnused }
{
    let source = source_of(alloc, &[piece], &[])?;
    Ok(MemConn::new(source, MemSink::new(alloc, 8, Vec::new(alloc))?))
}

/// A gate of two connections, whose second call of `next` fails.
fn gate_of_two(alloc: Global) -> Result<MemGate, Fail> {
    let mut waiting = Vec::new(alloc);
    waiting.push(conn_of(alloc, b"a")?)?;
    waiting.push(conn_of(alloc, b"b")?)?;
    Ok(MemGate::new(alloc, waiting, [2].to_vec(alloc)?)?)
}

/// Reads once and answers.
fn serve<C: Connection>(conn: &mut C, room: &mut [u8; 4]) -> End {
    match conn.read(room) {
        Got::Bytes(_) => match write_all(conn, b"ok") {
            Ok(()) => End::Done,
            Err(WriteFailed) => End::WriteFault,
        },
        Got::End => End::Done,
        Got::Failed => End::ReadFault,
    }
}

/// Takes the next connection, serves it, and gives it back: its end and the first byte that was read.
fn serve_one<G: Gate>(gate: &mut G) -> Option<(End, u8)> {
    let Next::Conn(mut conn) = gate.next() else {
        return None;
    };
    let mut room = [0; 4];
    let end = serve(&mut conn, &mut room);
    gate.done(conn, end);
    Some((end, room[0]))
}

fn expect_serves<R: Abort, G: Gate>(rt: &R, gate: &mut G, wanted: &[Option<(End, u8)>]) {
    for end in wanted {
        assert_eq!(rt; serve_one(gate), *end);
    }
}

/// Expects so many connections back, each of which got its reply.
fn expect_replies<R: Abort>(rt: &R, served: &[ServedConn], count: usize) {
    assert_eq!(rt; served.len(), count);
    for one in served {
        assert_eq!(rt; one.conn.sink.bytes(), b"ok".as_slice());
    }
}

#[test]
fn a_gate_hands_out_its_connections_in_order(rt: HostRuntime) -> Result<(), Fail> {
    let mut gate = gate_of_two(rt.alloc())?;
    let (first, second) = (Some((End::Done, b'a')), Some((End::Done, b'b')));
    expect_serves(&rt, &mut gate, &[first, None, second, None]);
    expect_replies(&rt, gate.served(), 2);
    Ok(())
}

/// What two openings of a gate give, which is ended after each.
fn openings<G: Gate>(gate: &mut G) -> [Opening; 2] {
    let first = gate.open();
    gate.end();
    let second = gate.open();
    gate.end();
    [first, second]
}

#[test]
fn a_gate_opens_unless_it_refuses(rt: HostRuntime) -> Result<(), Fail> {
    let mut gate = gate_of_two(rt.alloc())?;
    assert_eq!(rt; openings(&mut gate), [Opening::Open; 2]);
    let mut gate = gate.refusing();
    assert_eq!(rt; openings(&mut gate), [Opening::Fault; 2]);
    assert_eq!(rt; (gate.opened(), gate.ended()), (4, 4));
    Ok(())
}
