//! Gates in memory.
ghost use Rattle.std.specs.Prelude.{All, IfOk};
ghost use Rattle.funnel_io.specs.MemGates.{IsUnused};

use crate::setting::{NONE, Pieces, sink_of, source_of};
use funnel_io::{MemConn, MemGate};
use std::alloc::{AllocError, Global};

/// A connection: what it sends, and which of its reads and of its writes fail.
pub(crate) type Conn = (Pieces, &'static [u64], &'static [u64]);

/// A gate: the connections that wait on it, which of its calls fail, and whether it refuses to be opened.
pub(crate) struct GateRow {
    pub conns: &'static [Conn],
    pub fails: &'static [u64],
    pub refuses: bool,
}

/// A gate without a connection.
pub(crate) const CLOSED: GateRow = GateRow {
    conns: &[],
    fails: NONE,
    refuses: false,
};

fn conn_of(alloc: Global, conn: &Conn) -> Result<MemConn, AllocError>
    ensures { IfOk result IsUnused }
{
    let source = source_of(alloc, conn.0, conn.1)?;
    let sink = sink_of(alloc, 300, conn.2)?;
    Ok(MemConn::new(source, sink))
}

fn conns_of(alloc: Global, conns: &[Conn]) -> Result<Vec<MemConn>, AllocError>
    ensures { IfOk result (λ made. All IsUnused made.items) }
{
    let mut waiting = Vec::new(alloc);
    for conn in conns {
        waiting.push(conn_of(alloc, conn)?)?;
    }
    Ok(waiting)
}

fn gate_of(alloc: Global, row: &GateRow) -> Result<MemGate, AllocError> {
    let fails = row.fails.to_vec(alloc)?;
    let gate = MemGate::new(alloc, conns_of(alloc, row.conns)?, fails)?;
    Ok(if row.refuses { gate.refusing() } else { gate })
}

pub(crate) fn gates_of(alloc: Global, rows: &[GateRow]) -> Result<Vec<MemGate>, AllocError> {
    let mut gates = Vec::new(alloc);
    for row in rows {
        gates.push(gate_of(alloc, row)?)?;
    }
    Ok(gates)
}

/// One gate with these connections.
pub(crate) fn one_gate(alloc: Global, conns: &[Conn]) -> Result<Vec<MemGate>, AllocError> {
    let gate = MemGate::new(alloc, conns_of(alloc, conns)?, Vec::new(alloc))?;
    let mut gates = Vec::new(alloc);
    gates.push(gate)?;
    Ok(gates)
}
