//! Programs over streams and gates in memory, as rows of tables. One function runs them.
use crate::endings::{Wanted, is_seen};
use crate::gates::{GateRow, gates_of};
use crate::setting::{Fails, Inputs, Streams, end_of, expect, streams_of};
use funnel_io::MemGate;
use std::alloc::{AllocError, Global};
use std::process::Abort;
use std::sync::Wait;
use std::thread::Threads;

/// A program, and how it has to end: its words, what it can read, which of its reads and writes fail, its gates, its status, and what
/// else has to be seen.
pub(crate) struct Row(
    pub &'static [&'static str],
    pub Inputs,
    pub Fails,
    pub &'static [GateRow],
    pub u8,
    pub Wanted,
);

/// The status of the program, and whether the rest is seen too.
pub(crate) fn seen<R: Threads + Wait + Sync>(
    rt: &R,
    alloc: Global,
    row: &Row,
) -> Result<(u8, bool), AllocError> {
    let mut streams = streams_of(alloc, row.1, row.2)?;
    seen_over(rt, alloc, row, &mut streams)
}

fn seen_over<R: Threads + Wait + Sync>(
    rt: &R,
    alloc: Global,
    row: &Row,
    streams: &mut Streams,
) -> Result<(u8, bool), AllocError> {
    let gates = gates_of(alloc, row.3)?;
    Ok(seen_with(rt, alloc, row, streams, gates))
}

/// The same over these streams and gates.
pub(crate) fn seen_with<R: Threads + Wait + Sync>(
    rt: &R,
    alloc: Global,
    row: &Row,
    streams: &mut Streams,
    gates: Vec<MemGate>,
) -> (u8, bool) {
    let ended = end_of(rt, alloc, row.0, streams, gates);
    let seen = is_seen(&ended, streams.output.bytes(), &row.5);
    (ended.status(), seen)
}

/// Expects each program to end as it has to.
pub(crate) fn expect_all<R: Threads + Wait + Abort + Sync>(
    rt: &R,
    alloc: Global,
    rows: &[Row],
) -> Result<(), AllocError> {
    for row in rows {
        let seen = seen(rt, alloc, row)?;
        expect(rt, (row.0, seen), (row.0, (row.4, true)));
    }
    Ok(())
}
