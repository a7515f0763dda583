//! Serves over gates in memory, some of whose calls, reads and writes fail.
use crate::endings::Wanted;
use crate::gates::{Conn, GateRow, one_gate};
use crate::rows::{Row, expect_all, seen_with};
use crate::setting::{NONE, SOUND, UNREAD, expect, streams_of};
use funnel_io::{End, MemGate};
use std::alloc::{AllocError, Global};
use std::test::Fail;

const ONE: &[&str] = &["serve", "--port", "7000", "--workers", "1"];

const TWO: &[&str] = &["serve", "--port", "7000", "--workers", "2"];

const LINES: &[u8] = b"add 7 The cat sat\nfind CAT\n";

const REPLIES: &[u8] = b"added 1\nfound 1 7\n";

const WHOLE: Conn = ((LINES, 27), NONE, NONE);

const FINDS: Conn = ((b"find cat", 8), NONE, NONE);

static SERVES: [Row; 4] = [
    // A gate that fails ends its worker alone, at its first call
    Row(
        TWO,
        (b"", UNREAD),
        SOUND,
        &[
            GateRow {
                conns: &[],
                fails: &[1],
                refuses: false,
            },
            OPENS,
        ],
        6,
        Wanted::Sessions(&[&[], &[(End::Done, REPLIES)]]),
    ),
    // and at a later one.
    Row(
        TWO,
        (b"", UNREAD),
        SOUND,
        &[
            GateRow {
                conns: &[FINDS, FINDS, FINDS],
                fails: NONE,
                refuses: false,
            },
            GateRow {
                conns: &[FINDS, FINDS, FINDS],
                fails: &[3],
                refuses: false,
            },
        ],
        6,
        Wanted::Sessions(&[
            &[
                (End::Done, b"found 0\n"),
                (End::Done, b"found 0\n"),
                (End::Done, b"found 0\n"),
            ],
            &[(End::Done, b"found 0\n"), (End::Done, b"found 0\n")],
        ]),
    ),
    // A connection that fails ends its session alone.
    Row(
        ONE,
        (b"", UNREAD),
        SOUND,
        &[GateRow {
            conns: &[((LINES, 27), &[1], NONE), WHOLE, ((LINES, 27), NONE, &[2])],
            fails: NONE,
            refuses: false,
        }],
        0,
        Wanted::Sessions(&[&[
            (End::ReadFault, b""),
            (End::Done, REPLIES),
            (End::WriteFault, b"refused present 1\n"),
        ]]),
    ),
    // No more connections are served than asked for.
    Row(
        &["serve", "--port=1", "--workers=1", "--connections=1"],
        (b"", UNREAD),
        SOUND,
        &[GateRow {
            conns: &[WHOLE, WHOLE, WHOLE],
            fails: NONE,
            refuses: false,
        }],
        0,
        Wanted::Sessions(&[&[(End::Done, REPLIES)]]),
    ),
];

#[test]
fn a_fault_ends_a_worker_or_a_session_alone(rt: HostRuntime) -> Result<(), Fail> {
    expect_all(&rt, rt.alloc(), &SERVES)?;
    Ok(())
}

const MANY: usize = 4_200;

/// Its gate is made by `many_connections`.
static MANY_CONNECTIONS: Row = Row(
    ONE,
    (b"", UNREAD),
    SOUND,
    &[],
    0,
    Wanted::Last(MANY, (End::Done, b"refused present 1\nfound 1 7\n")),
);

#[test]
fn many_connections_are_served(rt: HostRuntime) -> Result<(), Fail> {
    let mut streams = streams_of(rt.alloc(), (b"", UNREAD), SOUND)?;
    let gates = many_connections(rt.alloc())?;
    let seen = seen_with(&rt, rt.alloc(), &MANY_CONNECTIONS, &mut streams, gates);
    expect(&rt, seen, (0, true));
    Ok(())
}

fn many_connections(alloc: Global) -> Result<Vec<MemGate>, AllocError> {
    let conns = vec![in alloc; WHOLE; MANY]?;
    one_gate(alloc, &conns)
}

/// A gate with a connection.
const OPENS: GateRow = GateRow {
    conns: &[WHOLE],
    fails: NONE,
    refuses: false,
};

/// Such a gate that refuses to be opened.
const REFUSES: GateRow = GateRow {
    conns: &[WHOLE],
    fails: NONE,
    refuses: true,
};

static OPENINGS: [Row; 4] = [
    Row(
        TWO,
        (b"", UNREAD),
        SOUND,
        &[OPENS, OPENS],
        0,
        Wanted::Openings(&[(1, 1), (1, 1)]),
    ),
    Row(
        TWO,
        (b"", UNREAD),
        SOUND,
        &[REFUSES, OPENS],
        6,
        Wanted::Openings(&[(1, 0), (0, 0)]),
    ),
    Row(
        TWO,
        (b"", UNREAD),
        SOUND,
        &[OPENS, REFUSES],
        6,
        Wanted::Openings(&[(1, 0), (1, 0)]),
    ),
    Row(
        TWO,
        (b"", UNREAD),
        SOUND,
        &[REFUSES, REFUSES],
        6,
        Wanted::Openings(&[(1, 0), (0, 0)]),
    ),
];

#[test]
fn a_serve_opens_all_gates_or_serves_none(rt: HostRuntime) -> Result<(), Fail> {
    expect_all(&rt, rt.alloc(), &OPENINGS)?;
    Ok(())
}
