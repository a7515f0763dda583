//! Which commands words are, on which ports a serve listens, and what doesn't fit.
use crate::endings::Wanted;
use crate::gates::CLOSED;
use crate::rows::{Row, expect_all};
use crate::setting::{SOUND, UNREAD, expect};
use funnel::{
    Command, FitCommand, LoadCommand, Misfit, ServeCommand, ports, read_command, shares_port,
};
use std::alloc::{AllocError, Global};
use std::test::Fail;

// What the rows of the gate don't show: the numbers that are meant where none are given, and those of a serve.
static COMMANDS: [(&[&str], Command); 9] = [
    (&["run"], Command::Run),
    (
        &["load", "--docs", "5"],
        Command::Load(LoadCommand {
            docs: 5,
            workers: 1,
            words: 80,
            seed: 0,
        }),
    ),
    (
        &["load", "--workers=64", "--seed=7", "--words=9", "--docs=+5"],
        Command::Load(LoadCommand {
            docs: 5,
            workers: 64,
            words: 9,
            seed: 7,
        }),
    ),
    (
        &["serve", "--port", "7000", "--workers", "2"],
        Command::Serve(ServeCommand {
            port: 7_000,
            workers: 2,
            connections: 4_294_967_296,
            idle: 0,
            one_port: false,
            http: false,
        }),
    ),
    (
        &["serve", "--workers=1", "--connections=1", "--port=1"],
        Command::Serve(ServeCommand {
            port: 1,
            workers: 1,
            connections: 1,
            idle: 0,
            one_port: false,
            http: false,
        }),
    ),
    (
        &[
            "serve",
            "--port",
            "65535",
            "--workers",
            "64",
            "--connections",
            "4294967296",
        ],
        Command::Serve(ServeCommand {
            port: 65_535,
            workers: 64,
            connections: 4_294_967_296,
            idle: 0,
            one_port: false,
            http: false,
        }),
    ),
    (
        &[
            "serve",
            "--port",
            "007",
            "--workers",
            "+5",
            "--connections",
            "+9",
            "--idle=86400",
        ],
        Command::Serve(ServeCommand {
            port: 7,
            workers: 5,
            connections: 9,
            idle: 86_400,
            one_port: false,
            http: false,
        }),
    ),
    (
        &["serve", "--one-port", "--port=9", "--workers=3", "--http"],
        Command::Serve(ServeCommand {
            port: 9,
            workers: 3,
            connections: 4_294_967_296,
            idle: 0,
            one_port: true,
            http: true,
        }),
    ),
    (
        &["fit", "--documents=4194304"],
        Command::Fit(FitCommand {
            documents: 4_194_304,
        }),
    ),
];

#[test]
fn words_are_read_as_their_command(rt: HostRuntime) {
    for (words, command) in &COMMANDS {
        expect(&rt, read_command(rt.alloc(), words), Ok(*command));
    }
}

static PORTS: [(&[&str], &[u32]); 8] = [
    (
        &["serve", "--port", "7000", "--workers", "2"],
        &[7_000, 7_001],
    ),
    (&["serve", "--port", "1", "--workers", "1"], &[1]),
    // also beyond the last port
    (
        &["serve", "--port", "65535", "--workers", "3"],
        &[65_535, 65_536, 65_537],
    ),
    // or the one port for each
    (
        &["serve", "--port", "7000", "--workers", "3", "--one-port"],
        &[7_000, 7_000, 7_000],
    ),
    (&["serve", "--port", "7000"], &[]),
    (&["run"], &[]),
    (&["load", "--docs", "7"], &[]),
    (&["fit", "--documents", "7"], &[]),
];

/// Whether a serve by these words listens on these ports.
fn are_ports(alloc: Global, words: &[&str], numbers: &[u32]) -> Result<bool, AllocError> {
    let ports = ports(alloc, read_command(alloc, words).ok())?;
    let are_lent = ports.len() == numbers.len() && ports.as_slice() == numbers;
    let inner = ports.into_inner();
    Ok(are_lent && inner.as_slice() == numbers)
}

/// Whether the words let all workers listen on one port.
static SHARES: [(&[&str], bool); 4] = [
    (&["serve", "--port=7", "--workers=2", "--one-port"], true),
    (&["serve", "--port=7", "--workers=2"], false),
    (&["serve", "--port=7", "--one-port"], false),
    (&["run"], false),
];

#[test]
fn one_port_is_asked_for(rt: HostRuntime) {
    for (words, shares) in &SHARES {
        expect(
            &rt,
            shares_port(read_command(rt.alloc(), words).ok()),
            *shares,
        );
    }
}

#[test]
fn a_serve_listens_on_a_port_for_each_worker(rt: HostRuntime) -> Result<(), Fail> {
    for (words, numbers) in &PORTS {
        let are_ports = are_ports(rt.alloc(), words, numbers)?;
        expect(&rt, (words, are_ports), (words, true));
    }
    Ok(())
}

static MISFITS: [Row; 10] = [
    Row(
        &["serve", "--port", "7000", "--workers", "2"],
        (b"", UNREAD),
        SOUND,
        &[CLOSED],
        8,
        Wanted::Misfit(Misfit::Gates {
            stated: 2,
            given: 1,
        }),
    ),
    Row(
        &["serve", "--port", "65535", "--workers", "3"],
        (br#"{"passes":2}"#, UNREAD),
        SOUND,
        &[],
        8,
        Wanted::Misfit(Misfit::Gates {
            stated: 3,
            given: 0,
        }),
    ),
    Row(
        &["serve", "--port", "65535", "--workers", "3"],
        (br#"{"passes":2}"#, UNREAD),
        SOUND,
        &[CLOSED, CLOSED, CLOSED],
        8,
        Wanted::Misfit(Misfit::Workers {
            asked: 3,
            passes: 2,
        }),
    ),
    Row(
        &["serve", "--port", "65535", "--workers", "2"],
        (b"", UNREAD),
        SOUND,
        &[CLOSED, CLOSED],
        8,
        Wanted::Misfit(Misfit::Ports { last: 65_536 }),
    ),
    Row(
        &["serve", "--port", "65473", "--workers", "64"],
        (br#"{"passes":64}"#, UNREAD),
        SOUND,
        &[CLOSED; 64],
        8,
        Wanted::Misfit(Misfit::Ports { last: 65_536 }),
    ),
    Row(
        &["load", "--docs", "129", "--workers", "3"],
        (b"", UNREAD),
        SOUND,
        &[],
        8,
        Wanted::Misfit(Misfit::Workers {
            asked: 3,
            passes: 2,
        }),
    ),
    Row(
        &["load", "--docs", "1", "--workers", "64"],
        (br#"{"passes":63}"#, UNREAD),
        SOUND,
        &[CLOSED; 64],
        8,
        Wanted::Misfit(Misfit::Workers {
            asked: 64,
            passes: 63,
        }),
    ),
    Row(
        &["load", "--docs", "129"],
        (br#"{"commits":1}"#, UNREAD),
        SOUND,
        &[CLOSED],
        8,
        Wanted::Misfit(Misfit::Columns {
            docs: 129,
            columns: 128,
        }),
    ),
    Row(
        &["load", "--docs", "129"],
        (b"", UNREAD),
        SOUND,
        &[],
        8,
        Wanted::Misfit(Misfit::Columns {
            docs: 129,
            columns: 128,
        }),
    ),
    Row(
        &["fit", "--documents", "129"],
        (b"{", UNREAD),
        SOUND,
        &[CLOSED],
        8,
        Wanted::Misfit(Misfit::Sample(fit::Misfit::NoAdds)),
    ),
];

#[test]
fn the_first_misfit_is_told(rt: HostRuntime) -> Result<(), Fail> {
    expect_all(&rt, rt.alloc(), &MISFITS)?;
    Ok(())
}
