//! What the program tells of itself.
use crate::endings::Wanted;
use crate::rows::{Row, expect_all};
use crate::setting::{Inputs, NONE, SOUND, UNREAD};
use funnel::{
    Command, HELP, LoadCommand, MOST_CONNECTIONS, MOST_FITTED, MOST_IDLE, MOST_PORT, ServeCommand,
    VERSION, read_command,
};
use funnel_model::MOST_PASSES;
use funnel_stats::{KEYS, Key};
use load_gen::{MOST_DOCS, MOST_WORDS};
use std::alloc::{AllocError, Global};
use std::process::Abort;
use std::test::Fail;

/// A configuration that is none, and an input that isn't read.
const UNREADABLE: Inputs = (b"{", UNREAD);

/// Expects the help to have one line that begins so.
fn expect_told<R: Abort>(rt: &R, start: &str) {
    let told = HELP
        .lines()
        .filter(|line| line.trim_start().starts_with(start));
    assert_eq!(rt; told.count(), 1, "{start}");
}

/// How the line of a key begins.
fn key_line(alloc: Global, key: Key) -> Result<String, AllocError> {
    let limits = key.limits();
    match key {
        Key::Words => format!(in alloc;
            "words      at most {} words, default {{}}: ",
            limits.greatest
        ),
        key => format!(in alloc;
            "{:<10} {} to {}, default {}: ",
            key.name(),
            limits.least,
            limits.greatest,
            limits.default
        ),
    }
}

#[test]
fn help_tells_the_numbers_of_each_key(rt: HostRuntime) -> Result<(), Fail> {
    for key in KEYS {
        expect_told(&rt, key_line(rt.alloc(), key)?.as_str());
    }
    Ok(())
}

/// How the line of an option begins, its greatest number, and its default where it has one.
type Number = (&'static str, u64, Option<u64>);

/// Expects the help to tell the numbers of each option.
fn expect_numbers<R: Abort>(rt: &R, alloc: Global, numbers: &[Number]) -> Result<(), AllocError> {
    for (start, most, default) in numbers {
        let line = match default {
            Some(default) => format!(in alloc; "{start}{most}, default {default}: ")?,
            None => format!(in alloc; "{start}{most}: ")?,
        };
        expect_told(rt, line.as_str());
    }
    Ok(())
}

/// A serve with what is meant where no numbers are given.
fn least_serve(alloc: Global) -> Result<ServeCommand, Fail> {
    match read_command(alloc, &["serve", "--port", "1", "--workers", "1"]) {
        Ok(Command::Serve(serve)) => Ok(serve),
        _ => Err(Fail::new("no serve")),
    }
}

/// So a load.
fn least_load(alloc: Global) -> Result<LoadCommand, Fail> {
    match read_command(alloc, &["load", "--docs", "1"]) {
        Ok(Command::Load(load)) => Ok(load),
        _ => Err(Fail::new("no load")),
    }
}

/// The numbers of each option, where these are meant by default.
fn numbers(serve: ServeCommand, load: LoadCommand) -> [Number; 9] {
    let connections = Some(serve.connections);
    let idle = Some(u64::from(serve.idle));
    let workers = Some(u64::from(load.workers));
    let words = Some(u64::from(load.words));
    [
        ("--port P         1 to ", u64::from(MOST_PORT), None),
        ("--workers W      1 to ", u64::from(MOST_PASSES), None),
        ("--connections C  1 to ", MOST_CONNECTIONS, connections),
        ("--idle S         0 to ", u64::from(MOST_IDLE), idle),
        ("--docs D         1 to ", u64::from(MOST_DOCS), None),
        ("--workers W      1 to ", u64::from(MOST_PASSES), workers),
        ("--words L        0 to ", u64::from(MOST_WORDS), words),
        ("--seed X         0 to ", u64::MAX, Some(load.seed)),
        ("--documents N    1 to ", u64::from(MOST_FITTED), None),
    ]
}

#[test]
fn help_tells_the_numbers_of_each_option(rt: HostRuntime) -> Result<(), Fail> {
    let serve = least_serve(rt.alloc())?;
    let load = least_load(rt.alloc())?;
    expect_numbers(&rt, rt.alloc(), &numbers(serve, load))?;
    Ok(())
}

/// Words alone that ask for a text: it is told, whatever the configuration, and where a write fails that is the end.
static ASKED: [Row; 6] = [
    Row(&["--help"], UNREADABLE, SOUND, &[], 0, Wanted::Text(HELP)),
    Row(&["-h"], UNREADABLE, SOUND, &[], 0, Wanted::Text(HELP)),
    Row(&["help"], UNREADABLE, SOUND, &[], 0, Wanted::Text(HELP)),
    Row(
        &["--version"],
        UNREADABLE,
        SOUND,
        &[],
        0,
        Wanted::Text(VERSION),
    ),
    Row(&["-V"], UNREADABLE, SOUND, &[], 0, Wanted::Text(VERSION)),
    Row(
        &["-V"],
        UNREADABLE,
        [NONE, NONE, &[1]],
        &[],
        4,
        Wanted::Text(""),
    ),
];

/// Other words ask for none.
static UNASKED: [Row; 2] = [
    Row(
        &["help", "help"],
        UNREADABLE,
        SOUND,
        &[],
        1,
        Wanted::Text(""),
    ),
    Row(&["-v"], UNREADABLE, SOUND, &[], 1, Wanted::Text("")),
];

#[test]
fn a_text_that_is_asked_for_is_told(rt: HostRuntime) -> Result<(), Fail> {
    expect_all(&rt, rt.alloc(), &ASKED)?;
    expect_all(&rt, rt.alloc(), &UNASKED)?;
    Ok(())
}
