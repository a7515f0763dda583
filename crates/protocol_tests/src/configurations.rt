//! Configurations and their faults.

ghost use Rattle.std.specs.Prelude.{◌<◌};

use funnel_io::MemSource;
use funnel_model::Config;
use funnel_stats::{ConfigFault, read_config};
use std::alloc::{AllocError, Global};
use std::process::Abort;
use std::test::Fail;

/// A source of the bytes, cut into pieces of this many, whose reads of these numbers fail.
pub fn source(
    alloc: Global,
    bytes: &[u8],
    piece: usize,
    fails: &[u64],
) -> Result<MemSource, AllocError>
    requires { 0 < piece }
{
    let mut pieces = Vec::new(alloc);
    for part in bytes.chunks(piece) {
        pieces.push(Vec::from_slice(alloc, part)?)?;
    }
    Ok(MemSource::new(pieces, Vec::from_slice(alloc, fails)?))
}

/// What was read, in words: the values in the order of the keys, or the number of the fault and what it says.
pub fn told(alloc: Global, answer: &Result<Config, ConfigFault>) -> Result<String, AllocError> {
    match answer {
        Ok(config) => {
            let mut text = format!(in alloc;
                "{} {} {} {} {} {} {} {} {} {} {} {}",
                config.passes,
                config.slices,
                config.blocks,
                config.max_rank,
                config.commits,
                config.reserve,
                config.one_in,
                config.snr,
                config.documents,
                config.tail,
                config.max_rows,
                config.private
            )?;
            for (word, count) in config.words.as_slice() {
                let entry = format!(in alloc; " {word}:{count}")?;
                text.push_str(&entry)?;
            }
            Ok(text)
        }
        Err(fault) => format!(in alloc; "{}: {fault}", fault.number()),
    }
}

/// What bytes that are cut into pieces of this many are read as, in words.
fn read(alloc: Global, bytes: &[u8], piece: usize, fails: &[u64]) -> Result<String, AllocError>
    requires { 0 < piece }
{
    let mut source = source(alloc, bytes, piece, fails)?;
    told(alloc, &read_config(alloc, &mut source))
}

const DEFAULTS: &str = "2 2 1 0 1024 0 10 10 1000 10 65536 2";

/// Bytes, and what they are read as.
static ROWS: [(&[u8], &str); 48] = [
    (b"", DEFAULTS),
    (b"{}", DEFAULTS),
    (b" \t\r\n{ }\n", DEFAULTS),
    (
        br#"{"slices":1,"max_rank":1}"#,
        "2 1 1 1 1024 0 10 10 1000 10 65536 2",
    ),
    (
        br#"{"passes":64,"slices":1,"blocks":64,"max_rank":6,"commits":16777216,"reserve":4194304,"one_in":20,"snr":1000,"documents":4294967296,"tail":0,"max_rows":1,"private":15,"words":{}}"#,
        "64 1 64 6 16777216 4194304 20 1000 4294967296 0 1 15",
    ),
    (
        br#"{"passes":1,"slices":1,"blocks":1,"max_rank":0,"commits":1,"reserve":0,"one_in":2,"snr":1,"documents":1,"tail":100000,"max_rows":1048576,"private":0,"words":{"a":1}}"#,
        "1 1 1 0 1 0 2 1 1 100000 1048576 0 a:1",
    ),
    (
        br#"{"words":{"the":1000,"cat":100,"axolotl":1}}"#,
        "2 2 1 0 1024 0 10 10 1000 10 65536 2 axolotl:1 cat:100 the:1000",
    ),
    (
        br#"{"words":{"don't":7,"3.14":8}}"#,
        "2 2 1 0 1024 0 10 10 1000 10 65536 2 3.14:8 don't:7",
    ),
    (
        br#"{"passes":4,"slices":8,"max_rank":6,"commits":65536,"documents":20000,"tail":80}"#,
        "4 8 1 6 65536 0 10 10 20000 80 65536 2",
    ),
    // The last value of a key stands, and escapes in a key are read first.
    (
        br#"{"passes":0,"passes":3}"#,
        "3 2 1 0 1024 0 10 10 1000 10 65536 2",
    ),
    (
        br#"{"passes":3,"p\u0061sses":4}"#,
        "4 2 1 0 1024 0 10 10 1000 10 65536 2",
    ),
    (
        br#"{"words":{"cat":0,"cat":5}}"#,
        "2 2 1 0 1024 0 10 10 1000 10 65536 2 cat:5",
    ),
    (br#"{"words":{"Cat":5},"words":{}}"#, DEFAULTS),
    // no object
    (b"[1]", "3: no JSON object"),
    (b"1", "3: no JSON object"),
    (b" ", "3: no JSON object"),
    (b"{", "3: no JSON object"),
    (b"{}{}", "3: no JSON object"),
    (br#"{"passes":01}"#, "3: no JSON object"),
    (br#"{"passes":1e999}"#, "3: no JSON object"),
    (br#"{"passes":1,}"#, "3: no JSON object"),
    (b"{\"\xff\":1}", "3: no JSON object"),
    // the first unknown key
    (br#"{"speed":1}"#, r#"4: unknown key "speed""#),
    (
        br#"{"slow":1,"passes":0,"fast":2}"#,
        r#"4: unknown key "fast""#,
    ),
    (br#"{"Passes":1}"#, r#"4: unknown key "Passes""#),
    // the first bad value
    (br#"{"passes":0}"#, "5: passes is 0"),
    (br#"{"passes":65}"#, "5: passes is 65"),
    (br#"{"passes":1.0}"#, "5: passes is another value"),
    (br#"{"passes":1e0}"#, "5: passes is another value"),
    (br#"{"max_rank":-0}"#, "5: max_rank is another value"),
    (
        br#"{"commits":18446744073709551616}"#,
        "5: commits is another value",
    ),
    (
        br#"{"commits":18446744073709551615}"#,
        "5: commits is 18446744073709551615",
    ),
    (br#"{"reserve":4194305}"#, "5: reserve is 4194305"),
    (br#"{"reserve":-1}"#, "5: reserve is another value"),
    (br#"{"documents":4294967297}"#, "5: documents is 4294967297"),
    (br#"{"one_in":1}"#, "5: one_in is 1"),
    (br#"{"snr":"10"}"#, "5: snr is another value"),
    (br#"{"words":5,"tail":null}"#, "5: tail is another value"),
    (br#"{"words":[]}"#, "5: words is another value"),
    (br#"{"words":{"Cat":1},"max_rows":0}"#, "5: max_rows is 0"),
    (br#"{"words":[],"private":16}"#, "5: private is 16"),
    // the first bad word or count
    (br#"{"words":{"Cat":1}}"#, r#"6: "Cat" is no folded word"#),
    (
        br#"{"words":{"a":0,"two words":1}}"#,
        r#"6: "two words" is no folded word"#,
    ),
    (br#"{"words":{"":1}}"#, r#"6: "" is no folded word"#),
    (
        br#"{"documents":10,"words":{"cat":11}}"#,
        r#"7: the count of "cat" is 11"#,
    ),
    (
        br#"{"words":{"cat":0.5,"bat":1}}"#,
        r#"7: the count of "cat" is another value"#,
    ),
    // sizes above their limits
    (
        br#"{"slices":1024,"blocks":64,"max_rank":1}"#,
        "8: 8388608 columns",
    ),
    (
        br#"{"slices":1024,"blocks":64}"#,
        "9: 39321600 words in the pool",
    ),
];

#[test]
fn bytes_are_a_configuration_or_have_a_fault(rt: HostRuntime) -> Result<(), Fail> {
    for (bytes, wanted) in &ROWS {
        for piece in [5_000, 1] {
            // Each piece is read at once, and so is the end: a read more would fail.
            let one_more = (bytes.len() / piece) as u64;
            let answer = read(rt.alloc(), bytes, piece, &[one_more.saturating_add(3)])?;
            assert_eq!(rt;
                answer.as_str(),
                *wanted,
                "of {bytes:?} in pieces of {piece}"
            );
        }
    }
    Ok(())
}

#[test]
fn a_failed_read_and_too_many_bytes_are_told(rt: HostRuntime) -> Result<(), Fail> {
    let answer = read(rt.alloc(), br#"{"passes":0}"#, 4, &[2])?;
    assert_eq!(rt; answer.as_str(), "1: a read failed");
    let answer = told(rt.alloc(), &Err(ConfigFault::TooLong(16_777_216)))?;
    assert_eq!(rt; answer.as_str(), "2: more than 16777216 bytes");
    Ok(())
}
