//! Texts that are read as tunings, and their faults.

use crate::configurations::{source, told};
use funnel_stats::{read_config, read_tuning};
use std::alloc::{AllocError, Global};
use std::process::Abort;
use std::test::Fail;

/// A configuration in which no value is the default.
const OPENING: &[u8] =
    br#"{"passes":3,"slices":4,"blocks":5,"max_rank":1,"commits":6,"reserve":4194304,"one_in":20,"snr":100,"documents":500,"tail":0,"max_rows":7,"private":9,"words":{"dog":500}}"#;

/// What the text is read as in an engine that was opened with it, in words.
fn read(alloc: Global, text: &str) -> Result<String, AllocError> {
    match read_config(alloc, &mut source(alloc, OPENING, 4_096, &[])?) {
        Ok(base) => told(alloc, &read_tuning(alloc, text, &base)),
        Err(fault) => format!(in alloc; "of the opening, {fault}"),
    }
}

/// Six values stay, and the statistics that a text leaves out have their defaults.
const DEFAULTS: &str = "3 4 5 1 6 4194304 10 10 1000 10 65536 2";

/// Texts, and what they are read as.
static ROWS: [(&str, &str); 17] = [
    ("", DEFAULTS),
    ("{}", DEFAULTS),
    (r#"{"words":{}}"#, DEFAULTS),
    (
        r#"{"tail":100000}"#,
        "3 4 5 1 6 4194304 10 10 1000 100000 65536 2",
    ),
    (
        r#"{"one_in":2,"snr":1,"documents":9,"tail":5,"max_rows":8,"private":0,"words":{"the":9,"cat":1}}"#,
        "3 4 5 1 6 4194304 2 1 9 5 8 0 cat:1 the:9",
    ),
    // no object
    (" ", "3: no JSON object"),
    ("[]", "3: no JSON object"),
    // A key that is not tuned is unknown, also where its value would be the one that stays.
    (r#"{"speed":1}"#, r#"4: unknown key "speed""#),
    (r#"{"slices":4}"#, r#"4: unknown key "slices""#),
    (
        r#"{"tail":-1,"reserve":4194304}"#,
        r#"4: unknown key "reserve""#,
    ),
    // the first bad value
    (r#"{"tail":100001}"#, "5: tail is 100001"),
    (r#"{"words":[],"snr":0}"#, "5: snr is 0"),
    (r#"{"words":{"Cat":1},"max_rows":0}"#, "5: max_rows is 0"),
    (r#"{"words":[],"private":16}"#, "5: private is 16"),
    // the first bad word or count
    (
        r#"{"words":{"a":0,"two words":1}}"#,
        r#"6: "two words" is no folded word"#,
    ),
    (
        r#"{"documents":10,"words":{"cat":11}}"#,
        r#"7: the count of "cat" is 11"#,
    ),
    (
        r#"{"words":{"cat":1001}}"#,
        r#"7: the count of "cat" is 1001"#,
    ),
];

#[test]
fn texts_are_tunings_or_have_a_fault(rt: HostRuntime) -> Result<(), Fail> {
    for (text, wanted) in &ROWS {
        let answer = read(rt.alloc(), text)?;
        assert_eq!(rt; answer.as_str(), *wanted, "of {text:?}");
    }
    Ok(())
}
