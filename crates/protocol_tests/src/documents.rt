//! The documents of a load, and a summary in which no two numbers are alike.
use load_gen::{MOST_DOCS, make, summary};
use std::test::Fail;

/// A load is shared by the threads of its workers.
fn is_shared<T: Send + Sync>(_value: &T) {}

/// A seed, how many documents of how many words, one of them, and its text.
static DOCUMENTS: [(u64, u32, u32, u32, &str); 7] = [
    (0, 2, 1, 0, "u1 w1"),
    (0, 2, 1, 1, "u2 w225"),
    (0, 129, 0, 128, "u129"),
    (0, 129, 3, 128, "u129 w684 w148 w48"),
    (0, 5_000, 0, 4_999, "u5000"),
    (u64::MAX, 12, 4, 11, "u12 w1 w16 w135 w218"),
    (1, 129, 8, 99, "u100 w6 w45 w139 w920 w210 w18 w4037 w2186"),
];

#[test]
fn documents_have_the_words_of_the_draws_in_turn(rt: HostRuntime) -> Result<(), Fail> {
    for (seed, docs, words, i, wanted) in &DOCUMENTS {
        let load = make(rt.alloc(), *seed, *docs, *words)?;
        is_shared(&load);
        assert_eq!(rt; load.docs(), *docs);
        assert!(rt; *i < load.docs());
        assert_eq!(rt; load.text(*i), *wanted);
    }
    Ok(())
}

const SUMMARY: &str = "documents 4194304
deleted 419430
live 3774874
misses 0
query w0: 1 2
query w0 w1: 3 4
query w1: 5 6
query w1 w2: 7 8
query w2: 9 10
query w2 w3: 11 12
query w3: 13 14
query w3 w4: 15 18446744073709551615
";

#[test]
fn a_summary_tells_each_query_its_result(rt: HostRuntime) -> Result<(), Fail> {
    let results = [
        (1, 2),
        (3, 4),
        (5, 6),
        (7, 8),
        (9, 10),
        (11, 12),
        (13, 14),
        (15, u64::MAX),
    ];
    let mut out = Vec::from_slice(rt.alloc(), b"an older text")?;
    summary(MOST_DOCS, results.as_slice(), &mut out)?;
    assert_eq!(rt; out.as_slice(), SUMMARY.as_bytes());
    Ok(())
}
