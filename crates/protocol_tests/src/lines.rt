//! Lines that no session passes on, and the texts of replies that no input of the program brings about.
use funnel_io::MAX_LINE_LEN;
use funnel_model::{Ids, Reply, Stats, Text};
use line_proto::{Request, Search, parse_line, reply_text};
use std::alloc::{AllocError, Global};
use std::process::Abort;
use std::test::Fail;

/// An add of so many bytes.
fn long_add(alloc: Global, length: usize) -> Result<Vec<u8>, AllocError> {
    let mut line = Vec::from_slice(alloc, b"add 1 ")?;
    line.resize(length, b'a')?;
    Ok(line)
}

#[test]
fn a_line_of_more_than_65536_bytes_asks_for_nothing(rt: HostRuntime) -> Result<(), Fail> {
    let wanted = Request::Add { id: 1, text: "aaa" };
    assert_eq!(rt; parse_line(&long_add(rt.alloc(), 9)?), Some(wanted));
    let mut line = long_add(rt.alloc(), MAX_LINE_LEN)?;
    assert!(rt; parse_line(&line).is_some());
    line.push(b'\r')?;
    assert!(rt; parse_line(&line).is_none());
    let line = long_add(rt.alloc(), MAX_LINE_LEN + 1)?;
    assert!(rt; parse_line(&line).is_none());
    Ok(())
}

#[test]
fn a_query_stands_behind_a_space(rt: HostRuntime) -> Result<(), Fail> {
    let wanted = Request::Query { text: " a |b" };
    assert_eq!(rt; parse_line(b"query  a |b"), Some(wanted));
    let wanted = Request::Query { text: "" };
    assert_eq!(rt; parse_line(b"query \r"), Some(wanted));
    assert!(rt; parse_line(b"query\r").is_none());
    Ok(())
}

// Lines that search, and what each asks for.
static SEARCHES: [(&[u8], Request<'static>); 8] = [
    (
        b"count",
        Request::Count {
            kept: Search::Words(""),
        },
    ),
    (
        b"count ",
        Request::Count {
            kept: Search::Query(""),
        },
    ),
    (
        b"count  a\r",
        Request::Count {
            kept: Search::Query(" a"),
        },
    ),
    (
        b"newest 5",
        Request::Newest {
            most: 5,
            kept: Search::Words(""),
        },
    ),
    (
        b"newest 5 ",
        Request::Newest {
            most: 5,
            kept: Search::Query(""),
        },
    ),
    (
        b"newest 05 a |b",
        Request::Newest {
            most: 5,
            kept: Search::Query("a |b"),
        },
    ),
    (
        b"oldest 0",
        Request::Oldest {
            most: 0,
            kept: Search::Words(""),
        },
    ),
    (
        b"oldest 18446744073709551615 -a",
        Request::Oldest {
            most: u64::MAX,
            kept: Search::Query("-a"),
        },
    ),
];

// Lines that are no searches, and others that name no document or have too much.
static NO_SEARCHES: [&[u8]; 6] = [
    b"newest",
    b"newest a",
    b"newest  5",
    b"oldest +5",
    b"counts",
    b"newest 18446744073709551616",
];

static NO_DOCUMENTS: [&[u8]; 6] = [b"put", b"put a", b"get", b"get 7 ", b"get  7", b"stats "];

#[test]
fn a_search_has_a_query_only_behind_a_space(rt: HostRuntime) -> Result<(), Fail> {
    for (line, wanted) in &SEARCHES {
        assert_eq!(rt; parse_line(line), Some(*wanted));
    }
    for line in &NO_SEARCHES {
        assert!(rt; parse_line(line).is_none());
    }
    Ok(())
}

#[test]
fn documents_are_put_and_told_by_their_numbers(rt: HostRuntime) -> Result<(), Fail> {
    let wanted = Request::Put { id: 7, text: " a" };
    assert_eq!(rt; parse_line(b"put 007  a"), Some(wanted));
    let wanted = Request::Put { id: 7, text: "" };
    assert_eq!(rt; parse_line(b"put 7"), Some(wanted));
    assert_eq!(rt; parse_line(b"get 7\r"), Some(Request::Get { id: 7 }));
    assert_eq!(rt; parse_line(b"stats"), Some(Request::Stats));
    for line in &NO_DOCUMENTS {
        assert!(rt; parse_line(line).is_none());
    }
    Ok(())
}

#[test]
fn a_tuning_stands_behind_a_space(rt: HostRuntime) -> Result<(), Fail> {
    let wanted = Request::Tune { text: " {} " };
    assert_eq!(rt; parse_line(b"tune  {} "), Some(wanted));
    let wanted = Request::Tune { text: "" };
    assert_eq!(rt; parse_line(b"tune \r"), Some(wanted));
    assert!(rt; parse_line(b"tune\r").is_none());
    Ok(())
}

#[test]
fn a_reply_is_one_line(rt: HostRuntime) -> Result<(), Fail> {
    let mut out = Vec::with_capacity(rt.alloc(), 256)?;
    expect_texts(&rt, &mut out);
    expect_numbers(&rt, &mut out);
    Ok(())
}

// Texts, and the replies that tell them.
static TEXTS: [(&str, &str); 4] = [
    (" a  b ", "text 3  a  b \n"),
    ("", "text 3 \n"),
    ("a\nb", "refused text\n"),
    ("\n", "refused text\n"),
];

#[test]
fn a_text_is_told_unless_a_newline_would_end_the_line(rt: HostRuntime) -> Result<(), Fail> {
    let mut out = Vec::new(rt.alloc());
    for (told, wanted) in &TEXTS {
        let text = Text::new(String::from_str(rt.alloc(), told)?);
        let reply = Reply::Text { place: 3, text };
        expect_text(&rt, reply, wanted, &mut out);
    }
    Ok(())
}

#[test]
fn some_numbers_stand_behind_how_many_there_are(rt: HostRuntime) -> Result<(), Fail> {
    let mut out = Vec::new(rt.alloc());
    let ids = Ids::new(Vec::from_slice(rt.alloc(), [9, 7].as_slice())?);
    expect_text(
        &rt,
        Reply::FoundSome { count: 12, ids },
        "found 12 9 7\n",
        &mut out,
    );
    let ids = Ids::new(Vec::new(rt.alloc()));
    expect_text(
        &rt,
        Reply::FoundSome { count: 12, ids },
        "found 12\n",
        &mut out,
    );
    Ok(())
}

// The longest reply that takes no room.
fn expect_numbers(rt: &impl Abort, out: &mut Vec<u8>) {
    let stats = Stats {
        documents: u64::MAX,
        place: u64::MAX,
        base: u64::MAX,
        columns: u64::MAX,
        free: u64::MAX,
        retired: u64::MAX,
        finds: 0,
    };
    expect_text(
        rt,
        Reply::Stats(stats),
        "stats documents 18446744073709551615 place 18446744073709551615 base 18446744073709551615 columns 18446744073709551615 \
free 18446744073709551615 retired 18446744073709551615 finds 0\n",
        out,
    );
    expect_text(
        rt,
        Reply::Replaced(u64::MAX),
        "replaced 18446744073709551615\n",
        out,
    );
    expect_text(
        rt,
        Reply::Count(u64::MAX),
        "count 18446744073709551615\n",
        out,
    );
}

fn expect_texts(rt: &impl Abort, out: &mut Vec<u8>) {
    expect_text(rt, Reply::Added(0), "added 0\n", out);
    expect_text(
        rt,
        Reply::Added(u64::MAX),
        "added 18446744073709551615\n",
        out,
    );
    expect_text(
        rt,
        Reply::Present(u64::MAX),
        "refused present 18446744073709551615\n",
        out,
    );
    expect_text(
        rt,
        Reply::Deleted(u64::MAX),
        "deleted 18446744073709551615\n",
        out,
    );
    expect_text(
        rt,
        Reply::Place(u64::MAX),
        "place 18446744073709551615\n",
        out,
    );
    expect_text(
        rt,
        Reply::Trimmed(u64::MAX),
        "refused trimmed 18446744073709551615\n",
        out,
    );
    expect_text(rt, Reply::Recycled(3), "recycled 3\n", out);
    expect_text(
        rt,
        Reply::Guarded { slice: 0, pass: 1 },
        "guarded 0 1\n",
        out,
    );
    expect_text(
        rt,
        Reply::Tuned(u64::MAX),
        "tuned 18446744073709551615\n",
        out,
    );
    expect_text(rt, Reply::Tuning(4), "refused tuning 4\n", out);
    expect_text(
        rt,
        Reply::Wide {
            needed: u64::MAX,
            room: u64::MAX,
        },
        "refused room 18446744073709551615 18446744073709551615\n",
        out,
    );
    expect_text(
        rt,
        Reply::Query(u64::MAX),
        "refused query 18446744073709551615\n",
        out,
    );
    expect_text(
        rt,
        Reply::Deep(u64::MAX),
        "refused deep 18446744073709551615\n",
        out,
    );
    expect_text(rt, Reply::Spent, "refused spent\n", out);
    expect_text(rt, Reply::Memory, "refused memory\n", out);
}

fn expect_text(rt: &impl Abort, reply: Reply, text: &str, out: &mut Vec<u8>) {
    assert_eq!(rt; reply_text(&reply, out), Ok(()));
    assert_eq!(rt; out.as_slice(), text.as_bytes());
}
