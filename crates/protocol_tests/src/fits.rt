//! Configurations that are fitted to samples.

ghost use Rattle.std.specs.Prelude.{◌≤◌, ◌<◌, ◌^◌};
ghost use Rattle.funnel_model.specs.declared.config.TheConstants.{MOST_COLUMNS};

use crate::configurations::{source, told};
use fit::fit;
use funnel_io::{MemSink, MemSource};
use funnel_stats::read_config;
use std::alloc::{AllocError, Global};
use std::process::Abort;
use std::test::Fail;

/// How a fit of the bytes ends, and what it writes. Reads and writes of these numbers fail.
fn fitted(
    alloc: Global,
    documents: u32,
    limit: u64,
    bytes: &[u8],
    read_fails: &[u64],
    write_fails: &[u64],
) -> Result<String, AllocError>
    requires some { 1 ≤ documents }
    requires few { documents ≤ MOST_COLUMNS }
    requires limit { limit ≤ 2 ^ 40 }
{
    let mut input: MemSource = source(alloc, bytes, 7, read_fails)?;
    let mut output = MemSink::new(alloc, 1_000, Vec::from_slice(alloc, write_fails)?)?;
    let end = fit(alloc, documents, limit, &mut input, &mut output);
    let text = String::from_utf8_lossy(alloc, output.bytes())?;
    format!(in alloc; "{end:?} {text}")
}

#[test]
fn words_are_listed_with_the_documents_that_have_them(rt: HostRuntime) -> Result<(), Fail> {
    let alloc = rt.alloc();
    let bytes = b"add 1 The cat\nadd 1 the dog, the\nfind x\nadd x y\nadd 3\r\ndel 1\nadd 4 dog";
    let answer = fitted(alloc, 100, 1_000, bytes, &[], &[])?;
    let wanted =
        "Done {\"documents\":4,\"max_rank\":0,\"passes\":64,\"private\":6,\"reserve\":64,\"slices\":3,\"tail\":1,\"words\":{\"cat\":1,\"dog\":2,\"the\":2}}\n";
    assert_eq!(rt; answer.as_str(), wanted);
    let answer = fitted(alloc, 20_000, 1_000, "add 1 א\"א".as_bytes(), &[], &[])?;
    let wanted =
        "Done {\"documents\":1,\"max_rank\":4,\"passes\":64,\"private\":6,\"reserve\":1024,\"slices\":22,\"tail\":1,\"words\":{\"א\\\"א\":1}}\n";
    assert_eq!(rt; answer.as_str(), wanted);
    Ok(())
}

#[test]
fn what_is_written_is_a_configuration(rt: HostRuntime) -> Result<(), Fail> {
    let alloc = rt.alloc();
    let mut input = source(alloc, b"add 1 b a\nadd 2 a", 7, &[])?;
    let mut output = MemSink::new(alloc, 1_000, Vec::new(alloc))?;
    fit(alloc, 100, 1_000, &mut input, &mut output);
    let mut written = source(alloc, output.bytes(), 7, &[])?;
    let answer = told(alloc, &read_config(alloc, &mut written))?;
    assert_eq!(rt;
        answer.as_str(),
        "64 3 1 0 1024 64 10 10 2 1 65536 6 a:2 b:1"
    );
    Ok(())
}

/// Adds the line of a document with so many of the words `w0`, `w1`, ...
fn push_document(alloc: Global, lines: &mut String, words: u32) -> Result<(), AllocError> {
    lines.push_str("add 1 ")?;
    for i in 0..words {
        let word = format!(in alloc; "w{i} ")?;
        lines.push_str(&word)?;
    }
    lines.push('\n')?;
    Ok(())
}

/// The key `private` of what is fitted to 16 documents, of which two have the first `both` of those words, which are of class 3,
/// and one has all of them, whose others are of class 4.
fn private_class(alloc: Global, both: u32, all: u32) -> Result<Option<u8>, AllocError> {
    let mut lines = String::new(alloc);
    push_document(alloc, &mut lines, all)?;
    push_document(alloc, &mut lines, both)?;
    for _ in 0..14 {
        push_document(alloc, &mut lines, 0)?;
    }
    let mut input = source(alloc, lines.as_bytes(), 1_000, &[])?;
    let mut output = MemSink::new(alloc, 20_000, Vec::new(alloc))?;
    fit(alloc, 100, 100_000, &mut input, &mut output);
    let mut written = source(alloc, output.bytes(), 1_000, &[])?;
    Ok(match read_config(alloc, &mut written) {
        Ok(config) => Some(config.private),
        Err(_) => None,
    })
}

#[test]
fn at_most_512_words_above_class_2_have_a_row_of_their_own(rt: HostRuntime) -> Result<(), Fail> {
    assert!(rt; private_class(rt.alloc(), 300, 512)? == Some(6));
    assert!(rt; private_class(rt.alloc(), 300, 513)? == Some(3));
    assert!(rt; private_class(rt.alloc(), 512, 513)? == Some(3));
    assert!(rt; private_class(rt.alloc(), 513, 513)? == Some(2));
    Ok(())
}

#[test]
fn a_fit_tells_why_it_ended(rt: HostRuntime) -> Result<(), Fail> {
    let alloc = rt.alloc();
    let answer = fitted(alloc, 1, 1_000, b"find x\nadd\n", &[], &[])?;
    assert_eq!(rt; answer.as_str(), "Misfit(NoAdds) ");
    let answer = fitted(alloc, 4_194_304, 1_000, b"add 1 x", &[], &[])?;
    assert_eq!(rt;
        answer.as_str(),
        "Misfit(Slices { slices: 1090, most: 1024 }) "
    );
    let answer = fitted(alloc, 1, 1_000, b"add 1 x\nadd 2 y", &[2], &[])?;
    assert_eq!(rt; answer.as_str(), "ReadFault ");
    let answer = fitted(alloc, 1, 1_000, b"add 1 x", &[], &[1])?;
    assert_eq!(rt; answer.as_str(), "WriteFault ");
    let answer = fitted(alloc, 1, 7, b"add 1 x", &[], &[])?;
    assert_eq!(rt; answer.as_str(), "ByteLimit(7) ");
    Ok(())
}

#[test]
fn a_pool_that_is_too_large_is_told(rt: HostRuntime) -> Result<(), Fail> {
    let alloc = rt.alloc();
    let mut line = String::from_str(alloc, "add 1")?;
    for i in 0..500u32 {
        let word = format!(in alloc; " w{i}")?;
        line.push_str(&word)?;
    }
    let answer = fitted(alloc, 3_900_000, 10_000, line.as_bytes(), &[], &[])?;
    assert_eq!(rt;
        answer.as_str(),
        "Misfit(Pool { words: 36348466, most: 33554432 }) "
    );
    Ok(())
}
