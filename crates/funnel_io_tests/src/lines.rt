//! The lines of a source.
ghost use Rattle.std.specs.Prelude.{◌≡◌, [], ◌∷◌, true, false};
ghost use Rattle.funnel_io.specs.Lines.{lines};

use funnel_io::{Line, LineReader, MemSource};
use std::alloc::{AllocError, Global};
use std::process::Abort;
use std::test::Fail;

/// Bytes in pieces of one size, whose reads of these numbers fail.
#[derive(Clone, Copy)]
struct Cut<'a> {
    bytes: &'a [u8],
    size: usize,
    fails: &'a [u64],
}

impl Cut<'_> {
    fn source(&self, alloc: Global) -> Result<MemSource, AllocError> {
        let mut pieces = Vec::new(alloc);
        for piece in self.bytes.chunks(self.size.max(1)) {
            pieces.push(piece.to_vec(alloc)?)?;
        }
        Ok(MemSource::new(pieces, self.fails.to_vec(alloc)?))
    }
}

/// Asks a new reader for lines, of so many bytes at most, once for each wanted answer, and expects it with the text of a
/// whole line. Gives how many bytes are left.
fn expect_lines<R: Abort>(
    rt: &R,
    alloc: Global,
    cut: Cut<'_>,
    most: u64,
    wanted: &[(Line, &[u8])],
) -> Result<u64, AllocError> {
    let mut source = cut.source(alloc)?;
    let mut reader = LineReader::new(alloc)?;
    let mut left = most;
    expect_answers(rt, &mut reader, &mut source, &mut left, wanted);
    Ok(left)
}

fn expect_answers<R: Abort>(
    rt: &R,
    reader: &mut LineReader,
    source: &mut MemSource,
    left: &mut u64,
    wanted: &[(Line, &[u8])],
) {
    for (line, text) in wanted {
        let answer = reader.next_line(source, left);
        let given = given_line(reader, answer);
        assert_eq!(rt; (answer, given), (*line, *text));
    }
}

/// The line, where it is whole.
fn given_line(reader: &LineReader, answer: Line) -> &[u8] {
    match answer {
        Line::Whole => reader.line(),
        _ => &[],
    }
}

#[test]
fn lines_are_the_same_however_the_bytes_are_cut(rt: HostRuntime) -> Result<(), Fail> {
    let wanted: [(Line, &[u8]); 8] = [
        (Line::Whole, b"one"),
        (Line::Whole, b""),
        (Line::Whole, b"\r"),
        (Line::Whole, b"two\r"),
        (Line::Whole, b""),
        (Line::Whole, b"last"),
        (Line::Finished, b""),
        (Line::Finished, b""),
    ];
    for size in [1, 2, 3, 7, 100] {
        let cut = Cut {
            bytes: b"one\n\n\r\ntwo\r\n\nlast",
            size,
            fails: &[],
        };
        expect_lines(&rt, rt.alloc(), cut, 100, &wanted)?;
    }
    Ok(())
}

/// So many letters and this ending.
fn letters(alloc: Global, count: usize, ending: &[u8]) -> Result<Vec<u8>, AllocError> {
    let mut line = vec![in alloc; b'x'; count]?;
    line.extend_from_slice(ending)?;
    Ok(line)
}

/// The line twice, ended by a newline and by the end of the bytes.
fn twice(alloc: Global, line: &[u8]) -> Result<Vec<u8>, AllocError> {
    let mut bytes = line.to_vec(alloc)?;
    bytes.push(b'\n')?;
    bytes.extend_from_slice(line)?;
    Ok(bytes)
}

/// Expects this answer for both lines of the bytes, however they are cut.
fn expect_both<R: Abort>(
    rt: &R,
    alloc: Global,
    bytes: &[u8],
    answer: (Line, &[u8]),
) -> Result<(), AllocError> {
    let wanted = [answer, answer, (Line::Finished, &[])];
    for size in [1, 999, 65_536, 300_000] {
        let cut = Cut {
            bytes,
            size,
            fails: &[],
        };
        expect_lines(rt, alloc, cut, 1_000_000, &wanted)?;
    }
    Ok(())
}

/// Expects this answer for a line of so many letters and this ending.
fn expect_line<R: Abort>(
    rt: &R,
    alloc: Global,
    count: usize,
    ending: &[u8],
    answer: Line,
) -> Result<(), AllocError> {
    let line = letters(alloc, count, ending)?;
    let bytes = twice(alloc, &line)?;
    let text: &[u8] = if answer == Line::Whole { &line } else { &[] };
    expect_both(rt, alloc, &bytes, (answer, text))
}

#[test]
fn a_line_of_more_than_65536_bytes_is_long(rt: HostRuntime) -> Result<(), Fail> {
    for (count, ending, answer) in [
        (1_001, b"" as &[u8], Line::Whole),
        (4_097, b"", Line::Whole),
        (65_536, b"", Line::Whole),
        (65_535, b"\r", Line::Whole),
        (65_537, b"", Line::Long),
        (65_536, b"\r", Line::Long),
        (65_537, b"\r", Line::Long),
        (65_600, b"", Line::Long),
        (200_000, b"", Line::Long),
    ] {
        expect_line(&rt, rt.alloc(), count, ending, answer)?;
    }
    Ok(())
}

#[test]
fn a_line_goes_on_after_a_read_that_failed(rt: HostRuntime) -> Result<(), Fail> {
    let cut = Cut {
        bytes: b"abcd\nef",
        size: 3,
        fails: &[2, 4],
    };
    let wanted: [(Line, &[u8]); 5] = [
        (Line::Failed, b""),
        (Line::Whole, b"abcd"),
        (Line::Failed, b""),
        (Line::Whole, b"ef"),
        (Line::Finished, b""),
    ];
    expect_lines(&rt, rt.alloc(), cut, 100, &wanted)?;
    Ok(())
}

#[test]
fn after_the_end_nothing_is_read(rt: HostRuntime) -> Result<(), Fail> {
    let cut = Cut {
        bytes: b"last",
        size: 4,
        fails: &[3, 4],
    };
    let wanted: [(Line, &[u8]); 3] = [
        (Line::Whole, b"last"),
        (Line::Finished, b""),
        (Line::Finished, b""),
    ];
    expect_lines(&rt, rt.alloc(), cut, 100, &wanted)?;
    Ok(())
}

/// Expects these two answers of so many bytes, and that all of them are taken.
fn expect_all_taken<R: Abort>(
    rt: &R,
    alloc: Global,
    most: u64,
    first: (Line, &[u8]),
    second: (Line, &[u8]),
) -> Result<(), AllocError> {
    let cut = Cut {
        bytes: b"abc\ndef\n",
        size: 8,
        fails: &[],
    };
    let left = expect_lines(rt, alloc, cut, most, &[first, second])?;
    assert_eq!(rt; left, 0);
    Ok(())
}

#[test]
fn no_more_bytes_are_taken_than_are_left(rt: HostRuntime) -> Result<(), Fail> {
    let limit: (Line, &[u8]) = (Line::Limit, b"");
    let (first, second) = (
        (Line::Whole, b"abc" as &[u8]),
        (Line::Whole, b"def" as &[u8]),
    );
    expect_all_taken(&rt, rt.alloc(), 0, limit, limit)?;
    expect_all_taken(&rt, rt.alloc(), 2, limit, limit)?;
    expect_all_taken(&rt, rt.alloc(), 4, first, limit)?;
    expect_all_taken(&rt, rt.alloc(), 7, first, limit)?;
    expect_all_taken(&rt, rt.alloc(), 8, first, second)?;
    Ok(())
}

// A line ends at a newline; a rest is a line only where the bytes ended.
fn cut_at_newlines()
    ensures ended { lines (97 ∷ 98 ∷ 10 ∷ 10 ∷ 99 ∷ []) true ≡ (97 ∷ 98 ∷ []) ∷ [] ∷ (99 ∷ []) ∷ [] }
    ensures open { lines (97 ∷ 98 ∷ 10 ∷ 10 ∷ 99 ∷ []) false ≡ (97 ∷ 98 ∷ []) ∷ [] ∷ [] }
    ensures whole { lines (97 ∷ 10 ∷ []) true ≡ (97 ∷ []) ∷ [] }
{}
