//! Readers and writers of std's, as sources and sinks.
use crate::streams::{expect_reads, expect_sent, expect_writes};
use funnel_io::{Duplex, Got, Put, ReaderSource, StdinSource, StdoutSink, WriteFailed, WriterSink};
use std::io;
use std::io::{Read, Write};
use std::process::Abort;
use std::test::Fail;

/// A reader and a writer of which every call is interrupted, and the number of its calls.
#[derive(Drop)]
struct Broken {
    calls: u64,
}

impl Broken {
    fn interrupt(&mut self) -> io::Error {
        self.calls = self.calls.saturating_add(1);
        io::Error::from(io::ErrorKind::Interrupted)
    }
}

impl Read for Broken {
    fn read(&mut self, _buf: &mut [u8]) -> io::Result<usize> {
        Err(self.interrupt())
    }
}

impl Write for Broken {
    fn write(&mut self, _buf: &[u8]) -> io::Result<usize> {
        Err(self.interrupt())
    }

    fn flush(&mut self) -> io::Result<()> {
        Err(self.interrupt())
    }
}

/// Two reads and a write, which fail.
fn expect_failures<R: Abort>(rt: &R, reader: &mut Broken, writer: &mut Broken) {
    let mut conn = Duplex::new(ReaderSource::new(reader), WriterSink::new(writer));
    let failed = (Got::Failed, b"----");
    expect_reads(rt, &mut conn, &[failed, failed]);
    expect_writes(rt, &mut conn, &[("a", Put::Failed)]);
}

/// None of the calls is made again.
#[test]
fn each_error_of_std_is_a_failure(rt: HostRuntime) {
    let mut reader = Broken { calls: 0 };
    let mut writer = Broken { calls: 0 };
    expect_failures(&rt, &mut reader, &mut writer);
    assert_eq!(rt; (reader.calls, writer.calls), (2, 1));
}

#[test]
fn a_reader_of_std_gives_its_bytes(rt: HostRuntime) {
    let bytes: &[u8] = b"abcdef";
    expect_reads(
        &rt,
        &mut ReaderSource::new(bytes),
        &[
            (Got::Bytes(4), b"abcd"),
            (Got::Bytes(2), b"efcd"),
            (Got::End, b"efcd"),
            (Got::End, b"efcd"),
        ],
    );
}

fn expect_fitting<R: Abort>(rt: &R, room: &mut [u8]) {
    expect_writes(
        rt,
        &mut WriterSink::new(room),
        &[
            ("abc", Put::Bytes(3)),
            ("def", Put::Bytes(2)),
            ("f", Put::Failed),
        ],
    );
}

#[test]
fn a_writer_of_std_takes_what_fits(rt: HostRuntime) {
    let mut room = [b'-'; 5];
    expect_fitting(&rt, &mut room);
    assert_eq!(rt; &room, b"abcde");
}

/// Reads and writes in turn.
fn expect_both_ways<R: Abort>(rt: &R, bytes: &[u8], room: &mut [u8]) {
    let mut conn = Duplex::new(ReaderSource::new(bytes), WriterSink::new(room));
    expect_reads(rt, &mut conn, &[(Got::Bytes(4), b"abcd")]);
    expect_sent(rt, &mut conn, &[("ghi", Ok(()))]);
    let last = (Got::Bytes(2), b"ef--");
    expect_reads(rt, &mut conn, &[last, (Got::End, b"ef--")]);
    expect_sent(rt, &mut conn, &[("jkl", Err(WriteFailed))]);
}

#[test]
fn bytes_go_both_ways(rt: HostRuntime) {
    let mut room = [b'-'; 5];
    expect_both_ways(&rt, b"abcdef", &mut room);
    assert_eq!(rt; &room, b"ghijk");
}

#[test]
fn bytes_go_through_a_pipe(rt: HostRuntime) -> Result<(), Fail> {
    let (reader, writer) = io::pipe(&rt)?;
    expect_sent(
        &rt,
        &mut WriterSink::new(writer),
        &[("abcdefg", Ok(())), ("h", Ok(()))],
    );
    expect_reads(
        &rt,
        &mut ReaderSource::new(reader),
        &[
            (Got::Bytes(4), b"abcd"),
            (Got::Bytes(4), b"efgh"),
            (Got::End, b"efgh"),
        ],
    );
    Ok(())
}

#[test]
fn standard_input_is_read(rt: HostRuntime) {
    let wanted = [(Got::End, b"----")];
    expect_reads(&rt, &mut StdinSource::new(rt.stdin()), &wanted);
}

#[test]
fn standard_output_takes_bytes(rt: HostRuntime) {
    let mut sink = StdoutSink::new(rt.stdout());
    expect_writes(&rt, &mut sink, &[("out\n", Put::Bytes(4))]);
    expect_sent(&rt, &mut sink, &[("and more\n", Ok(()))]);
}
