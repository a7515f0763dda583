use std::io;
use std::io::{ErrorKind, Read};

/// What came of opening a file, as a reader.
#[derive(Drop)]
pub enum OpenedFile<F> {
    /// There is no such file: it is read as an empty one.
    Absent,
    /// The file.
    Open(F),
    /// The file could not be opened for another cause, and each read fails with it.
    Refused(ErrorKind),
}

impl<F: Read> Read for OpenedFile<F> {
    ghost use Rattle.funnel_io.specs.Std.{file_remaining};

    ghost remaining = { file_remaining F.remaining };

    fn read(&mut self, buf: &mut [u8]) -> io::Result<usize> {
        match self {
            OpenedFile::Absent => Ok(0),
            OpenedFile::Open(file) => file.read(buf),
            OpenedFile::Refused(kind) => Err(io::Error::from(*kind)),
        }
    }
}
