ghost use Rattle.std.specs.Prelude.{◌≡◌, ◌≢◌};

use crate::opened_file::OpenedFile;
use crate::reader_source::ReaderSource;
use std::fs;
use std::io::ErrorKind;
use std::rt::Files;

/// A file to be read. Where there is no such file it is empty, and where it can't be opened for
/// another cause its reads fail.
pub type FileSource<F> = ReaderSource<OpenedFile<F>>;

impl<F> ReaderSource<OpenedFile<F>> {
    /// The file at the path. It takes no memory.
    pub fn open<R: Files<File = F>>(rt: &R, path: &str) -> FileSource<F>
        ensures faults { result.faults ≡ 0 }

        // A file that isn't there is none whose reads fail.
        ensures refused { result.inner ≢ OpenedFile.Refused ErrorKind.NotFound }
    {
        let file = match fs::open(rt, path) {
            Ok(file) => OpenedFile::Open(file),
            Err(error) => match error.kind() {
                ErrorKind::NotFound => OpenedFile::Absent,
                kind => OpenedFile::Refused(kind),
            },
        };
        ReaderSource::new(file)
    }
}
