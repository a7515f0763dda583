//! Standard streams that are closed when the program starts.
use std::fs::{File, OpenOptions};
use std::os::fd::AsRawFd;

/// What can be opened wherever the program is started.
pub(crate) const NOTHING: &str = "/dev/null";

/// Takes the number of each standard stream that is closed at the start, so that nothing else that is opened gets it, as long as
/// the result is kept. So a read of a closed standard input fails, and a write to a closed output.
pub(crate) fn hold_closed(rt: &HostRuntime) -> [Option<File>; 3] {
    [hold_next(rt), hold_next(rt), hold_next(rt)]
}

// A file that takes the lowest number that is free, where that is one of a standard stream. It can't be used as this stream.
fn hold_next(rt: &HostRuntime) -> Option<File> {
    let file = File::open(rt, NOTHING).ok()?;
    match file.as_raw_fd() {
        0 => {
            drop(file);
            OpenOptions::new().write(true).open(rt, NOTHING).ok()
        }
        1 | 2 => Some(file),
        _ => None,
    }
}
