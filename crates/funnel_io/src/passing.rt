//! Errors of a listener that pass by themselves.
use std::io::ErrorKind;
use std::time::{Clock, Duration};
use std::{io, thread};

/// The process has as many descriptors as it may have.
const TOO_MANY_DESCRIPTORS: i32 = 24;

/// The system has as many open files as it may have.
const TOO_MANY_FILES: i32 = 23;

/// The system has no room for the buffers of a socket.
const NO_BUFFERS: i32 = 105;

/// The peer broke the protocol before its connection was taken.
const PROTOCOL: i32 = 71;

/// How many milliseconds a gate waits where the system lacked something.
const PAUSE_MILLIS: u64 = 50;

/// Why the system refused a connection, where it is no fault of the listener.
#[derive(Clone, Copy)]
enum Passing {
    /// The peer is gone, or its network is.
    Gone,
    /// There was no descriptor or no memory for the connection.
    Lack,
}

impl Passing {
    fn of(error: &io::Error) -> Option<Passing> {
        match error.raw_os_error()? {
            TOO_MANY_DESCRIPTORS | TOO_MANY_FILES | NO_BUFFERS => return Some(Passing::Lack),
            PROTOCOL => return Some(Passing::Gone),
            _ => {}
        }
        match error.kind() {
            ErrorKind::OutOfMemory => Some(Passing::Lack),
            ErrorKind::ConnectionAborted
            | ErrorKind::ConnectionReset
            | ErrorKind::HostUnreachable
            | ErrorKind::NetworkDown
            | ErrorKind::NetworkUnreachable
            | ErrorKind::TimedOut => Some(Passing::Gone),
            _ => None,
        }
    }
}

/// Whether a call that failed so is to be made again. Where the system lacked a descriptor or
/// memory this waits for 50 ms.
pub(crate) fn passes(clock: &impl Clock, error: &io::Error) -> bool {
    match Passing::of(error) {
        Some(Passing::Lack) => {
            thread::sleep(clock, Duration::from_millis(PAUSE_MILLIS));
            true
        }
        Some(Passing::Gone) => true,
        None => false,
    }
}
