//! A network on which one client waits, or which can't be listened on, and what it was asked.
use std::cell::{Cell, OnceCell};
use std::io;
use std::io::ErrorKind;
use std::net::{Net, OpenListener, SocketAddr, TcpListener, TcpStream};
use std::os::fd::{AsRawFd, RawFd};
use std::time::{Clock, Duration};

/// What a network was asked, another handle of the connection that it gave, and how long was waited on its clock.
#[derive(Drop)]
pub(crate) struct Seen {
    pub calls: Cell<u64>,
    pub address: Cell<Option<SocketAddr>>,
    pub waited: Cell<Duration>,
    stream: OnceCell<TcpStream>,
}

impl Seen {
    pub fn nothing() -> Seen {
        Seen {
            calls: Cell::new(0),
            address: Cell::new(None),
            waited: Cell::new(Duration::ZERO),
            stream: OnceCell::new(),
        }
    }

    /// Whether what is written to the connection goes out at once.
    pub fn is_at_once(&self) -> io::Result<bool> {
        match self.stream.get() {
            Some(stream) => stream.nodelay(),
            None => Ok(false),
        }
    }
}

/// A network that listens by this listener, whichever address it is asked for. Without one it can't be listened on. The first
/// connection is refused with this error of the system.
#[derive(Drop)]
pub(crate) struct Network<'a> {
    pub listener: Option<&'a TcpListener>,
    pub refusal: Option<i32>,
    pub seen: &'a Seen,
}

impl<'a> Net for Network<'a> {
    type Stream = TcpStream;

    type Listener = Listener<'a>;

    fn bind(&self, addr: SocketAddr) -> io::Result<Listener<'a>> {
        let seen = self.seen;
        seen.calls.set(seen.calls.get().saturating_add(1));
        seen.address.set(Some(addr));
        match self.listener {
            Some(listener) => Ok(Listener {
                listener,
                refusal: Cell::new(self.refusal),
                seen,
            }),
            None => Err(io::Error::from(ErrorKind::Interrupted)),
        }
    }

    fn connect(&self, _addr: SocketAddr) -> io::Result<TcpStream> {
        Err(io::Error::from(ErrorKind::ConnectionRefused))
    }
}

/// Its clock stands, and nobody waits.
impl Clock for Network<'_> {
    fn monotonic(&self) -> io::Result<Duration> {
        Ok(Duration::ZERO)
    }

    fn since_1970(&self) -> io::Result<Duration> {
        Ok(Duration::ZERO)
    }

    fn sleep(&self, duration: Duration) {
        let waited = self.seen.waited.get();
        self.seen.waited.set(waited.saturating_add(duration));
    }
}

/// The listener of a network.
#[derive(Drop)]
pub(crate) struct Listener<'a> {
    listener: &'a TcpListener,
    refusal: Cell<Option<i32>>,
    seen: &'a Seen,
}

impl OpenListener for Listener<'_> {
    type Stream = TcpStream;

    fn accept(&self) -> io::Result<(TcpStream, SocketAddr)> {
        if let Some(code) = self.refusal.take() {
            return Err(io::Error::from_raw_os_error(code));
        }
        let (stream, peer) = self.listener.accept()?;
        let _ = self.seen.stream.set(stream.try_clone()?);
        Ok((stream, peer))
    }
}

impl AsRawFd for Listener<'_> {
    fn as_raw_fd(&self) -> RawFd {
        self.listener.as_raw_fd()
    }
}
