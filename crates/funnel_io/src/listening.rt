//! Listeners on ports of 127.0.0.1.
use std::io;
use std::net::{Ipv4Addr, Net, TcpListener};

/// Listens on the port.
pub(crate) fn listen_on<R: Net>(net: &R, port: u16) -> io::Result<R::Listener> {
    TcpListener::bind(net, (Ipv4Addr::LOCALHOST, port))
}
