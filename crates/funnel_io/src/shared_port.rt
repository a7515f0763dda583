use crate::listening::listen_on;
use std::io;
use std::net::{Net, OpenListener};
use std::sync::OnceLock;

/// A port that several gates listen on, each by a copy of one listener, so that a connection goes to a gate that asks for one. The
/// first gate that is opened makes the listener.
#[derive(Drop)]
pub struct SharedPort<L: OpenListener + Drop> {
    listener: OnceLock<L>,
}

impl<L: OpenListener + Drop> SharedPort<L> {
    /// A port that nobody listens on yet.
    pub fn new() -> SharedPort<L> {
        SharedPort {
            listener: OnceLock::new(),
        }
    }

    /// A copy of the listener, which is made where there is none yet.
    pub(crate) fn copy<R: Net<Listener = L>>(&self, net: &R, port: u16) -> io::Result<L> {
        if let Some(listener) = self.listener.get() {
            return listener.try_clone();
        }
        let listener = listen_on(net, port)?;
        let copy = listener.try_clone()?;
        // Where another gate was opened meanwhile, its listener stays.
        let _ = self.listener.try_set(listener);
        Ok(copy)
    }
}
