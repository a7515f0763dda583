use crate::duplex::MemConn;
use crate::end::End;

/// A connection that came back, with the end of its session.
#[derive(Debug, Drop)]
pub struct ServedConn {
    pub conn: MemConn,
    pub session_end: End,
}
