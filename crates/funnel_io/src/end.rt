/// How a session on a connection ended.
#[derive(Clone, Copy, Debug, PartialEq, Eq)]
pub enum End {
    /// The input was read to its end and every reply was written; over HTTP also: a response that closes the connection was
    /// written, after which bytes may be left.
    Done,
    /// A read failed.
    ReadFault,
    /// A write failed.
    WriteFault,
    /// So many bytes were read, and no more may be.
    ByteLimit(u64),
    /// Memory ran out before anything was read or written.
    Memory,
}
