//! The outside of the engine: where bytes come from, where they go, and where connections come
//! from. A [`Source`] is read, a [`Sink`] is written, a [`Connection`] is both, and a [`Gate`]
//! hands out connections and takes them back. Each keeps a count of faults that never falls, and
//! tells the bytes or tells nothing of them. `Mem..` are such objects in memory, which tell
//! everything; `StdinSource` and `StdoutSink` stand over the process's own streams, `FileSource`
//! over a file, and `TcpGate` over a port.
#![tactic(auto)]

mod borrower;
mod calling;
mod connection;
mod cutting;
mod duplex;
mod end;
mod file_source;
mod gate;
mod laws;
mod line_buffer;
mod line_reader;
mod listening;
mod mem_gate;
mod mem_sink;
mod mem_source;
mod opened_file;
mod pair;
mod passing;
mod reader_source;
mod reading;
mod served_conn;
mod shared_port;
mod sink;
mod source;
mod tcp_conn;
mod tcp_gate;
mod writer_sink;
mod writing;

pub use borrower::Borrower;
pub use connection::Connection;
pub use cutting::{lines_grow, lines_join};
pub use duplex::{Duplex, MemConn};
pub use end::End;
pub use file_source::FileSource;
pub use gate::{Gate, Next, Opening};
pub use laws::calls_in_memory_have_one_answer;
pub use line_reader::{Line, LineReader, MAX_LINE_LEN};
pub use mem_gate::MemGate;
pub use mem_sink::MemSink;
pub use mem_source::MemSource;
pub use opened_file::OpenedFile;
pub use pair::Pair;
pub use reader_source::{ReaderSource, StdinSource};
pub use reading::read_behind;
pub use served_conn::ServedConn;
pub use shared_port::SharedPort;
pub use sink::{Put, Sink};
pub use source::{Got, Source};
pub use tcp_conn::TcpConn;
pub use tcp_gate::TcpGate;
pub use writer_sink::{StdoutSink, WriterSink};
pub use writing::{WriteFailed, write_all};
