ghost use Rattle.std.specs.Prelude.{◌≡◌, None};
ghost use Rattle.funnel.specs.Ends.{exit_status_of, why_of_config, why_of_end, why_of_fit};

use engine::Closed;
use fit::FitEnd;
use funnel_io::End;
use funnel_stats::ConfigFault;
use std::fmt;

/// How a program of funnel ended.
#[derive(Debug, Drop)]
pub enum Why {
    /// `run`: the input was read to its end and every reply was written. `serve`: each worker's gate has no more connections,
    /// or the worker served as many as it may. `load`: the whole summary was written. `fit`: the configuration was written. A text
    /// that was asked for was written.
    Done,
    /// The words are no command, and ask for no text.
    Usage,
    /// The configuration is refused, for another cause than a failed read or want of memory.
    Config(ConfigFault),
    /// A read failed, of the configuration or of the input.
    ReadFault,
    /// A write failed.
    WriteFault,
    /// Memory ran out. A run had read no line then, a load had made none, some or all of its calls, and neither has written anything.
    /// In a serve it ran out before any connection came, or where some sessions began: these read and wrote nothing, and all
    /// others had theirs. A fit had read no line, some or all, and had written nothing.
    Memory,
    /// A gate of a serve failed.
    GateFault,
    /// The system gave this one of the workers of a serve no thread. No worker took a connection then.
    NoThread(usize),
    /// So many bytes of the input were read, and no more may be.
    ByteLimit(u64),
    /// A number of the command doesn't fit, or no configuration can be fitted.
    Misfit(Misfit),
}

/// A number of the command that doesn't fit the configuration or the gates that the program was handed, or is no port. Or what
/// keeps a fit from a configuration.
#[derive(Clone, Copy, Debug, PartialEq, Eq)]
pub enum Misfit {
    /// A serve has another number of workers than there are gates.
    Gates { stated: u32, given: u64 },
    /// A serve or a load has more workers than there are passes.
    Workers { asked: u32, passes: u32 },
    /// The last worker of a serve would listen on a port that there isn't.
    Ports { last: u32 },
    /// A load has more documents than there are columns in all slices.
    Columns { docs: u64, columns: u64 },
    /// No configuration for so many documents is fitted to the add lines of a fit.
    Sample(fit::Misfit),
}

impl Why {
    /// The exit status.
    pub fn status(&self) -> u8
        ensures { result ≡ exit_status_of self.now }
    {
        match self {
            Why::Done => 0,
            Why::Usage => 1,
            Why::Config(_) => 2,
            Why::ReadFault => 3,
            Why::WriteFault => 4,
            Why::Memory => 5,
            Why::GateFault | Why::NoThread(_) => 6,
            Why::ByteLimit(_) => 7,
            Why::Misfit(_) => 8,
        }
    }
}

/// What the program says on standard error, after its name.
impl fmt::Display for Why {
    fn fmt<W: fmt::Write>(&self, f: &mut fmt::Formatter<W>) -> fmt::Result {
        match self {
            Why::Done => f.write_str("done"),
            Why::Usage => f.write_str("usage"),
            Why::Config(fault) => write!(f, "config {}", fault.number()),
            Why::ReadFault => f.write_str("read fault"),
            Why::WriteFault => f.write_str("write fault"),
            Why::Memory => f.write_str("out of memory"),
            Why::GateFault | Why::NoThread(_) => f.write_str("gate fault"),
            Why::ByteLimit(_) => f.write_str("byte limit"),
            Why::Misfit(_) => f.write_str("does not fit"),
        }
    }
}

impl From<End> for Why {
    fn from(end: End) -> Why
        ensures { result ≡ why_of_end end }
    {
        match end {
            End::Done => Why::Done,
            End::ReadFault => Why::ReadFault,
            End::WriteFault => Why::WriteFault,
            End::ByteLimit(count) => Why::ByteLimit(count),
            End::Memory => Why::Memory,
        }
    }
}

impl From<FitEnd> for Why {
    fn from(end: FitEnd) -> Why
        ensures { result ≡ why_of_fit end }
    {
        match end {
            FitEnd::Done => Why::Done,
            FitEnd::ReadFault => Why::ReadFault,
            FitEnd::WriteFault => Why::WriteFault,
            FitEnd::ByteLimit(count) => Why::ByteLimit(count),
            FitEnd::Memory => Why::Memory,
            FitEnd::Misfit(cause) => Why::Misfit(Misfit::Sample(cause)),
        }
    }
}

impl From<ConfigFault> for Why {
    fn from(fault: ConfigFault) -> Why
        ensures { result ≡ why_of_config fault }
    {
        match fault {
            ConfigFault::ReadFault => Why::ReadFault,
            ConfigFault::Memory => Why::Memory,
            fault => Why::Config(fault),
        }
    }
}

/// What a program of funnel gives back at its end: the gates that it was handed, and what is left of its engine where
/// it opened one.
#[derive(Drop)]
pub struct ProgramEnd<G> {
    pub why: Why,
    pub gates: Vec<G>,
    pub closed: Option<Closed>,
}

impl<G> ProgramEnd<G> {
    /// Ends without an engine, with the gates as they came.
    pub(crate) fn unopened(why: Why, gates: Vec<G>) -> ProgramEnd<G>
        ensures { result ≡ record { why = why; gates = gates; closed = None } }
    {
        let closed = None;
        ProgramEnd { why, gates, closed }
    }

    /// The exit status.
    pub fn status(&self) -> u8
        ensures { result ≡ exit_status_of self.now.why }
    {
        self.why.status()
    }
}
