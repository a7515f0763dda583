use funnel_model::Memory;

/// How a fit ended.
#[derive(Clone, Copy, Debug, PartialEq, Eq)]
pub enum FitEnd {
    /// The input was read to its end, and the configuration was written.
    Done,
    /// A read failed, and nothing was written.
    ReadFault,
    /// A write failed.
    WriteFault,
    /// So many bytes were read, and no more may be. Nothing was written.
    ByteLimit(u64),
    /// No memory was found. Nothing was written.
    Memory,
    /// The input was read to its end, and no configuration fits it. Nothing was written.
    Misfit(Misfit),
}

/// Why no configuration fits. The first that applies, in this order, is told.
#[derive(Clone, Copy, Debug, PartialEq, Eq)]
pub enum Misfit {
    /// The input has no add line.
    NoAdds,
    /// The input has more add lines than a configuration may say that were counted.
    Adds { adds: u64, most: u64 },
    /// The documents need more slices than there may be.
    Slices { slices: u64, most: u64 },
    /// The rows of the pool need more words than there may be.
    Pool { words: u64, most: u64 },
}
