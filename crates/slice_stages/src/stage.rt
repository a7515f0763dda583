/// How far a slice is.
#[derive(Clone, Copy, Debug, PartialEq, Eq)]
pub enum Stage {
    /// It may be filled and read. So many of its columns are claimed, which are its first ones, and so many of these are
    /// over: fewer than it has columns.
    InUse { claimed: u32, over: u32 },
    /// Each of its columns is over, since the event with this number.
    Retired { at: u64 },
    /// This pass is clearing it.
    Clearing { pass: u32 },
}
