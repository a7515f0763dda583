/// Why a configuration has no layout within a room.
#[derive(Clone, Copy, Debug, PartialEq, Eq)]
pub enum LayoutFault {
    /// Its rows need so many words in a slice, and there is room for fewer.
    Wide { needed: u64, room: u64 },
    /// There is no memory for it.
    Memory,
}
