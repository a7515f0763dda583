/// Which rows a word has.
#[derive(Clone, Copy, Debug)]
pub(crate) enum WordRows {
    /// The private row of this number.
    Private(u32),
    /// The shared rows of a word of this class.
    Shared(u8),
}
