/// Where a live document is: the number of its shard, and the place of its add in the whole.
#[derive(Clone, Copy, Debug, PartialEq, Eq)]
pub struct Home {
    pub shard: usize,
    pub place: u64,
}
