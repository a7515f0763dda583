ghost use Rattle.std.specs.Prelude.{◌≡◌};
ghost use Rattle.funnel_c.specs.Answers.{numbers_of};

use engine::Stats;

/// How full an index is, as C sees it.
#[repr(C)]
#[derive(Clone, Copy)]
pub struct Numbers {
    /// The documents that are live.
    pub documents: u64,
    /// The commits so far.
    pub place: u64,
    /// The commits before those that the journal keeps.
    pub base: u64,
    /// The columns of all slices.
    pub columns: u64,
    /// Those of them that are unclaimed.
    pub free: u64,
    /// The slices that are retired.
    pub retired: u64,
    /// The finds that are running: none is, between two calls.
    pub finds: u64,
}

impl Numbers {
    pub fn of(stats: Stats) -> Numbers
        ensures { result ≡ numbers_of stats }
    {
        Numbers {
            documents: stats.documents,
            place: stats.place,
            base: stats.base,
            columns: stats.columns,
            free: stats.free,
            retired: stats.retired,
            finds: stats.finds,
        }
    }
}
