ghost use Rattle.std.specs.Prelude.{◌≡◌, ◌<◌, Some, slice_get};
ghost use Rattle.load_gen.specs.Queries.{queries};

/// The queries of a load.
pub(crate) const QUERIES: [&str; 8] = ["w0", "w0 w1", "w1", "w1 w2", "w2", "w2 w3", "w3", "w3 w4"];

/// The query with this number, from 0 on.
pub fn query(j: u32) -> &'static str
    requires { j < 8 }
    ensures { slice_get queries j ≡ Some result.now }
{
    QUERIES[j as usize]
}
