ghost use Rattle.std.specs.Prelude.{◌≡◌, ◌≤◌, length};
ghost use Rattle.row_layout.specs.Orders.{IsInPlanOrder, rows_of_rank};

use crate::row::Row;
use std::marker::Model;

/// The rows of a query in the order in which they are read: by falling rank, and within a rank by rising start, each once.
/// Contracts see them as a list.
#[derive(Debug, Drop)]
pub struct Plan {
    rows: Vec<Row>,
    /// How many rows have at least this rank.
    from_rank: [usize; 8],
}

impl Model for Plan {
    ghost use Rattle.std.specs.Prelude.{List};
    ghost use Rattle.row_layout.specs.declared.row.Row.{Row};
    ghost use Rattle.row_layout.specs.Orders.{IsPlanned};

    ghost Value = { List Row };

    ghost view = { λ plan. plan.rows.items };

    ghost invariant = { λ plan. IsPlanned plan.rows.items plan.from_rank };
}

impl Plan {
    /// Plans rows that stand in the order of a plan, each once.
    pub fn new(rows: Vec<Row>) -> Self
        requires { IsInPlanOrder rows.items }
        ensures { result ≡ rows.items }
    {
        let mut from_rank = [0; 8];
        for rank in 0..8 {
            from_rank[rank as usize] = rows.partition_point(|row| row.rank >= rank);
        }
        Plan { rows, from_rank }
    }

    /// The number of rows.
    pub fn len(&self) -> usize
        ensures { result ≡ length self.now }
    {
        self.rows.len()
    }

    /// The rows in order.
    pub fn as_slice(&self) -> &[Row]
        ensures rows { result.now ≡ self.now }
        ensures in_order { IsInPlanOrder self.now }
    {
        self.rows.as_slice()
    }

    /// The rows of a rank, in order.
    pub fn of_rank(&self, rank: u8) -> &[Row]
        requires { rank ≤ 6 }
        ensures rows { result.now ≡ rows_of_rank rank self.now }
        ensures in_order { IsInPlanOrder self.now }
    {
        let rank = rank as usize;
        &self.rows[self.from_rank[rank + 1]..self.from_rank[rank]]
    }

    /// The vector that `new` was given.
    pub fn into_inner(self) -> Vec<Row>
        ensures rows { result.items ≡ self }
        ensures in_order { IsInPlanOrder self }
    {
        self.rows
    }
}
