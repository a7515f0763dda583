use crate::row::Row;

/// What a node of a search is.
#[derive(Clone, Copy, Debug, PartialEq, Eq)]
pub enum NodeKind {
    /// An atom, and whether each of its words is exact.
    Atom { exact: bool },
    And,
    Or,
    Not,
}

/// A node of a search, with how much of the plan stands for it and its parts.
#[derive(Clone, Copy, Debug, PartialEq, Eq)]
pub struct Node {
    pub kind: NodeKind,
    /// How many nodes, itself among them.
    pub nodes: usize,
    /// How many rows.
    pub rows: usize,
}

/// The plan of a search, in the order in which it is evaluated: each node stands before those of its parts, and the rows of the
/// atoms stand one atom after the other.
#[derive(Debug, Drop)]
pub struct SearchPlan {
    pub nodes: Vec<Node>,
    pub rows: Vec<Row>,
}
