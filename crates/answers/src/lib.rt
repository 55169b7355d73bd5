//! What is said of a file that is not refused.
#![tactic(auto)]

use nodes::Node;
use trees::Status;

mod text;

/// Which constraints a file holds.
#[derive(Drop, Clone, Copy)]
pub enum Sort {
    Table,
    Sum,
}

/// A cost: stops and minutes in a table file, a total in a sum file.
#[derive(Drop, Clone, Copy)]
pub enum Price {
    Pair((u32, u32)),
    Total(i64),
}

/// The counts of a file, the root of its search tree, and what a search sees of it.
#[derive(Drop, Clone, Copy)]
pub struct Survey {
    pub sort: Sort,
    pub variables: usize,
    pub constraints: usize,
    pub root: Node,
    pub status: Status,
    pub bound: Option<Price>,
}
