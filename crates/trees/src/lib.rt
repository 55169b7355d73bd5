//! Search trees over nodes of any make: what a search can see of a node.
#![tactic(auto)]

mod text;

/// Where a search stands at a node.
#[derive(Clone, Copy)]
pub enum Status {
    /// Some variable has no value left.
    Failed,
    /// Every variable has one value.
    Solved,
    /// The variable and the value that the two alternatives are about.
    Choice((u8, u8)),
}
