//! Sums: problems whose constraints are signed sums, read in place from a sum file.
#![tactic(auto)]

mod problem;
mod products;
mod revising;
mod rows;

pub use problem::Sums;
