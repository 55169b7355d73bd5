//! Tables: constraints on two variables each, with two costs for each value.
#![tactic(auto)]

mod costs;
mod partners;
mod problem;

pub use problem::Tables;
