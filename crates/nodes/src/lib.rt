//! Nodes: thirty-two words of values, and what a search can see of them.
#![tactic(auto)]

pub mod node;

pub use node::Node;
