//! The arguments of a program that replays calls on a stack of layers: a number, a stack, a script of calls.
#![tactic(auto)]

mod numbers;
pub mod script;
pub mod stack;

pub use numbers::read_number;
pub use script::read_script;
pub use stack::read_stack;
