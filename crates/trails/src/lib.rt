//! A trail: the old values of words that have changed since each of a few marks, in a table of fixed size.
#![tactic(auto)]

pub mod entry;
pub mod table;
