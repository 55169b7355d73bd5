//! Record files of either format: checked once, and then read in place.
#![tactic(auto)]

mod formats;
mod view;

pub use formats::{Format, SumFormat, TableFormat};
pub use view::{SumView, TableView, View};
