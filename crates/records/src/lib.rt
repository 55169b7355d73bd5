//! Files of records of 136 bytes: what both sorts of file share.
#![tactic(auto)]

mod checks;
mod kinds;
mod refusal;
mod words;

pub use checks::{all_zero, is_sum_file, whole_count};
pub use kinds::{Kind, UnknownKind};
pub use refusal::{Cause, Refusal};
pub use words::{Line, MOST_BYTES, RECORD, line_at, lines_of, read_i32, read_u16, read_u32};
