ghost use Rattle.std.specs.Prelude.{◌≡◌, ◌≤◌, true, length, reverse};
ghost use Rattle.trails.specs.Entries.{kept};

use crate::entry::{Entry, Mark};
use arrayvec::ArrayVec;

pub mod calls;

/// The entries since each mark, one mark after the other. No word has two entries since the same mark, so 32 marks
/// of 32 words each find room.
#[derive(Drop)]
pub struct Trail {
    // a plain table: one entry is lent and written again, and no blank is written where entries are taken off
    entries: [Entry; 1024],
    marks: ArrayVec<Mark, 32>,
    ghost long: { length entries ≡ 1024 },
    ghost few: { length marks.items ≤ 32 },
    ghost ok: { kept entries (reverse marks.items) ≡ true },
}
