ghost use Rattle.std.specs.Prelude.{◌≡◌, ℕ, ◌<◌, ◌≤◌};
ghost use Rattle.records.specs.Tables.{table_count, table_row};
ghost use Rattle.files.specs.Meaning.{bytes_of};
ghost use Rattle.table_networks.specs.Tables.{Kept};

use files::TableView;
use words::{Values, without};

/// The values of x that go with one of y in table k, and those of y that go with one of x.
pub(crate) fn partners(view: &TableView, k: usize, wx: u32, wy: u32) -> (u32, u32)
    requires { k < table_count (bytes_of view.now) }
    ensures { Kept (table_row (bytes_of view.now) k) wx wy result.0 result.1 }
{
    let mut supported = wx;
    let mut any = 0;
    for a in Values::of(wx) {
        let row = view.row(k, a as usize).unwrap() & wy;
        if row == 0 {
            supported = without(supported, a);
        }
        any |= row;
    }
    (supported, any)
}
