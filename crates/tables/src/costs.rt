ghost use Rattle.std.specs.Prelude.{◌≡◌, ℕ, ◌<◌, ◌≤◌, ◌≢◌};
ghost use Rattle.records.specs.Tables.{variable_count, stops, minutes};
ghost use Rattle.files.specs.Meaning.{bytes_of};
ghost use Rattle.table_networks.specs.Costs.{Least};

use files::TableView;
use words::Values;

/// The least stops and the least minutes over the values of a word of variable i.
pub(crate) fn least_costs(view: &TableView, i: usize, word: u32) -> (u16, u16)
    requires { (i < variable_count (bytes_of view.now)) × (word ≢ 0) }
    ensures stops { Least (stops (bytes_of view.now) i) word result.0 }
    ensures minutes { Least (minutes (bytes_of view.now) i) word result.1 }
{
    // the word is not empty: that is tested once for all words of a node
    let mut stops = u16::MAX;
    let mut minutes = u16::MAX;
    for value in Values::of(word) {
        let (s, m) = view.costs(i, value as usize).unwrap();
        stops = stops.min(s);
        minutes = minutes.min(m);
    }
    (stops, minutes)
}
