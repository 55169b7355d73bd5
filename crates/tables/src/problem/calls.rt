//! Tables as constraints, and as a problem with costs.
ghost use Rattle.table_networks.proofs.Files.{network_sane};
ghost use Rattle.std.proofs.Props.{props};
ghost use Rattle.std.specs.Prelude.{◌≡◌, ℕ, ◌+◌, ◌<◌, ◌≤◌, List, length};
ghost use Rattle.files.specs.Meaning.{bytes_of};
ghost use Rattle.records.specs.Tables.{variable_count, stops, minutes};
ghost use Rattle.table_networks.specs.Costs.{LeastLaw, bound, cost, less};
ghost use Rattle.table_networks.specs.Files.{network_of, start_of};
ghost use Rattle.tables.specs.Meaning.{file_of};

use super::Tables;
use crate::costs::least_costs;
use crate::partners::partners;
use files::TableView;
use nodes::Node;
use problems::Problem;
use propagation::Constraints;
use words::{change, only};

impl<'a> Tables<'a> {
    /// The problem of the table file that a view shows.
    pub fn new(view: TableView<'a>) -> Tables<'a>
        ensures file { file_of result ≡ bytes_of view.entry }
        ensures least { LeastLaw }
    {
        Tables { view }
    }
}

impl<'a> Constraints for Tables<'a> {
    ghost network = { λ s. network_of (bytes_of s.view) };

    fn width(&self) -> usize {
        self.view.variables()
    }

    fn count(&self) -> usize {
        self.view.tables()
    }

    fn touches(&self, k: usize) -> u32 {
        self.view
            .ends(k)
            .map_or(0, |(x, y)| only(u32::from(x)) | only(u32::from(y)))
    }

    fn revise(&self, k: usize, node: &mut Node) -> u32 {
        let Ok((x, y)) = self.view.ends(k) else {
            return 0;
        };
        let (i, j) = (usize::from(x), usize::from(y));
        let (wx, wy) = (node.words[i], node.words[j]);
        let (kx, ky) = partners(&self.view, k, wx, wy);
        node.words[i] = kx;
        node.words[j] = ky;
        change(u32::from(x), wx, kx) | change(u32::from(y), wy, ky)
    }

    ghost sane = { λ s. network_sane (bytes_of s.view) s.view.ok };
}

impl<'a> Problem for Tables<'a> {
    type Cost = (u32, u32);

    ghost costs = { Prim.hlevel props };

    ghost start = { λ s. start_of (bytes_of s.view) };

    ghost bound = { λ s. bound (stops (bytes_of s.view)) (minutes (bytes_of s.view)) (variable_count (bytes_of s.view)) };

    ghost cost = { λ s. cost (stops (bytes_of s.view)) (minutes (bytes_of s.view)) (variable_count (bytes_of s.view)) };

    ghost less = { less };

    fn start(&self) -> Node {
        // by index, for the variables of the file alone: an iterator over the array costs more where they are few
        let mut words = [0; 32];
        for i in 0..self.view.variables() {
            words[i] = self.view.start(i).unwrap_or(0);
        }
        Node { words }
    }

    fn bound(&self, node: &Node) -> Option<(u32, u32)> {
        let width = self.view.variables();
        if node.has_empty(width) {
            return None;
        }
        let mut stops = 0;
        let mut minutes = 0;
        for (i, word) in node.words[..width].iter().enumerate() {
            let (s, m) = least_costs(&self.view, i, *word);
            stops += u32::from(s);
            minutes += u32::from(m);
        }
        Some((stops, minutes))
    }

    fn less(a: (u32, u32), b: (u32, u32)) -> bool
        ensures { result ≡ less a b }
    {
        a < b
    }
}
