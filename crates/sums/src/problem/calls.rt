//! A sum file as constraints with costs.
ghost use Rattle.records.proofs.Facts.{width_some};
ghost use Rattle.sum_networks.proofs.Keeping.{sums_sane};
ghost use Rattle.std.proofs.Props.{props};
ghost use Rattle.std.specs.Prelude.{◌≡◌, ℕ, ◌<◌, ◌≤◌, int_lt};
ghost use Rattle.files.specs.Meaning.{bytes_of};
ghost use Rattle.records.specs.Sums.{sum_width, objective_at};
ghost use Rattle.sum_networks.specs.Sums.{SupportLaw, BoundLaw};
ghost use Rattle.sum_networks.specs.Files.{sum_at, network_of, start_of, bound_of, cost_of};
ghost use Rattle.sums.specs.Meaning.{file_of};

use super::Sums;
use crate::revising::clear;
use crate::rows::{Row, cheapest, touched_by};
use files::SumView;
use nodes::Node;
use problems::Problem;
use propagation::Constraints;
use std::array;

impl<'a> Sums<'a> {
    /// The problem of a sum file. A value is supported just where the largest products of the other words reach the
    /// sum with it, and the bound of a node is the total of its least products.
    pub fn new(view: SumView<'a>) -> Sums<'a>
        ensures shows { file_of result ≡ bytes_of view.entry }
        ensures support { (k : ℕ) → SupportLaw (sum_at (bytes_of view.entry) k) (sum_width (bytes_of view.entry)) }
        ensures bounded { BoundLaw (objective_at (bytes_of view.entry)) (sum_width (bytes_of view.entry)) }
    {
        // by index, for the sums of the file alone: an iterator over the array costs more where they are few
        let mut touched = [0; 64];
        for k in 0..view.sums() {
            touched[k] = touched_by(&view, k);
        }
        Sums { view, touched }
    }
}

impl<'a> Constraints for Sums<'a> {
    ghost network = { λ s. network_of (file_of s) };

    fn width(&self) -> usize {
        self.view.variables()
    }

    fn count(&self) -> usize {
        self.view.sums()
    }

    fn touches(&self, k: usize) -> u32 {
        if k < self.count() { self.touched[k] } else { 0 }
    }

    fn revise(&self, k: usize, node: &mut Node) -> u32 {
        let Some(row) = Row::of(&self.view, k) else {
            return 0;
        };
        let width = self.width();
        if node.has_empty(width) {
            clear(node, width)
        } else {
            row.narrow(node)
        }
    }

    ghost sane = { λ s. sums_sane _ _ _ (width_some _ s.view.ok) };
}

impl<'a> Problem for Sums<'a> {
    type Cost = i64;

    ghost costs = { Prim.hlevel props };

    ghost start = { λ s. start_of (file_of s) };

    ghost bound = { λ s. bound_of (file_of s) };

    ghost cost = { λ s. cost_of (file_of s) };

    ghost less = { int_lt };

    fn start(&self) -> Node {
        let width = self.width();
        let words = array::from_fn(|i| if i < width { 3 } else { 0 });
        Node { words }
    }

    fn bound(&self, node: &Node) -> Option<i64> {
        // an `if`, not `then`: of its closure's result the check finds no proof
        if node.has_empty(self.width()) {
            None
        } else {
            Some(cheapest(&self.view, node))
        }
    }

    fn less(a: i64, b: i64) -> bool
        ensures { result ≡ int_lt a b }
    {
        a < b
    }
}
