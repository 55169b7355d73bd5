//! A sum of a file, and the objective: their coefficients, and totals of products over a node.
ghost use Rattle.std.specs.Prelude.{◌≡◌, ℕ, ◌<◌, ◌≤◌, ℤ, pos, negsuc, ◌≤ℤ◌, Some, None, MatchOption};
ghost use Rattle.nodes.specs.Choosing.{Filled};
ghost use Rattle.files.specs.Meaning.{bytes_of};
ghost use Rattle.records.specs.Sums.{sum_width, sum_count, objective_at, coefficient_at, least_at, Moderate};
ghost use Rattle.sum_networks.specs.Sums.{mask, totals};
ghost use Rattle.sum_networks.specs.Steps.{Kept, reaches};
ghost use Rattle.sum_networks.specs.Files.{sum_at, bound_of};

use crate::products::Coefficient;
use files::SumView;
use nodes::Node;
use words::{change, only};

/// A sum that the file has.
#[derive(Drop, Clone, Copy)]
pub(crate) struct Row<'a> {
    view: &'a SumView<'a>,
    k: usize,
    ghost inside: { k < sum_count (bytes_of view.now) },
}

impl<'a> Row<'a> {
    /// Sum `k`, if the file has it.
    pub(crate) fn of(view: &'a SumView<'a>, k: usize) -> Option<Row<'a>>
        ensures { MatchOption result (sum_count (bytes_of view.now) ≤ k) (λ r. (r.k ≡ k) × (bytes_of r.view.now ≡ bytes_of view.now)) }
    {
        if k >= view.sums() {
            return None;
        }
        Some(Row { view, k })
    }

    /// Coefficient `i`.
    fn coefficient(&self, i: usize) -> Coefficient
        requires { i < sum_width (bytes_of self.now.view.now) }
        ensures { result.value ≡ coefficient_at (bytes_of self.now.view.now) self.now.k i }
    {
        let value = self.view.coefficient(self.k, i).unwrap();
        Coefficient { value }
    }

    /// The set of the variables that have a coefficient other than 0.
    fn touched(&self) -> u32
        ensures { result ≡ mask (sum_at (bytes_of self.now.view.now) self.now.k) (sum_width (bytes_of self.now.view.now)) }
    {
        // i is the number of a variable, by which the view is asked and the answer told
        let mut touched = 0;
        for i in 0..self.view.variables() {
            if self.coefficient(i).value != 0 {
                touched |= only(i as u32);
            }
        }
        touched
    }

    /// The total of the largest products in a node.
    fn total(&self, node: &Node) -> i64
        requires { Filled (sum_width (bytes_of self.now.view.now)) node.now.words }
        ensures value { result ≡ totals (coefficient_at (bytes_of self.now.view.now) self.now.k) node.now.words (sum_width (bytes_of self.now.view.now)) }
        ensures low { negsuc 991999999 ≤ℤ result }
        ensures high { result ≤ℤ pos 992000000 }
    {
        let mut sum = 0i64;
        for (i, word) in node.words[..self.view.variables()].iter().enumerate() {
            sum += self.coefficient(i).most(*word);
        }
        sum
    }

    /// Removes the values with which the sum cannot be reached, and answers which words changed.
    pub(crate) fn narrow(&self, node: &mut Node) -> u32
        requires { Filled (sum_width (bytes_of self.now.view.now)) node.old.words }
        ensures { Kept (reaches (sum_at (bytes_of self.now.view.now) self.now.k) (sum_width (bytes_of self.now.view.now)) node.old.words) node.old.words node.new.words (sum_width (bytes_of self.now.view.now)) result }
    {
        let least = self.view.least(self.k).unwrap();
        let short = i64::from(least) - self.total(node);
        // there are no more than 32: said again, it spares a test in each reading
        let width = self.view.variables().min(32);
        let mut changed = 0;
        for (i, word) in node.words[..width].iter_mut().enumerate() {
            let coefficient = self.coefficient(i);
            let need = short + coefficient.most(*word);
            let left = coefficient.reaching(*word, need);
            changed |= change(i as u32, *word, left);
            *word = left;
        }
        changed
    }
}

/// The set of the variables that have a coefficient other than 0 in sum `k`; none where the file has no such sum.
pub(crate) fn touched_by(view: &SumView, k: usize) -> u32
    ensures { k < sum_count (bytes_of view.now) → result ≡ mask (sum_at (bytes_of view.now) k) (sum_width (bytes_of view.now)) }
{
    Row::of(view, k).map_or(0, |row| row.touched())
}

// not one with `Row::coefficient` and `Row::total`: the objective has no number, and its least products are added, not the largest
/// Coefficient `i` of the objective.
fn cost(view: &SumView, i: usize) -> Coefficient
    requires { i < sum_width (bytes_of view.now) }
    ensures { result.value ≡ objective_at (bytes_of view.now) i }
{
    let value = view.objective(i).unwrap();
    Coefficient { value }
}

/// The total of the least products of the objective in a node.
pub(crate) fn cheapest(view: &SumView, node: &Node) -> i64
    requires { Filled (sum_width (bytes_of view.now)) node.now.words }
    ensures { result ≡ bound_of (bytes_of view.now) node.now.words }
{
    let mut sum = 0i64;
    for (i, word) in node.words[..view.variables()].iter().enumerate() {
        sum += cost(view, i).least(*word);
    }
    sum
}
