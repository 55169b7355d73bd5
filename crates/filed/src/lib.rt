//! Problems that record files hold.
#![tactic(auto)]

ghost use Rattle.std.specs.Prelude.{◌≡◌, if◌then◌else◌, Some, None, MatchResult};
ghost use Rattle.records.specs.Refusals.{Faulty};
ghost use Rattle.filed.specs.Meaning.{Held, Reading, sum_reading, table_reading};
ghost use Rattle.answers.specs.declared.Sort.TheVariants.{Sum, Table};
ghost use Rattle.nodes.specs.Choosing.{empty_below};

use answers::{Price, Sort};
use files::{SumView, TableView};
use nodes::Node;
use problems::Problem;
use records::Refusal;
use sums::Sums;
use tables::Tables;

/// A problem that a file of one sort holds, read in place.
pub trait Filed<'a>: Problem {
    ghost reading: { Reading Self.Cost };

    /// Checks a file and reads its problem.
    fn open(bytes: &'a [u8]) -> Result<Self, Refusal>
        ensures { MatchResult result (λ p. Held reading bytes.now (Self.Constraints.network p) (Self.Problem.start p) (Self.Problem.bound p) (Self.Problem.cost p)) (Faulty reading.code bytes.now) };

    /// Which constraints such a file holds.
    fn sort() -> Sort
        ensures { result ≡ reading.sort };

    /// The bound of a node as a price; none where a word is empty.
    fn least(&self, node: &Node) -> Option<Price>
        ensures { result ≡ (if empty_below (Self.Constraints.network self.now).width node.now.words then None else Some (reading.price (Self.Problem.bound self.now node.now.words))) };
}

// `open` stands in each impl: what differs is the type of the view, which is filled by its own call
impl<'a> Filed<'a> for Tables<'a> {
    ghost reading = { table_reading };

    fn open(bytes: &'a [u8]) -> Result<Tables<'a>, Refusal> {
        let mut view = TableView::built_in();
        TableView::read(&mut view, bytes)?;
        Ok(Tables::new(view))
    }

    fn sort() -> Sort
        ensures { result ≡ Table }
    {
        Sort::Table
    }

    fn least(&self, node: &Node) -> Option<Price> {
        self.bound(node).map(Price::Pair)
    }
}

impl<'a> Filed<'a> for Sums<'a> {
    ghost reading = { sum_reading };

    fn open(bytes: &'a [u8]) -> Result<Sums<'a>, Refusal> {
        let mut view = SumView::built_in();
        SumView::read(&mut view, bytes)?;
        Ok(Sums::new(view))
    }

    fn sort() -> Sort
        ensures { result ≡ Sum }
    {
        Sort::Sum
    }

    fn least(&self, node: &Node) -> Option<Price> {
        self.bound(node).map(Price::Total)
    }
}
