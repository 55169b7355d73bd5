//! A survey as text: lines of words and decimal numbers.
ghost use Rattle.std.specs.Prelude.{◌≡◌, Some};
ghost use Rattle.std.specs.Fmt.{WritesOnOk};
ghost use Rattle.answers.specs.Texts.{amount_text, listed_text, lowest_text, sort_text, status_text, survey_text, values_text, words_text};

use crate::{Price, Sort, Survey};
use std::fmt;
use trees::Status;
use words::lowest;

impl fmt::Display for Sort {
    ghost output = { λ s. Some (sort_text s) };

    fn fmt<W: fmt::Write>(&self, f: &mut fmt::Formatter<W>) -> fmt::Result {
        f.write_str(match self {
            Sort::Table => "table",
            Sort::Sum => "sum",
        })
    }
}

impl fmt::Display for Price {
    ghost output = { λ p. Some (amount_text p) };

    fn fmt<W: fmt::Write>(&self, f: &mut fmt::Formatter<W>) -> fmt::Result {
        match self {
            Price::Pair((stops, minutes)) => write!(f, "{stops}/{minutes}"),
            Price::Total(total) => write!(f, "{total}"),
        }
    }
}

/// The words of the variables; there are no more than thirty-two.
fn first(words: &[u32; 32], variables: usize) -> &[u32]
    ensures words { listed_text result.now ≡ words_text words.now variables }
    ensures values { lowest_text result.now ≡ values_text words.now variables }
{
    &words[..variables.min(32)]
}

/// Words, a blank before each.
#[derive(Drop, Clone, Copy)]
struct Words<'a>(&'a [u32]);

impl fmt::Display for Words<'_> {
    ghost output = { λ l. Some (listed_text l.0.now) };

    fn fmt<W: fmt::Write>(&self, f: &mut fmt::Formatter<W>) -> fmt::Result {
        for word in self.0 {
            write!(f, " {word}")?;
        }
        Ok(())
    }
}

/// The lowest value of each word, a blank before each.
// not one type with `Words`: they differ in one call, and a trait for that would be longer than this loop
#[derive(Drop, Clone, Copy)]
struct Values<'a>(&'a [u32]);

impl fmt::Display for Values<'_> {
    ghost output = { λ l. Some (lowest_text l.0.now) };

    fn fmt<W: fmt::Write>(&self, f: &mut fmt::Formatter<W>) -> fmt::Result {
        for word in self.0 {
            write!(f, " {}", lowest(*word))?;
        }
        Ok(())
    }
}

/// The lines of a survey: its counts, its root, the status of that, and its bound where there is one.
impl fmt::Display for Survey {
    ghost output = { λ s. Some (survey_text s) };

    fn fmt<W: fmt::Write>(&self, f: &mut fmt::Formatter<W>) -> fmt::Result {
        let (sort, variables, constraints) = (self.sort, self.variables, self.constraints);
        writeln!(f, "{sort} variables {variables} {sort}s {constraints}")?;
        let words = Words(first(&self.root.words, variables));
        writeln!(f, "root{words}")?;
        self.write_status(f)?;
        if let Some(price) = self.bound {
            writeln!(f, "bound {price}")?;
        }
        Ok(())
    }
}

impl Survey {
    /// Writes the line of the status: the choice, or the values of a solution.
    fn write_status<W: fmt::Write>(&self, f: &mut fmt::Formatter<W>) -> fmt::Result
        ensures { WritesOnOk W.write_str_gives f.old result (status_text self.now.root.words self.now.variables self.now.status) f.new }
    {
        let status = self.status;
        match status {
            Status::Solved => {
                let values = Values(first(&self.root.words, self.variables));
                writeln!(f, "{status}{values}")
            }
            _ => writeln!(f, "{status}"),
        }
    }
}
