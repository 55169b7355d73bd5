//! The answers of a space as text, a line each.
#![tactic(auto)]

ghost use Rattle.std.specs.Prelude.{◌≡◌, ℕ, List, ◌++◌, IfOk, OnOk, Some, string_bytes, decimal};
ghost use Rattle.std.specs.Fmt.{WritesOnOk, signed_decimal};
ghost use Rattle.std.proofs.Common.{rules};
ghost use Rattle.reply_texts.specs.Replies.{answers_text, pair_text, printed};

use runs::calls::Answer;
use std::alloc::{AllocError, Global};
use std::fmt;

/// A cost that can be written.
pub trait Shown: Copy {
    ghost shown: { Self → List ℕ };

    /// Writes the cost.
    fn show<W: fmt::Write>(self, f: &mut fmt::Formatter<W>) -> fmt::Result
        ensures { WritesOnOk W.write_str_gives f.old result (shown self) f.new };
}

/// Adds a cost to a text.
pub fn put<C: Shown>(cost: C, text: &mut String) -> Result<(), AllocError>
    ensures { OnOk result (string_bytes text.new ≡ string_bytes text.old ++ C.Shown.shown cost) }
{
    write!(text, "{}", Cost(cost))
}

/// A cost, as it prints.
#[derive(Clone, Copy)]
struct Cost<C>(C);

impl<C: Shown> fmt::Display for Cost<C> {
    ghost output = { λ c. Some (C.Shown.shown c.0) };

    fn fmt<W: fmt::Write>(&self, f: &mut fmt::Formatter<W>) -> fmt::Result {
        self.0.show(f)
    }
}

/// A number: it is written as it prints itself.
pub trait Number: Copy + fmt::Display {
    ghost digits: { Self → List ℕ };

    ghost prints: { (n : Self) → Self.Display.output n ≡ Some (digits n) };
}

impl Number for i64 {
    ghost digits = { signed_decimal };

    ghost prints = { Prim.search rules };
}

impl Number for u16 {
    ghost digits = { decimal };

    ghost prints = { Prim.search rules };
}

impl<N: Number> Shown for N {
    ghost shown = { N.Number.digits };

    fn show<W: fmt::Write>(self, f: &mut fmt::Formatter<W>) -> fmt::Result {
        write!(f, "{self}")
    }
}

// A pair of costs is a tuple, which has no `Display`.
impl Shown for (u32, u32) {
    ghost shown = { pair_text };

    fn show<W: fmt::Write>(self, f: &mut fmt::Formatter<W>) -> fmt::Result {
        let (stops, minutes) = self;
        write!(f, "{stops}/{minutes}")
    }
}

/// An answer, as it prints.
#[derive(Drop)]
struct Printed<'a, C>(&'a Answer<C>);

impl<'a, C: Shown> fmt::Display for Printed<'a, C> {
    ghost output = { λ a. Some (printed C.Shown.shown a.0.now) };

    fn fmt<W: fmt::Write>(&self, f: &mut fmt::Formatter<W>) -> fmt::Result {
        match self.0 {
            Answer::Done => f.write_str("done"),
            Answer::Node(status) => status.fmt(f),
            Answer::Cost(cost) => cost.show(f),
            Answer::Number(number) => number.fmt(f),
            Answer::Refused(refusal) => refusal.fmt(f),
        }
    }
}

/// The lines of a list of answers.
#[derive(Drop)]
struct Lines<'a, C>(&'a [Answer<C>]);

impl<'a, C: Shown> fmt::Display for Lines<'a, C> {
    ghost output = { λ l. Some (answers_text C.Shown.shown l.0.now) };

    fn fmt<W: fmt::Write>(&self, f: &mut fmt::Formatter<W>) -> fmt::Result {
        for answer in self.0 {
            Printed(answer).fmt(f)?;
            f.write_str("\n")?;
        }
        Ok(())
    }
}

/// The lines of all answers.
pub fn answers_text<C: Shown>(heap: Global, answers: &[Answer<C>]) -> Result<String, AllocError>
    ensures { IfOk result (λ s. string_bytes s ≡ answers_text C.Shown.shown answers.now) }
{
    Lines(answers).to_string(heap)
}

#[cfg(test)]
mod tests {
    use super::*;
    use std::test::Fail;

    #[test]
    fn a_pair_is_written_with_a_slash(rt: HostRuntime) -> Result<(), Fail> {
        let mut text = String::new(rt.alloc());
        put((2u32, 30u32), &mut text)?;
        assert_eq!(rt; text.as_str(), "2/30");
        Ok(())
    }
}
