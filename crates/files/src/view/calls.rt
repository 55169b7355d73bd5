ghost use Rattle.std.specs.Prelude.{◌≡◌, ℕ, ◌+◌, ◌*◌, ◌/◌, ◌<◌, ◌≤◌, length, take, drop, Ok, Err, MatchResult};
ghost use Rattle.records.specs.Checks.{count, Lawful};
ghost use Rattle.records.specs.Refusals.{Faulty, Missing};
ghost use Rattle.records.specs.declared.refusal.Refusal.{Refusal};
ghost use Rattle.files.specs.Meaning.{bytes_of};

use super::View;
use crate::formats::Format;
use records::{RECORD, Refusal, lines_of};
use std::marker::PhantomData;

impl<'a, F: Format> View<'a, F> {
    /// The view of a file of one variable, to be filled by `read`.
    pub fn built_in() -> View<'a, F>
        ensures { bytes_of result ≡ F.plain_file }
    {
        View {
            bytes: F::plain(),
            variables: 1,
            format: PhantomData,
        }
    }

    /// Checks a file and shows it in `view`, which a refusal leaves as it was.
    pub fn read(view: &mut View<'a, F>, bytes: &'a [u8]) -> Result<(), Refusal>
        ensures answer { MatchResult result (λ _. Lawful F.code bytes.now × (bytes_of view.new ≡ bytes.now)) (λ e. Faulty F.code bytes.now e × (view.new ≡ view.old)) }
        ensures accepts { Lawful F.code bytes.now → result ≡ Ok tt }
        ensures only { (d : Refusal) → Faulty F.code bytes.now d → result ≡ Err d }
    {
        view.variables = F::check(bytes)?;
        view.bytes = bytes;
        Ok(())
    }

    /// How many records the file has.
    pub fn count(&self) -> usize
        ensures value { result ≡ count (bytes_of self.now) }
        ensures low { 0 < result }
        ensures high { result ≤ F.most }
    {
        self.bytes.len() / RECORD
    }

    /// Record `k`, as that part of the file.
    pub fn record(&self, k: usize) -> Result<&'a [u8], Refusal>
        ensures { MatchResult result (λ x. (x.now ≡ take 136 (drop (136 * k) (bytes_of self.now))) × (k < count (bytes_of self.now))) (λ e. Missing e k (count (bytes_of self.now))) }
    {
        lines_of(self.bytes)
            .get(k)
            .map(|line| line.as_slice())
            .ok_or(Refusal::absent(k))
    }

    /// How many variables the file has.
    pub fn variables(&self) -> usize
        ensures value { result ≡ F.width (bytes_of self.now) }
        ensures low { 0 < result }
        ensures high { result ≤ 32 }
        ensures lawful { Lawful F.code (bytes_of self.now) }
    {
        self.variables
    }
}
