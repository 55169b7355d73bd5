ghost use Rattle.std.specs.Prelude.{◌≡◌, ℕ, ◌+◌, ◌*◌, ◌/◌, ◌<◌, ◌≤◌, length, take, drop, MatchResult};
ghost use Rattle.records.specs.Checks.{sum_width};
ghost use Rattle.records.specs.Sums.{sum_count, objective_at, coefficient_at, least_at, Small, Moderate, ObjectiveLine, SumLine};
ghost use Rattle.records.specs.Refusals.{Missing, MissingOf};
ghost use Rattle.files.specs.Meaning.{bytes_of};

use super::SumView;
use records::{Line, Refusal, lines_of, read_i32};

impl<'a> SumView<'a> {
    /// How many sums the file has.
    pub fn sums(&self) -> usize
        ensures value { result ≡ sum_count (bytes_of self.now) }
        ensures high { result ≤ 64 }
    {
        self.count() - 1
    }

    /// Coefficient `i` of the objective.
    pub fn objective(&self, i: usize) -> Result<i32, Refusal>
        ensures { MatchResult result (λ c. (c ≡ objective_at (bytes_of self.now) i) × (i < sum_width (bytes_of self.now)) × Small c) (λ e. Missing e i (sum_width (bytes_of self.now))) }
    {
        if i >= self.variables() {
            return Err(Refusal::absent(i));
        }
        Ok(read_i32(self.first(), 8 + 4 * i))
    }

    /// The least value r of sum `k`.
    pub fn least(&self, k: usize) -> Result<i32, Refusal>
        ensures { MatchResult result (λ c. (c ≡ least_at (bytes_of self.now) k) × (k < sum_count (bytes_of self.now)) × Moderate c) (λ e. Missing e k (sum_count (bytes_of self.now))) }
    {
        let line = self.sum(k)?;
        Ok(read_i32(line, 4))
    }

    /// Coefficient `i` of sum `k`.
    pub fn coefficient(&self, k: usize, i: usize) -> Result<i32, Refusal>
        ensures { MatchResult result (λ c. (c ≡ coefficient_at (bytes_of self.now) k i) × (k < sum_count (bytes_of self.now)) × (i < sum_width (bytes_of self.now)) × Small c) (λ e. MissingOf e k (sum_count (bytes_of self.now)) i (sum_width (bytes_of self.now))) }
    {
        let line = self.sum(k)?;
        if i >= self.variables() {
            return Err(Refusal::absent(i));
        }
        Ok(read_i32(line, 8 + 4 * i))
    }

    /// The record of the objective.
    fn first(&self) -> &'a Line
        ensures { ObjectiveLine (bytes_of self.now) result.now }
    {
        &lines_of(self.bytes)[0]
    }

    /// The record of sum `k`.
    fn sum(&self, k: usize) -> Result<&'a Line, Refusal>
        ensures { MatchResult result (λ x. SumLine (bytes_of self.now) k x.now) (λ e. Missing e k (sum_count (bytes_of self.now))) }
    {
        lines_of(self.bytes)[1..].get(k).ok_or(Refusal::absent(k))
    }
}
