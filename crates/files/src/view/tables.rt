ghost use Rattle.std.specs.Prelude.{◌≡◌, ℕ, ◌+◌, ◌*◌, ◌/◌, ◌<◌, ◌≤◌, length, take, drop, MatchResult, ◌≢◌};
ghost use Rattle.records.specs.Tables.{variable_count, table_count, start_word, stops, minutes, table_x, table_y, table_row, VariableLine, TableLine};
ghost use Rattle.records.specs.Refusals.{Missing, MissingOf};
ghost use Rattle.files.specs.Meaning.{bytes_of};

use super::TableView;
use records::{Line, Refusal, lines_of, read_u16, read_u32};

impl<'a> TableView<'a> {
    /// How many tables the file has.
    pub fn tables(&self) -> usize
        ensures value { result ≡ table_count (bytes_of self.now) }
        ensures high { result ≤ 400 }
    {
        self.count() - self.variables
    }

    /// The start word of variable `i`.
    pub fn start(&self, i: usize) -> Result<u32, Refusal>
        ensures { MatchResult result (λ w. (w ≡ start_word (bytes_of self.now) i) × (i < variable_count (bytes_of self.now)) × (w ≢ 0)) (λ e. Missing e i (variable_count (bytes_of self.now))) }
    {
        let line = self.variable(i)?;
        Ok(read_u32(line, 4))
    }

    /// The stops and the minutes of value `v` of variable `i`.
    pub fn costs(&self, i: usize, v: usize) -> Result<(u16, u16), Refusal>
        ensures { MatchResult result (λ p. (p.0 ≡ stops (bytes_of self.now) i v) × (p.1 ≡ minutes (bytes_of self.now) i v) × (i < variable_count (bytes_of self.now)) × (v < 32)) (λ e. MissingOf e i (variable_count (bytes_of self.now)) v 32) }
    {
        let line = self.variable(i)?;
        if v >= 32 {
            return Err(Refusal::absent(v));
        }
        Ok((read_u16(line, 8 + 4 * v), read_u16(line, 10 + 4 * v)))
    }

    /// The variables x and y of table `k`.
    pub fn ends(&self, k: usize) -> Result<(u8, u8), Refusal>
        ensures { MatchResult result (λ p. (p.0 ≡ table_x (bytes_of self.now) k) × (p.1 ≡ table_y (bytes_of self.now) k) × (k < table_count (bytes_of self.now)) × (p.0 < variable_count (bytes_of self.now)) × (p.1 < variable_count (bytes_of self.now)) × (p.0 ≢ p.1)) (λ e. Missing e k (table_count (bytes_of self.now))) }
    {
        let [_kind, x, y, ..] = self.table(k)?;
        Ok((*x, *y))
    }

    /// The word of table `k` at value `a` of x.
    pub fn row(&self, k: usize, a: usize) -> Result<u32, Refusal>
        ensures { MatchResult result (λ w. (w ≡ table_row (bytes_of self.now) k a) × (k < table_count (bytes_of self.now)) × (a < 32)) (λ e. MissingOf e k (table_count (bytes_of self.now)) a 32) }
    {
        let line = self.table(k)?;
        if a >= 32 {
            return Err(Refusal::absent(a));
        }
        Ok(read_u32(line, 8 + 4 * a))
    }

    /// The record of variable `i`.
    fn variable(&self, i: usize) -> Result<&'a Line, Refusal>
        ensures { MatchResult result (λ x. VariableLine (bytes_of self.now) i x.now) (λ e. Missing e i (variable_count (bytes_of self.now))) }
    {
        lines_of(self.bytes)[..self.variables]
            .get(i)
            .ok_or(Refusal::absent(i))
    }

    /// The record of table `k`.
    fn table(&self, k: usize) -> Result<&'a Line, Refusal>
        ensures { MatchResult result (λ x. TableLine (bytes_of self.now) k x.now) (λ e. Missing e k (table_count (bytes_of self.now))) }
    {
        lines_of(self.bytes)[self.variables..]
            .get(k)
            .ok_or(Refusal::absent(k))
    }
}
