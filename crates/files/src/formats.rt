ghost use Rattle.std.specs.Prelude.{◌≡◌, ℕ, ◌<◌, ◌≤◌, List, MatchResult};
ghost use Rattle.records.specs.Checks.{Lawful, count, table_code, sum_code, sum_width};
ghost use Rattle.records.specs.Tables.{variable_count, plain_table};
ghost use Rattle.records.specs.Sums.{plain_sum};
ghost use Rattle.records.specs.Refusals.{Faulty};
ghost use Rattle.records.proofs.Facts.{variables_some, variables_few, few_records, width_some, width_few, few_sum_records};
ghost use Rattle.records.proofs.Plain.{table_lawful, one_variable, sum_lawful, one_wide};

use records::Refusal;

/// A format of record files: which files pass its checks, and how many variables they have.
pub trait Format: Copy + Drop {
    // the number of the check that record k of a file fails, or 0
    ghost code: { List ℕ → ℕ → ℕ };

    // how many variables a file has
    ghost width: { List ℕ → ℕ };

    // how many records a file may have
    ghost most: { ℕ };

    // a file of one variable
    ghost plain_file: { List ℕ };

    /// All checks of a file, in order; the answer is its number of variables.
    fn check(bytes: &[u8]) -> Result<usize, Refusal>
        ensures { MatchResult result (λ n. Lawful code bytes.now × (n ≡ width bytes.now)) (λ e. Faulty code bytes.now e) };

    /// A file of one record, which passes all checks and has one variable.
    fn plain<'a>() -> &'a [u8]
        ensures { result.now ≡ plain_file };

    ghost plain_lawful: { Lawful code plain_file };

    ghost plain_one: { width plain_file ≡ 1 };

    ghost some: { (bs : List ℕ) → Lawful code bs → 0 < width bs };

    ghost few: { (bs : List ℕ) → Lawful code bs → width bs ≤ 32 };

    ghost short: { (bs : List ℕ) → Lawful code bs → count bs ≤ most };
}

/// The format of variables and tables.
#[derive(Drop, Clone, Copy)]
pub struct TableFormat;

/// The format of an objective and sums.
#[derive(Drop, Clone, Copy)]
pub struct SumFormat;

impl Format for TableFormat {
    ghost code = { table_code };

    ghost width = { variable_count };

    ghost most = { 400 };

    ghost plain_file = { plain_table };

    fn check(bytes: &[u8]) -> Result<usize, Refusal> {
        table_checks::check(bytes)
    }

    // variable 0, which has the value 0 alone, at no cost
    fn plain<'a>() -> &'a [u8] {
        b"\x01\0\0\0\x01\0\0\0\0\0\0\0\0\0\0\0\0\0\0\0\0\0\0\0\0\0\0\0\0\0\0\0\0\0\
            \0\0\0\0\0\0\0\0\0\0\0\0\0\0\0\0\0\0\0\0\0\0\0\0\0\0\0\0\0\0\0\0\0\0\
            \0\0\0\0\0\0\0\0\0\0\0\0\0\0\0\0\0\0\0\0\0\0\0\0\0\0\0\0\0\0\0\0\0\0\
            \0\0\0\0\0\0\0\0\0\0\0\0\0\0\0\0\0\0\0\0\0\0\0\0\0\0\0\0\0\0\0\0\0\0"
    }

    ghost plain_lawful = { table_lawful };

    ghost plain_one = { one_variable };

    ghost some = { variables_some };

    ghost few = { variables_few };

    ghost short = { λ bs h. few_records bs h.0 };
}

impl Format for SumFormat {
    ghost code = { sum_code };

    ghost width = { sum_width };

    ghost most = { 65 };

    ghost plain_file = { plain_sum };

    fn check(bytes: &[u8]) -> Result<usize, Refusal> {
        sum_checks::check(bytes)
    }

    // the objective of one variable, with the coefficient 0
    fn plain<'a>() -> &'a [u8] {
        b"\x03\x01\0\0\0\0\0\0\0\0\0\0\0\0\0\0\0\0\0\0\0\0\0\0\0\0\0\0\0\0\0\0\0\0\
            \0\0\0\0\0\0\0\0\0\0\0\0\0\0\0\0\0\0\0\0\0\0\0\0\0\0\0\0\0\0\0\0\0\0\
            \0\0\0\0\0\0\0\0\0\0\0\0\0\0\0\0\0\0\0\0\0\0\0\0\0\0\0\0\0\0\0\0\0\0\
            \0\0\0\0\0\0\0\0\0\0\0\0\0\0\0\0\0\0\0\0\0\0\0\0\0\0\0\0\0\0\0\0\0\0"
    }

    ghost plain_lawful = { sum_lawful };

    ghost plain_one = { one_wide };

    ghost some = { width_some };

    ghost few = { width_few };

    ghost short = { few_sum_records };
}
