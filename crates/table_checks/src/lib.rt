//! The checks of a table file, record by record.
#![tactic(auto)]

ghost use Rattle.std.specs.Prelude.{◌≡◌, ℕ, ◌+◌, ◌*◌, ◌/◌, ◌<◌, ◌≤◌, length, if◌then◌else◌, MatchResult, nat_eq, slice_index};
ghost use Rattle.records.specs.Checks.{count, variable_code, pair_code, table_line_code, table_code, LawfulTable};
ghost use Rattle.records.specs.Tables.{variable_count};
ghost use Rattle.records.specs.Refusals.{number, Faulty};

use records::{Cause, Kind, Line, Refusal, lines_of, read_u32, whole_count};

/// The checks of a variable at place `k`, after `variables` others.
fn check_variable(line: &Line, k: usize, variables: usize) -> Result<(), Cause>
    ensures { MatchResult result (λ _. variable_code line.now k variables ≡ 0) (λ e. variable_code line.now k variables ≡ number e) }
{
    // the rest is not named: `rest @ ..` is not covered behind a reference to an array
    let [_kind, name, b, c, ..] = line;
    if variables != k || k >= 32 {
        return Err(Cause::Kind);
    }
    if *b != 0 || *c != 0 {
        return Err(Cause::Zero);
    }
    if usize::from(*name) != k {
        return Err(Cause::Number);
    }
    if read_u32(line, 4) == 0 {
        return Err(Cause::Start);
    }
    Ok(())
}

/// The checks of a table at place `k`, after `variables` variables.
fn check_pair(line: &Line, k: usize, variables: usize) -> Result<(), Cause>
    ensures { MatchResult result (λ _. pair_code line.now k variables ≡ 0) (λ e. pair_code line.now k variables ≡ number e) }
{
    let [_kind, x, y, c, ..] = line;
    if k == 0 {
        return Err(Cause::Kind);
    }
    if *c != 0 || read_u32(line, 4) != 0 {
        return Err(Cause::Zero);
    }
    if usize::from(*x) >= variables || usize::from(*y) >= variables || *x == *y {
        return Err(Cause::Number);
    }
    Ok(())
}

// three arguments, and no struct: only the count is carried on from line to line
/// The checks of one record at place `k`, after `variables` variables; the answer counts the variables with it.
fn check_line(line: &Line, k: usize, variables: usize) -> Result<usize, Cause>
    requires { variables ≤ 32 }
    ensures { MatchResult result (λ v. (table_line_code line.now k variables ≡ 0) × (v ≡ variables + (if nat_eq (slice_index line.now 0) 1 then 1 else 0)) × (v ≤ 32)) (λ e. table_line_code line.now k variables ≡ number e) }
{
    let [kind, ..] = line;
    match Kind::try_from(*kind)? {
        Kind::Variable => {
            check_variable(line, k, variables)?;
            Ok(variables + 1)
        }
        Kind::Table => {
            check_pair(line, k, variables)?;
            Ok(variables)
        }
        Kind::Objective | Kind::Sum => Err(Cause::Kind),
    }
}

/// All checks of a table file, in order; the answer is its number of variables.
pub fn check(bytes: &[u8]) -> Result<usize, Refusal>
    ensures { MatchResult result (λ v. LawfulTable bytes.now × (v ≡ variable_count bytes.now) × (0 < v) × (v ≤ 32) × (v ≤ count bytes.now)) (λ e. Faulty table_code bytes.now e) }
{
    whole_count(bytes)?;
    let mut variables = 0;
    for (k, line) in lines_of(bytes).iter().enumerate() {
        variables = check_line(line, k, variables).map_err(|cause| Refusal { cause, record: k })?;
    }
    Ok(variables)
}
