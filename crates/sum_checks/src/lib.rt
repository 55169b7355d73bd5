//! The checks of a sum file, record by record.
#![tactic(auto)]

ghost use Rattle.std.specs.Prelude.{◌≡◌, ℕ, ◌+◌, ◌*◌, ◌/◌, ◌<◌, ◌≤◌, length, drop, MatchResult};
ghost use Rattle.records.specs.Words.{signed};
ghost use Rattle.records.specs.Checks.{count, zeros, within, limited, objective_code, bound_code, sum_line_code, sum_code, sum_width, LawfulSum};
ghost use Rattle.records.specs.Refusals.{number, Faulty};

use records::{Cause, Kind, Line, Refusal, all_zero, lines_of, read_i32, read_u32, whole_count};

/// Whether a number is from -`most` to `most`.
fn is_within(z: i32, most: u32) -> bool
    ensures { result ≡ within z most }
{
    z.unsigned_abs() <= most
}

/// Whether all 32 coefficients of a record are within their limit; without an early end, so that many are looked at in one step.
// always inlined: a call would save and read again what the loop of `check` holds
#[inline(always)]
fn coefficients_fit(line: &Line) -> bool
    ensures { result ≡ limited line.now 32 }
{
    let (words, _) = line.as_chunks();
    words[2..].iter().fold(true, |fit, word| {
        fit & is_within(i32::from_le_bytes(*word), 1_000_000)
    })
}

/// Whether the coefficients from number `n` on are 0.
fn tail_zero(line: &Line, n: u8) -> bool
    ensures { result ≡ zeros (drop (8 + 4 * n) line.now) }
{
    line.get(8 + 4 * usize::from(n)..)
        .is_none_or(|tail| all_zero(tail))
}

/// The checks of an objective that has `n` in byte 1.
fn check_objective(line: &Line, n: u8) -> Result<(), Cause>
    ensures { MatchResult result (λ _. objective_code line.now n ≡ 0) (λ e. objective_code line.now n ≡ number e) }
{
    // the rest is not named: `rest @ ..` is not covered behind a reference to an array
    let [_kind, _n, b, c, ..] = line;
    if *b != 0 || *c != 0 || read_u32(line, 4) != 0 || !tail_zero(line, n) {
        return Err(Cause::Zero);
    }
    if n == 0 || n > 32 {
        return Err(Cause::Number);
    }
    if !coefficients_fit(line) {
        return Err(Cause::Limit);
    }
    Ok(())
}

/// The checks of a sum in a file of `n` variables.
fn check_sum(line: &Line, n: u8) -> Result<(), Cause>
    ensures { MatchResult result (λ _. bound_code line.now n ≡ 0) (λ e. bound_code line.now n ≡ number e) }
{
    let [_kind, a, b, c, ..] = line;
    if *a != 0 || *b != 0 || *c != 0 || !tail_zero(line, n) {
        return Err(Cause::Zero);
    }
    if !coefficients_fit(line) || !is_within(read_i32(line, 4), 40_000_000) {
        return Err(Cause::Limit);
    }
    Ok(())
}

/// The checks of one record at place `k` of a file of `n` variables.
fn check_line(line: &Line, k: usize, n: u8) -> Result<(), Cause>
    ensures { MatchResult result (λ _. sum_line_code line.now k n ≡ 0) (λ e. sum_line_code line.now k n ≡ number e) }
{
    let [kind, ..] = line;
    match Kind::try_from(*kind)? {
        Kind::Objective if k == 0 => check_objective(line, n),
        Kind::Sum if k > 0 => check_sum(line, n),
        _ => Err(Cause::Kind),
    }
}

// Not one function with the check of table files, which carries a count from record to record, and this one nothing.
/// All checks of a sum file, in order; the answer is its number of variables.
pub fn check(bytes: &[u8]) -> Result<usize, Refusal>
    ensures { MatchResult result (λ n. LawfulSum bytes.now × (n ≡ sum_width bytes.now) × (0 < n) × (n ≤ 32) × (count bytes.now ≤ 65)) (λ e. Faulty sum_code bytes.now e) }
{
    whole_count(bytes)?;
    let lines = lines_of(bytes);
    let n = lines[0][1];
    for (k, line) in lines.iter().enumerate() {
        check_line(line, k, n).map_err(|cause| Refusal { cause, record: k })?;
    }
    Ok(usize::from(n))
}
