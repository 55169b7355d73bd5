ghost use Rattle.std.specs.Prelude.{◌≡◌, ℕ, ◌+◌, ◌*◌, ◌/◌, ◌<◌, ◌≤◌, length, MatchResult};
ghost use Rattle.records.specs.Checks.{sum_file, whole_code, zeros, count};
ghost use Rattle.records.specs.Refusals.{number};

use crate::kinds::Kind;
use crate::refusal::{Cause, Refusal};
use crate::words::RECORD;

/// Whether a file is a sum file, by its first byte; any other is a table file.
pub fn is_sum_file(bytes: &[u8]) -> bool
    ensures { result ≡ sum_file bytes.now }
{
    bytes.first() == Some(&(Kind::Objective as u8))
}

/// The number of records, once the length and that number have been checked.
pub fn whole_count(bytes: &[u8]) -> Result<usize, Refusal>
    ensures { MatchResult result (λ n. (n ≡ count bytes.now) × (whole_code bytes.now ≡ 0)) (λ e. (e.«record» ≡ count bytes.now) × (whole_code bytes.now ≡ number e.cause)) }
{
    let count = bytes.len() / RECORD;
    if bytes.len() % RECORD != 0 {
        return Err(Refusal {
            cause: Cause::Length,
            record: count,
        });
    }
    let most = if is_sum_file(bytes) { 65 } else { 400 };
    if count == 0 || count > most {
        return Err(Refusal {
            cause: Cause::Count,
            record: count,
        });
    }
    Ok(count)
}

/// Whether all bytes of a block are 0; without an early end, so that all are looked at in one step.
fn block_zero(block: &[u8]) -> bool
    ensures { result ≡ zeros block.now }
{
    block.iter().fold(true, |zero, x| zero & (*x == 0))
}

/// Whether all bytes of a part are 0; by blocks of sixteen, up to the first that has another byte.
pub fn all_zero(part: &[u8]) -> bool
    ensures { result ≡ zeros part.now }
{
    let (blocks, rest) = part.as_chunks::<16>();
    blocks.iter().all(|block| block_zero(block)) && block_zero(rest)
}
