ghost use Rattle.std.specs.Prelude.{◌≡◌, ℕ, ◌+◌, ◌*◌, ◌/◌, ◌<◌, ◌≤◌, [], length, take, drop, pos, replicate, slice_index_or};
ghost use Rattle.records.specs.Words.{half, word, signed};
ghost use Rattle.records.specs.Checks.{line, count};

/// How many bytes a record has.
pub const RECORD: usize = 136;

/// The bytes of 401 records, one more than a file may have: a program reads no more.
pub const MOST_BYTES: u64 = 54_536;

/// A record, as the file has it.
pub type Line = [u8; RECORD];

/// The `N` bytes at a place; zeros where the bytes end before.
fn bytes_at<const N: usize>(bytes: &[u8], at: usize) -> [u8; N]
    ensures value { at + N ≤ length bytes.now → result ≡ take N (drop at bytes.now) }
    ensures none { length bytes.now < at + N → result ≡ replicate N 0 }
{
    let rest = bytes.get(at..).unwrap_or_default();
    rest.first_chunk().copied().unwrap_or([0; N])
}

/// The 16 bits at a place, little-endian; 0 where the bytes end before.
pub fn read_u16(bytes: &[u8], at: usize) -> u16
    ensures value { at + 2 ≤ length bytes.now → result ≡ half bytes.now at }
    ensures none { length bytes.now < at + 2 → result ≡ 0 }
{
    u16::from_le_bytes(bytes_at(bytes, at))
}

/// The 32 bits at a place, little-endian; 0 where the bytes end before.
pub fn read_u32(bytes: &[u8], at: usize) -> u32
    ensures value { at + 4 ≤ length bytes.now → result ≡ word bytes.now at }
    ensures none { length bytes.now < at + 4 → result ≡ 0 }
{
    u32::from_le_bytes(bytes_at(bytes, at))
}

/// The same, signed.
pub fn read_i32(bytes: &[u8], at: usize) -> i32
    ensures value { at + 4 ≤ length bytes.now → result ≡ signed bytes.now at }
    ensures none { length bytes.now < at + 4 → result ≡ pos 0 }
{
    i32::from_le_bytes(bytes_at(bytes, at))
}

/// The records of a file, without what is left at its end.
pub fn lines_of(bytes: &[u8]) -> &[Line]
    ensures size { length result.now ≡ count bytes.now }
    ensures parts { (k : ℕ) → k < count bytes.now → slice_index_or result.now k [] ≡ line bytes.now k }
{
    bytes.as_chunks().0
}

/// Record `k`, as a part of the file; nothing where the file has no such record.
pub fn line_at(bytes: &[u8], k: usize) -> &[u8]
    ensures part { k < count bytes.now → result.now ≡ line bytes.now k }
    ensures size { k < count bytes.now → length result.now ≡ 136 }
    ensures none { count bytes.now ≤ k → length result.now ≡ 0 }
{
    lines_of(bytes).get(k).map_or(&[], |line| line)
}
