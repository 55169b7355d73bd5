//! A word as a set of the values 0 to 31.
#![tactic(auto)]

ghost use Rattle.std.specs.Prelude.{◌≡◌, ℕ, ◌<◌, ◌≤◌, true, false, ◌≢◌};
ghost use Rattle.std.specs.Iterator.{YieldsFirst, item_count};
ghost use Rattle.words.specs.Words.{bit, Without, Only, Lowest, Highest, Change};
ghost use Rattle.words.specs.Values.{values_of, left};

/// The smallest value of a word; 32 for the empty word.
pub fn lowest(word: u32) -> u32
    ensures least { (word ≢ 0) → Lowest word result }
    ensures none { word ≡ 0 → result ≡ 32 }
{
    word.trailing_zeros()
}

/// The largest value of a word; 0 for the empty word.
pub fn highest(word: u32) -> u32
    ensures most { (word ≢ 0) → Highest word result }
    ensures none { word ≡ 0 → result ≡ 0 }
{
    31u32.saturating_sub(word.leading_zeros())
}

/// The word that has one value alone; the empty word for a value above 31.
pub fn only(value: u32) -> u32
    ensures one { value < 32 → Only value result }
    ensures none { 32 ≤ value → result ≡ 0 }
{
    if value < 32 { 1 << value } else { 0 }
}

/// The word without one value.
pub fn without(word: u32, value: u32) -> u32
    ensures { Without word value result }
{
    word ^ (word & only(value))
}

/// Variable i, as a set, if its word has changed; none for a number above 31.
pub fn change(i: u32, before: u32, after: u32) -> u32
    ensures one { i < 32 → Change i before after result }
    ensures none { 32 ≤ i → result ≡ 0 }
{
    if after == before { 0 } else { only(i) }
}

/// The values of a word, smallest first.
#[derive(Drop)]
pub struct Values(u32);

impl Values {
    /// All values of a word.
    pub fn of(word: u32) -> Values
        ensures { left result ≡ values_of word }
    {
        Values(word)
    }
}

impl Iterator for Values {
    type Item = u32;

    ghost next_gives = { YieldsFirst left };

    ghost remaining = { item_count left };

    fn next(&mut self) -> Option<u32> {
        if self.0 == 0 {
            return None;
        }
        let value = lowest(self.0);
        self.0 = without(self.0, value);
        Some(value)
    }
}
