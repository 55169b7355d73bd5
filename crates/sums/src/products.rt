//! Products of a coefficient with the values of a word.
ghost use Rattle.std.specs.Prelude.{◌≡◌, ℕ, ◌<◌, ◌≤◌, ℤ, pos, ◌*ℤ◌, ◌≢◌};
ghost use Rattle.records.specs.Sums.{Small};
ghost use Rattle.sum_networks.specs.Sums.{largest, smallest_product};
ghost use Rattle.sum_networks.specs.Steps.{Reaching};

use words::{Values, highest, lowest, without};

/// A coefficient, which is within its limit.
#[derive(Drop, Clone, Copy)]
pub(crate) struct Coefficient {
    pub(crate) value: i32,
    ghost small: { Small value },
}

// A word that is asked for is not empty: that is tested once for all words of a node, and not again for a type of such words.
impl Coefficient {
    /// The product with a value.
    fn times(self, value: u32) -> i64
        requires { value < 32 }
        ensures { result ≡ self.value *ℤ pos value }
    {
        i64::from(self.value) * i64::from(value)
    }

    /// The largest product with a value of the word.
    pub(crate) fn most(self, word: u32) -> i64
        requires { word ≢ 0 }
        ensures { result ≡ largest self.value word }
    {
        if self.value < 0 {
            self.times(lowest(word))
        } else {
            self.times(highest(word))
        }
    }

    // not one function with `most`: a parameter that says which end is meant would be no plainer
    /// The least product with a value of the word.
    pub(crate) fn least(self, word: u32) -> i64
        requires { word ≢ 0 }
        ensures { result ≡ smallest_product self.value word }
    {
        if self.value >= 0 {
            self.times(lowest(word))
        } else {
            self.times(highest(word))
        }
    }

    /// The values of the word whose product reaches the need.
    pub(crate) fn reaching(self, word: u32, need: i64) -> u32
        requires { word ≢ 0 }
        ensures { Reaching self.value word need result }
    {
        if self.least(word) >= need {
            return word;
        }
        let mut supported = word;
        for value in Values::of(word) {
            if self.times(value) < need {
                supported = without(supported, value);
            }
        }
        supported
    }
}
