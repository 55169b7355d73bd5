//! A node has thirty-two words. What a search sees of it is asked for a number of variables, those of the first
//! words; a variable beyond the thirty-two has an empty word.
ghost use Rattle.std.specs.Prelude.{◌≡◌, ℕ, ◌<◌, ◌≤◌, true, false, take, MatchOption, count_ones};
ghost use Rattle.nodes.specs.Choosing.{Says, status, rest, reach, empty_below};

use trees::Status;
use words::lowest;

// An array, not a list: a node is copied as one value.
/// Word i is the set of values that variable i may still have: bit v for value v.
#[derive(Clone, Copy, Default)]
pub struct Node {
    pub words: [u32; 32],
}

impl Node {
    /// Whether one of the first words is empty.
    pub fn has_empty(&self, width: usize) -> bool
        ensures { result ≡ empty_below width self.now.words }
    {
        self.filled(width).is_none()
    }

    /// Failed, solved, or the choice: of the variables with more than one value the first with the fewest,
    /// and its smallest value.
    pub fn status(&self, width: usize) -> Status
        ensures value { result ≡ status width self.now.words }
        ensures says { Says width self.now.words result }
    {
        let Some(words) = self.filled(width) else {
            return Status::Failed;
        };
        // a loop, since `min_by_key` promises the first of equals only with the number in its key, and is slower so
        let mut fewest: Option<(u32, usize, u32)> = None;
        for (x, word) in words.iter().enumerate() {
            let count = size(word);
            if count > 1 && fewest.is_none_or(|(least, _, _)| count < least) {
                fewest = Some((count, x, *word));
            }
        }
        match fewest {
            Some((_, x, word)) => Status::Choice((x as u8, lowest(word) as u8)),
            None => Status::Solved,
        }
    }

    /// The values beyond the first in each word; 0 at a failed node.
    pub fn rest(&self, width: usize) -> u32
        ensures { result ≡ rest width self.now.words }
    {
        self.filled(width).map_or(
            0,
            |words| words.iter().map(size).sum::<u32>() - words.len() as u32,
        )
    }

    /// The words with more than one value; 0 at a failed node.
    pub fn reach(&self, width: usize) -> u32
        ensures { result ≡ reach width self.now.words }
    {
        self.filled(width).map_or(
            0,
            |words| words.iter().filter(|word| size(word) > 1).count() as u32,
        )
    }

    // the first words, if none of them is empty
    fn filled(&self, width: usize) -> Option<&[u32]>
        ensures { MatchOption result (empty_below width self.now.words ≡ true) (λ w. (width ≤ 32) × (w.now ≡ take width self.now.words) × (empty_below width self.now.words ≡ false)) }
    {
        self.words.get(..width).filter(|words| !words.contains(&0))
    }
}

// how many values a word holds
fn size(word: &u32) -> u32
    ensures value { result ≡ count_ones word.now }
    ensures most { result ≤ 32 }
{
    word.count_ones()
}
