//! Spaces: where a search stands in a tree and what it can go back to, whatever memory keeps it.
#![tactic(auto)]

ghost use Rattle.std.specs.Prelude.{◌≡◌, ℕ, ◌≤◌, Bool, List, length};
ghost use Rattle.space.specs.Meaning.{Meaning, status_now, fresh};
ghost use Rattle.space.specs.Laws.{Lawful, NamedByWords};
ghost use Rattle.space.specs.Calls.{Commits, Redoes, Marks, Restores, Forgets, Sets, word_answer, bound_answer};

use refusal::Refusal;
use trees::Status;

/// The most commits that a space allows.
pub const LIMIT: u64 = 1_000_000_000_000;

pub mod refusal;
mod text;

/// A space: a tree, a current node in it, and held nodes to go back to.
///
/// Each call answers, and changes, as the plain space does that the space means; a refused call changes nothing.
pub trait Space {
    type Cost: Copy;

    // the nodes of this maker's tree
    ghost Place: { Type 0 };

    // two nodes are equal in one way at most, so that a layer can keep it as a fact that they are
    ghost places: { IsSet Place };

    // the plain space that a space stands for
    ghost meaning: { Self → Meaning Place Self.Cost };

    // the order of costs
    ghost less: { Self.Cost → Self.Cost → Bool };

    // the node that has these words, in a loadable space; no other space says anything of it
    ghost named: { List ℕ → Place };

    /// The status of the current node.
    fn status(&self) -> Status
        ensures { result ≡ status_now (meaning self.now) };

    /// The bound of the current node; 15 at a failed node.
    fn bound(&self) -> Result<Self::Cost, Refusal>
        ensures { result ≡ bound_answer (meaning self.now) };

    /// Whether a cost is less than another.
    fn less(a: Self::Cost, b: Self::Cost) -> bool
        ensures { result ≡ less a b };

    /// Word `i` of the current node; 11 from the width on.
    fn word(&self, i: u8) -> Result<u32, Refusal>
        ensures { result ≡ word_answer (meaning self.now) i };

    /// The number of words of a node.
    fn width(&self) -> u8
        ensures value { result ≡ (meaning self.now).width }
        ensures high { result ≤ 32 };

    /// How many nodes can be held.
    fn capacity(&self) -> u8
        ensures { result ≡ (meaning self.now).capacity };

    /// How many commits are left.
    fn allowance(&self) -> u64
        ensures { result ≡ (meaning self.now).allowance };

    /// The number of the topmost layer; 0 for a space without layers.
    fn layer(&self) -> u8
        ensures { result ≡ (meaning self.now).layer };

    /// How many nodes are held.
    fn held(&self) -> u8
        ensures { result ≡ length (meaning self.now).held };

    // an alternative stays a number, since one above 1 is refused by 13
    /// Steps to the child for an alternative, and lowers the allowance by one; 12, 13 or 14.
    fn commit(&mut self, alternative: u8) -> Result<(), Refusal>
        ensures { Commits (meaning self.old) alternative result (meaning self.new) };

    /// Steps to the child for an alternative; 12 or 13.
    fn redo(&mut self, alternative: u8) -> Result<(), Refusal>
        ensures { Redoes (meaning self.old) alternative result (meaning self.new) };

    /// Holds the current node as the newest; 16.
    fn mark(&mut self) -> Result<(), Refusal>
        ensures { Marks (meaning self.old) result (meaning self.new) };

    /// Makes the newest held node current, and keeps it held; 17.
    fn restore(&mut self) -> Result<(), Refusal>
        ensures { Restores (meaning self.old) result (meaning self.new) };

    /// Takes the newest held node off; 17.
    fn forget(&mut self) -> Result<(), Refusal>
        ensures { Forgets (meaning self.old) result (meaning self.new) };

    /// Makes the root current, and holds nothing.
    fn reset(&mut self)
        ensures { meaning self.new ≡ fresh (meaning self.old) };

    ghost lawful: { (s : Self) → Lawful (meaning s) less };
}

/// A space whose nodes are their words and nothing else, so that a node can be put back word by word.
pub trait Loadable: Space {
    /// Sets word `i` of the current node to any 32 bits; 11 from the width on.
    fn set(&mut self, i: u8, word: u32) -> Result<(), Refusal>
        ensures { Sets (Self.Space.meaning self.old) i word result (Self.Space.meaning self.new) };

    ghost only: { (s : Self) → NamedByWords (Self.Space.meaning s).tree Self.Space.named };
}
