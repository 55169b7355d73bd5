//! Propagation: the closure of a node, for any family of constraints.
#![tactic(auto)]

ghost use Rattle.std.specs.Prelude.{◌≡◌, ℕ, ◌<◌, ◌≤◌, true, false, ◌≢◌, bit_and, bit_or, IfSome, IsSomeAnd};
ghost use Rattle.nodes.specs.Choosing.{empty_below};
ghost use Rattle.propagation.specs.Networks.{Network, Sane, Revised, Differ, ClosureOf, Settled};
ghost use Rattle.propagation.specs.Closing.{closure};

use nodes::Node;

/// Constraints that can be revised one at a time.
pub trait Constraints {
    ghost network: { Self → Network };

    /// The number of variables.
    fn width(&self) -> usize
        ensures value { result ≡ (network self.now).width }
        ensures low { 0 < result }
        ensures high { result ≤ 32 };

    /// The number of constraints.
    fn count(&self) -> usize
        ensures value { result ≡ (network self.now).count };

    /// The variables that constraint k is about, as a set; none for a constraint that is not there.
    fn touches(&self, k: usize) -> u32
        ensures value { k < (network self.now).count → result ≡ (network self.now).touches k }
        ensures none { (network self.now).count ≤ k → result ≡ 0 };

    /// Removes the values that constraint k does not support, and answers which words changed.
    /// A constraint that is not there removes nothing.
    fn revise(&self, k: usize, node: &mut Node) -> u32
        ensures revised { k < (network self.now).count → Revised (network self.now) k node.old.words node.new.words }
        ensures nothing { (network self.now).count ≤ k → node.new.words ≡ node.old.words }
        ensures differ { Differ node.old.words node.new.words result };

    ghost sane: { (s : Self) → Sane (network s) };
}

/// Whether constraint k has to be revised: each one where nothing is known of the node, else those about a variable that has moved.
fn due<P: Constraints>(problem: &P, k: usize, moved: Option<u32>, changed: u32) -> bool
    ensures { result ≡ false → k < (P.Constraints.network problem.now).count → IsSomeAnd moved (λ before. bit_and ((P.Constraints.network problem.now).touches k) (bit_or before changed) ≡ 0) }
{
    moved.is_none_or(|before| problem.touches(k) & (before | changed) != 0)
}

/// Whether a revision that changed these words has emptied one.
fn emptied(node: &Node, width: usize, changed: u32) -> bool
    ensures yes { result ≡ true → empty_below width node.now.words ≡ true }
    ensures no { result ≡ false → (changed ≢ 0) → empty_below width node.now.words ≡ false }
{
    changed != 0 && node.has_empty(width)
}

/// The closure of a node: the largest node inside it in which every constraint supports every value, or the dead
/// node if that has an empty word.
pub fn close<P: Constraints>(problem: &P, start: Node) -> Node
    ensures value { result.words ≡ closure (P.Constraints.network problem.now) start.words }
    ensures largest { ClosureOf (P.Constraints.network problem.now) start.words result.words }
{
    settle(problem, start, None)
}

/// The closure of a node in which every constraint about none of the changed variables supports every value already:
/// only the others are revised at first.
pub fn close_after<P: Constraints>(problem: &P, start: Node, changed: u32) -> Node
    ensures value { Settled (P.Constraints.network problem.now) start.words changed → result.words ≡ closure (P.Constraints.network problem.now) start.words }
    ensures largest { Settled (P.Constraints.network problem.now) start.words changed → ClosureOf (P.Constraints.network problem.now) start.words result.words }
    ensures sane { Sane (P.Constraints.network problem.now) }
{
    settle(problem, start, Some(changed))
}

/// Revises constraints until nothing changes: every constraint at first, or only those about a variable that has moved.
fn settle<P: Constraints>(problem: &P, start: Node, mut moved: Option<u32>) -> Node
    ensures value { IfSome moved (λ before. Settled (P.Constraints.network problem.now) start.words before) → result.words ≡ closure (P.Constraints.network problem.now) start.words }
    ensures largest { IfSome moved (λ before. Settled (P.Constraints.network problem.now) start.words before) → ClosureOf (P.Constraints.network problem.now) start.words result.words }
    ensures sane { Sane (P.Constraints.network problem.now) }
{
    let width = problem.width();
    let count = problem.count();
    let mut node = start;
    if node.has_empty(width) {
        return Node { words: [0; 32] };
    }
    'sweeps: loop {
        let mut changed = 0;
        // k is the number by which the constraints are asked
        'each: for k in 0..count {
            if due(problem, k, moved, changed) {
                let words = problem.revise(k, &mut node);
                if emptied(&node, width, words) {
                    return Node { words: [0; 32] };
                }
                changed |= words;
            }
        }
        if changed == 0 {
            return node;
        }
        moved = Some(changed);
    }
}
