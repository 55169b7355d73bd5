//! Problems: constraints with start words and costs, and the search tree that they make.
#![tactic(auto)]

ghost use Rattle.std.specs.Prelude.{◌≡◌, ℕ, ◌<◌, ◌≤◌, Bool, true, List, if◌then◌else◌, Some, None, slice_index, slice_set};
ghost use Rattle.nodes.specs.Choosing.{empty_below};
ghost use Rattle.propagation.specs.Closing.{closure};
ghost use Rattle.propagation.specs.Networks.{Supported};
ghost use Rattle.words.specs.Words.{Fit};
ghost use Rattle.trees.specs.Trees.{Orderly};
ghost use Rattle.problems.specs.Problems.{Lawful, LeavesSolve, Priced, SolvedCosts, narrowed, tree_of};

use nodes::Node;
use propagation::{Constraints, close, close_after};
use words::only;

/// A problem: constraints, the values that each variable starts with, and what a solution costs.
pub trait Problem: Constraints {
    type Cost: Copy;

    // two costs are equal in one way at most, so that a type can keep it as a fact that they are
    ghost costs: { IsSet Self.Cost };

    // the start words, and 0 for each word that is not in use
    ghost start: { Self → List ℕ };

    // the least that an assignment in a node can cost
    ghost bound: { Self → List ℕ → Self.Cost };

    // the cost of an assignment
    ghost cost: { Self → List ℕ → Self.Cost };

    ghost less: { Self.Cost → Self.Cost → Bool };

    // `lawful` is a promise of this call, no law: it needs the range of a file's bytes, which no law sees
    /// The node of all start words.
    fn start(&self) -> Node
        ensures value { result.words ≡ start self.now }
        ensures lawful { Lawful (Self.Constraints.network self.now) (start self.now) (bound self.now) (cost self.now) less };

    /// The bound of a node; none where a word is empty.
    fn bound(&self, node: &Node) -> Option<Self::Cost>
        ensures { result ≡ (if empty_below (Self.Constraints.network self.now).width node.now.words then None else Some (bound self.now node.now.words)) };

    /// Whether a cost is less than another.
    fn less(a: Self::Cost, b: Self::Cost) -> bool
        ensures { result ≡ less a b };
}

/// The root of a problem's tree: the closure of the start words. The solved leaves of the tree are the assignments
/// within the start words that meet every constraint, each at just one leaf.
pub fn root<P: Problem>(problem: &P) -> Node
    ensures value { result.words ≡ closure (P.Constraints.network problem.now) (P.Problem.start problem.now) }
    ensures leaves { LeavesSolve (P.Constraints.network problem.now) (P.Problem.start problem.now) (P.Problem.bound problem.now) }
    ensures priced { Priced (P.Constraints.network problem.now).width (P.Problem.bound problem.now) (P.Problem.cost problem.now) P.Problem.less }
    ensures orderly { Orderly (tree_of (P.Constraints.network problem.now) (P.Problem.start problem.now) (P.Problem.bound problem.now)) P.Problem.less (P.Constraints.network problem.now).width }
    ensures costs { SolvedCosts (P.Constraints.network problem.now).width (P.Problem.bound problem.now) (P.Problem.cost problem.now) }
    ensures settled { Supported (P.Constraints.network problem.now) result.words }
{
    close(problem, problem.start())
}

/// The child of a node at a choice: alternative 0 keeps only the value in the variable's word, any other removes it,
/// and the child is the closure of the result.
pub fn child<P: Problem>(problem: &P, node: Node, choice: (u8, u8), alternative: u8) -> Node
    ensures value { result.words ≡ closure (P.Constraints.network problem.now) (narrowed node.words choice.0 choice.1 alternative) }
    ensures settled { Supported (P.Constraints.network problem.now) result.words }
{
    close(problem, narrow(node, choice, alternative))
}

/// The child of a node at a choice. In a closed node every constraint supports every value, so that only
/// the constraints about the variable have to be revised at first; a child is closed.
pub fn child_within<P: Problem>(
    problem: &P,
    node: Node,
    choice: (u8, u8),
    alternative: u8,
    // a claim about the node; a type of closed nodes would ask the caller for a proof
    closed: bool,
) -> Node
    ensures value { (closed ≡ true → Supported (P.Constraints.network problem.now) node.words) → result.words ≡ closure (P.Constraints.network problem.now) (narrowed node.words choice.0 choice.1 alternative) }
    ensures settled { (closed ≡ true → Supported (P.Constraints.network problem.now) node.words) → Supported (P.Constraints.network problem.now) result.words }
{
    if closed {
        let moved = only(u32::from(choice.0));
        close_after(problem, narrow(node, choice, alternative), moved)
    } else {
        child(problem, node, choice, alternative)
    }
}

/// The node with the variable's word cut at the value: only that value kept, or only that value removed.
fn narrow(node: Node, choice: (u8, u8), alternative: u8) -> Node
    ensures value { result.words ≡ narrowed node.words choice.0 choice.1 alternative }
    ensures fit { Fit node.words }
{
    let (variable, value) = (usize::from(choice.0), u32::from(choice.1));
    let Some(&word) = node.words.get(variable) else {
        return node;
    };
    let kept = word & only(value);
    let mut narrowed = node;
    narrowed.words[variable] = if alternative == 0 { kept } else { word ^ kept };
    narrowed
}
