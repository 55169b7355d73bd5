//! Emptying the words of a node, and which of them change.
ghost use Rattle.std.specs.Prelude.{◌≤◌, false};
ghost use Rattle.sum_networks.specs.Steps.{Kept};

use nodes::Node;
use words::change;

/// Empties the first words, and answers which changed.
pub(crate) fn clear(node: &mut Node, width: usize) -> u32
    requires { width ≤ 32 }
    ensures { Kept (λ _ _. false) node.old.words node.new.words width result }
{
    let mut changed = 0;
    for (i, word) in node.words[..width].iter_mut().enumerate() {
        changed |= change(i as u32, *word, 0);
        *word = 0;
    }
    changed
}
