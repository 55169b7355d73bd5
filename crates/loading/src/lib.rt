//! Whole nodes as values: taken out of any space, and put back into a loadable one.
#![tactic(auto)]

ghost use Rattle.std.specs.Prelude.{◌≡◌, ◌≤◌, take};
ghost use Rattle.space.specs.Meaning.{words_now, placed};

use nodes::node::Node;
use space::{Loadable, Space};

/// The current node as one value: its words, up to the width.
pub fn copy_out<S: Space>(space: &S) -> Node
    ensures { take (S.Space.meaning space.now).width result.words ≡ words_now (S.Space.meaning space.now) }
{
    let mut words = [0; 32];
    // i is the number by which a space is asked for a word, which it has
    for i in 0..space.width() {
        let Ok(word) = space.word(i) else {
            continue;
        };
        words[i as usize] = word;
    }
    Node { words }
}

/// Makes the node with these words current, word by word.
pub fn load<S: Loadable>(space: &mut S, node: Node)
    ensures { S.Space.meaning space.new ≡ placed (S.Space.meaning space.old) (S.Space.named (take (S.Space.meaning space.old).width node.words)) (S.Space.meaning space.old).held }
{
    // by number, as a space is told; a zip with the words would be no plainer
    for i in 0..space.width() {
        let _ = space.set(i, node.words[i as usize]);
    }
}
