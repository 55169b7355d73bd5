ghost use Rattle.std.specs.Prelude.{◌≡◌, ◌-◌, ◌≤◌, [], length, min, take};

use arrayvec::ArrayVec;
use layers::keeper::Keeper;
use loading::{copy_out, load};
use nodes::node::Node;
use space::Loadable;

/// Copies of held nodes, the oldest first.
#[derive(Drop)]
pub struct Copies {
    nodes: ArrayVec<Node, 32>,
    capacity: u8,
    ghost bounds: { (length nodes.items ≤ capacity) × (capacity ≤ 32) },
}

impl Copies {
    /// Room for copies; a capacity above 32 counts as 32.
    pub fn new(capacity: u8) -> Copies
        ensures capacity { result.capacity ≡ min capacity 32 }
        ensures empty { result.nodes.items ≡ [] }
    {
        Copies {
            nodes: ArrayVec::new(),
            capacity: capacity.min(32),
        }
    }
}

impl<S: Loadable> Keeper<S> for Copies {
    ghost use Rattle.copying.specs.Copied.{held_by, CopiesProper, CopiedMore};
    ghost use Rattle.copying.specs.Holding.{copies_prop, copies_keep};

    ghost capacity = { λ k. k.capacity };

    ghost held = { λ N C named k m. held_by named m.width k.nodes.items };

    ghost Agrees = { λ N C named k m. CopiesProper named m k };

    ghost fact = { λ N C set named k m. copies_prop named m k };

    ghost Follows = { λ old alternative new. new ≡ old };

    ghost Holds = { λ N C m old new. CopiedMore m old new };

    ghost Returns = { λ old new. new ≡ old };

    ghost Forgets = { λ old new. new.nodes.items ≡ take (length old.nodes.items - 1) old.nodes.items };

    ghost Clears = { λ old new. new.nodes.items ≡ [] };

    ghost keeps = { λ k m lawful agrees. copies_keep S.Space.named m k agrees };

    fn capacity(&self) -> u8 {
        self.capacity
    }

    fn count(&self) -> u8 {
        self.nodes.len() as u8
    }

    fn follow(&mut self, _below: &S, _alternative: u8) {}

    fn hold(&mut self, below: &mut S) {
        if self.nodes.len() < usize::from(self.capacity) {
            self.nodes.push(copy_out(below));
        }
    }

    fn go_back(&mut self, below: &mut S) {
        if let Some(newest) = self.nodes.last() {
            load(below, *newest);
        }
    }

    fn forget(&mut self, _below: &mut S) {
        self.nodes.pop();
    }

    fn clear(&mut self, _below: &S) {
        self.nodes.clear();
    }
}
