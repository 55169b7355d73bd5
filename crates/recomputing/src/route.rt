ghost use Rattle.std.specs.Prelude.{◌≡◌, ◌≤◌, length};
ghost use Rattle.layers.specs.Moves.{At};
ghost use Rattle.traces.specs.Lines.{blank, gap_within, stepped};
ghost use Rattle.recomputing.specs.Paths.{nodes, Redoable, at_depth};
ghost use Rattle.recomputing.specs.Agreement.{Agrees, Loose, gone_back};
ghost use Rattle.recomputing.specs.Facts.{Agrees-prop};
ghost use Rattle.recomputing.specs.Effects.{marked_line, restored_line, pruned_line, forgotten_line};
ghost use Rattle.recomputing.specs.Follow.{keeps_nodes};

use layers::keeper::Keeper;
use space::Space;
use traces::Trace;

/// The path to the current node, and how deep on it the held nodes and the checkpoints of the space below are.
#[derive(Drop)]
pub struct Route {
    trace: Trace,
    ghost few: { length trace.depths ≤ 32 },
}

impl Route {
    /// An empty path with nothing held. A gap of 0 counts as 1, and one above 32 as 32.
    pub fn new(gap: u8) -> Route
        ensures { result.trace ≡ blank (gap_within gap) }
    {
        Route {
            trace: Trace::new(gap),
        }
    }

    // Drops the checkpoints that are deeper than the newest held node.
    fn prune<S: Space>(&mut self, below: &mut S)
        ensures { Loose (S.Space.meaning below.old) self.old.trace → At (S.Space.meaning below.old) (S.Space.meaning below.old).current (S.Space.meaning below.new) × Agrees (S.Space.meaning below.new) self.new.trace × (self.new.trace ≡ pruned_line self.old.trace) }
    {
        while self.trace.stale() {
            let _ = below.forget();
            self.trace.uncheck();
        }
    }
}

// Goes to the deepest checkpoint, or to the root if there is none.
fn to_checkpoint<S: Space>(below: &mut S)
    ensures { S.Space.meaning below.new ≡ gone_back (S.Space.meaning below.old) }
{
    if below.restore().is_err() {
        below.reset();
    }
}

// Redoes the path from one depth to another.
fn redo_path<S: Space>(below: &mut S, trace: &Trace, from: u16, to: u16)
    ensures { Redoable (S.Space.meaning below.old) trace.now.path from to → S.Space.meaning below.new ≡ at_depth (S.Space.meaning below.old) trace.now.path to }
{
    // step by step, not over a slice of the path: a slice would need its ends within the path, and the trace answers any step
    for k in from..to {
        let _ = below.redo(trace.alternative(k));
    }
}

impl<S: Space> Keeper<S> for Route {
    ghost capacity = { λ _. 32 };

    ghost held = { λ N C named k m. nodes m.tree k.trace.path k.trace.depths };

    ghost Agrees = { λ N C named k m. Agrees m k.trace };

    ghost fact = { λ N C set named k m. Agrees-prop set m k.trace };

    ghost Follows = { λ k a l. l.trace ≡ stepped k.trace a };

    ghost Holds = { λ N C m k l. l.trace ≡ marked_line m k.trace };

    ghost Returns = { λ k l. l.trace ≡ restored_line k.trace };

    ghost Forgets = { λ k l. l.trace ≡ forgotten_line k.trace };

    ghost Clears = { λ k l. l.trace ≡ blank k.trace.gap };

    ghost keeps = { λ k m w a. keeps_nodes m k.trace k.few w a };

    fn capacity(&self) -> u8 {
        32
    }

    fn count(&self) -> u8 {
        self.trace.held()
    }

    /// A step below is noted on the path.
    fn follow(&mut self, below: &S, alternative: u8) {
        self.trace.step(alternative);
    }

    /// Holds this depth, with a checkpoint below when the count of held nodes is a multiple of the gap.
    fn hold(&mut self, below: &mut S) {
        let due = self.trace.due();
        self.trace.hold();
        if due && below.mark().is_ok() {
            self.trace.check();
        }
    }

    /// Goes to the deepest checkpoint, or to the root, and redoes the path from there to the newest held depth.
    fn go_back(&mut self, below: &mut S) {
        let depth = self.trace.newest();
        let from = self.trace.deepest();
        to_checkpoint(below);
        redo_path(below, &self.trace, from, depth);
        self.trace.cut(depth);
    }

    /// Takes the newest depth off, and every checkpoint that is deeper than the next.
    fn forget(&mut self, below: &mut S) {
        self.trace.release();
        self.prune(below);
    }

    /// Empties the path, the depths and the checkpoints.
    fn clear(&mut self, below: &S) {
        self.trace.clear();
    }
}
