//! Traces: the path from the root to the current node, and how deep the held nodes and the checkpoints are.
#![tactic(auto)]

use arrayvec::ArrayVec;
use std::marker::Model;

pub mod looks;
pub mod moves;

/// A path of at most 992 alternatives, at most 32 depths of held nodes, and at most 32 depths of checkpoints.
/// Contracts see it as its line, where the newest depth stands first.
#[derive(Drop)]
pub struct Trace {
    path: ArrayVec<u8, 992>,
    depths: ArrayVec<u16, 32>,
    checks: ArrayVec<u16, 32>,
    gap: u8,
}

impl Model for Trace {
    ghost use Rattle.std.specs.Prelude.{◌<◌, ◌≤◌, reverse};
    ghost use Rattle.traces.specs.Lines.{Line};

    ghost Value = { Line };

    ghost view = { λ t. record { path = t.path.items; depths = reverse t.depths.items; checks = reverse t.checks.items; gap = t.gap } };

    ghost invariant = { λ t. (0 < t.gap) × (t.gap ≤ 32) };
}
