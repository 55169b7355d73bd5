ghost use Rattle.std.specs.Prelude.{◌≡◌, ◌≤◌, length, slice_index};
ghost use Rattle.traces.specs.Lines.{top, stale};

use super::Trace;

impl Trace {
    /// How many nodes are held.
    pub fn held(&self) -> u8
        ensures { (result ≡ length self.now.depths) × (result ≤ 32) }
    {
        self.depths.len() as u8
    }

    /// The depth of the newest held node; 0 when none is held.
    pub fn newest(&self) -> u16
        ensures { result ≡ top self.now.depths }
    {
        self.depths.last().copied().unwrap_or(0)
    }

    /// The depth of the deepest checkpoint; 0 when there is none. There are at most 32.
    pub fn deepest(&self) -> u16
        ensures value { result ≡ top self.now.checks }
        ensures few { length self.now.checks ≤ 32 }
    {
        self.checks.last().copied().unwrap_or(0)
    }

    /// Whether the deepest checkpoint is deeper than the newest held node, or no node is held.
    pub fn stale(&self) -> bool
        ensures { result ≡ stale self.now }
    {
        // with nothing held, `None` is less than any depth
        self.depths.last().copied() < self.checks.last().copied()
    }

    /// Step `k` of the path, and 0 past its end. The path has at most 992 steps.
    pub fn alternative(&self, k: u16) -> u8
        ensures value { result ≡ slice_index self.now.path k }
        ensures short { length self.now.path ≤ 992 }
    {
        self.path.get(usize::from(k)).copied().unwrap_or(0)
    }
}
