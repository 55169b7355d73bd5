ghost use Rattle.std.specs.Prelude.{◌≡◌, ◌<◌, ◌≤◌};
ghost use Rattle.traces.specs.Lines.{blank, gap_within, stepped_if_room, held_if_room, checked_if_room, released, unchecked, cut, due};

use super::Trace;
use arrayvec::ArrayVec;

impl Trace {
    /// An empty path with nothing held. A gap of 0 counts as 1, and one above 32 as 32.
    pub fn new(gap: u8) -> Trace
        ensures { result ≡ blank (gap_within gap) }
    {
        Trace {
            path: ArrayVec::new(),
            depths: ArrayVec::new(),
            checks: ArrayVec::new(),
            gap: gap.clamp(1, 32),
        }
    }

    /// Back to an empty path with nothing held; the gap stays.
    pub fn clear(&mut self)
        ensures { self.new ≡ blank self.old.gap }
    {
        self.path.clear();
        self.depths.clear();
        self.checks.clear();
    }

    /// Adds a step to the path; a path of 992 steps stays as it is.
    pub fn step(&mut self, alternative: u8)
        ensures { self.new ≡ stepped_if_room self.old alternative }
    {
        let _ = self.path.try_push(alternative);
    }

    /// Whether the count of held nodes is a multiple of the gap, which is from 1 to 32.
    pub fn due(&self) -> bool
        ensures value { result ≡ due self.now }
        ensures gap { (0 < self.now.gap) × (self.now.gap ≤ 32) }
    {
        self.held() % self.gap == 0
    }

    // depths and checkpoints are alike, but a type for both would leave each of these calls as it is
    /// Holds the node at the path's end; with 32 held nothing changes.
    pub fn hold(&mut self)
        ensures { self.new ≡ held_if_room self.old }
    {
        let _ = self.depths.try_push(self.path.len() as u16);
    }

    /// Notes a checkpoint at the path's end; with 32 of them nothing changes.
    pub fn check(&mut self)
        ensures { self.new ≡ checked_if_room self.old }
    {
        let _ = self.checks.try_push(self.path.len() as u16);
    }

    /// Takes the newest held depth off, if there is one.
    pub fn release(&mut self)
        ensures { self.new ≡ released self.old }
    {
        self.depths.pop();
    }

    /// Takes the newest checkpoint off, if there is one.
    pub fn uncheck(&mut self)
        ensures { self.new ≡ unchecked self.old }
    {
        self.checks.pop();
    }

    /// Cuts the path off at a depth.
    pub fn cut(&mut self, depth: u16)
        ensures { self.new ≡ cut self.old depth }
    {
        self.path.truncate(usize::from(depth));
    }
}
