ghost use Rattle.std.specs.Prelude.{◌≡◌};
ghost use Rattle.staircase.specs.Stairs.{stair_status, climb_answer};

use space::refusal::Refusal;
use trees::Status;

/// A stair: how many are left to climb from it, and how many steps were taken to it.
#[derive(Clone, Copy, Default)]
pub struct Stair {
    pub height: u8,
    pub steps: u8,
}

/// The foot of a staircase of ten stairs.
pub const START: Stair = Stair {
    height: 10,
    steps: 0,
};

impl Stair {
    /// Solved at the top, failed below it after eight steps.
    pub fn status(self) -> Status
        ensures { result ≡ stair_status self }
    {
        if self.height == 0 {
            Status::Solved
        } else if self.steps >= 8 {
            Status::Failed
        } else {
            Status::Choice((0, self.height % 2))
        }
    }

    /// One stair up for alternative 0, two for alternative 1; 12 or 13.
    pub fn climb(self, alternative: u8) -> Result<Stair, Refusal>
        ensures { result ≡ climb_answer self alternative }
    {
        if self.height == 0 || self.steps >= 8 {
            return Err(Refusal::NotChoice);
        }
        if alternative > 1 {
            return Err(Refusal::Alternative);
        }
        Ok(Stair {
            height: self.height.saturating_sub(alternative + 1),
            steps: self.steps + 1,
        })
    }
}
