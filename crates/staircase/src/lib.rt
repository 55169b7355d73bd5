//! A staircase: a space of its own make, whose nodes are more than their words, and which holds two nodes itself.
#![tactic(auto)]

ghost use Rattle.std.specs.Prelude.{◌≡◌, [], min, nat_lt};
ghost use Rattle.std.proofs.Props.{props};
ghost use Rattle.staircase.specs.declared.stair.Stair.{Stair};
ghost use Rattle.staircase.specs.Stairs.{foot, standing, Stands, stands_prop};
ghost use Rattle.staircase.specs.Climbing;

use arrayvec::ArrayVec;
use space::refusal::Refusal;
use space::{LIMIT, Space};
use stair::{START, Stair};
use trees::Status;

mod stair;

/// A climber on a staircase of ten stairs, who climbs one or two stairs with each step, and takes eight steps at most.
#[derive(Drop)]
pub struct Staircase {
    current: Stair,
    // the held stairs, the newest last
    held: ArrayVec<Stair, 2>,
    allowance: u64,
    ghost stands: { Stands current held.items allowance } by { stands_prop current held.items allowance },
}

impl Staircase {
    /// A climber at the foot; an allowance above 1,000,000,000,000 counts as that.
    pub fn new(allowance: u64) -> Staircase
        ensures { standing result.current result.held.items result.allowance ≡ standing foot [] (min allowance 1000000000000) }
    {
        Staircase {
            current: START,
            held: ArrayVec::new(),
            allowance: allowance.min(LIMIT),
        }
    }
}

impl Space for Staircase {
    type Cost = u16;

    ghost Place = { Stair };

    ghost places = { Prim.hlevel props };

    ghost meaning = { λ s. standing s.current s.held.items s.allowance };

    ghost less = { nat_lt };

    ghost named = { λ _. foot };

    ghost lawful = { λ s. Climbing.lawful s.current s.held.items s.allowance s.stands };

    fn status(&self) -> Status {
        self.current.status()
    }

    fn bound(&self) -> Result<u16, Refusal> {
        match self.current.status() {
            Status::Failed => Err(Refusal::Bound),
            Status::Solved | Status::Choice(_) => Ok(
                3 * self.current.steps as u16 + self.current.height as u16,
            ),
        }
    }

    fn less(a: u16, b: u16) -> bool {
        a < b
    }

    fn word(&self, i: u8) -> Result<u32, Refusal> {
        if i < 1 {
            Ok(1 + (self.current.height % 2) as u32)
        } else {
            Err(Refusal::Word)
        }
    }

    fn width(&self) -> u8 {
        1
    }

    // not shared with another space without layers: only the numbers are alike
    fn capacity(&self) -> u8 {
        2
    }

    fn allowance(&self) -> u64 {
        self.allowance
    }

    fn layer(&self) -> u8 {
        0
    }

    fn held(&self) -> u8 {
        self.held.len() as u8
    }

    fn commit(&mut self, alternative: u8) -> Result<(), Refusal> {
        let next = self.current.climb(alternative)?;
        if self.allowance == 0 {
            return Err(Refusal::Allowance(0));
        }
        self.current = next;
        self.allowance -= 1;
        Ok(())
    }

    fn redo(&mut self, alternative: u8) -> Result<(), Refusal> {
        self.current = self.current.climb(alternative)?;
        Ok(())
    }

    fn mark(&mut self) -> Result<(), Refusal> {
        if self.held.is_full() {
            return Err(Refusal::Capacity(0));
        }
        self.held.push(self.current);
        Ok(())
    }

    fn restore(&mut self) -> Result<(), Refusal> {
        self.current = *self.held.last().ok_or(Refusal::NothingHeld)?;
        Ok(())
    }

    fn forget(&mut self) -> Result<(), Refusal> {
        self.held.pop().ok_or(Refusal::NothingHeld)?;
        Ok(())
    }

    fn reset(&mut self) {
        self.current = START;
        self.held.clear();
    }
}
