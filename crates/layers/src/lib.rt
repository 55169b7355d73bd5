//! Layers: a space over another space, which holds nodes itself.
#![tactic(auto)]

ghost use Rattle.std.specs.Prelude.{◌≡◌, ℕ, ◌≤◌, MatchResult};
ghost use Rattle.space.specs.Meaning.{fresh};
ghost use Rattle.space.specs.Calls.{Commits, Redoes, Marks, Restores, Forgets};
ghost use Rattle.space.specs.Layers.{layered, made_over};
ghost use Rattle.layers.specs.Laws.{lawful_over};

use keeper::Keeper;
use space::Space;
use space::refusal::Refusal;
use trees::Status;

pub mod keeper;

/// A layer over a space: it holds nodes by what its keeper keeps, and all else is as below.
#[derive(Drop)]
pub struct Layer<S: Space, K: Keeper<S>> {
    below: S,
    keeper: K,
    ghost agrees: { K.Keeper.Agrees S.Space.Place S.Cost S.Space.named keeper (S.Space.meaning below) } by { K.Keeper.fact S.Space.Place S.Cost S.Space.places S.Space.named keeper (S.Space.meaning below) },
}

impl<S: Space, K: Keeper<S>> Layer<S, K> {
    /// A layer over a space, which is reset; nothing is held.
    pub fn new(mut below: S, mut keeper: K) -> Layer<S, K>
        ensures means { ⟦<Layer<S, K> as Space>⟧.meaning result ≡ made_over (S.Space.meaning below) (K.Keeper.capacity keeper) }
        ensures clears { K.Keeper.Clears keeper result.keeper }
    {
        below.reset();
        keeper.clear(&below);
        Layer { below, keeper }
    }
}

impl<S: Space, K: Keeper<S>> Space for Layer<S, K> {
    type Cost = S::Cost;

    ghost Place = { S.Space.Place };

    ghost places = { S.Space.places };

    ghost meaning = { λ s. layered (S.Space.meaning s.below) (K.Keeper.capacity s.keeper) (K.Keeper.held S.Space.Place S.Cost S.Space.named s.keeper (S.Space.meaning s.below)) };

    ghost less = { S.Space.less };

    ghost named = { S.Space.named };

    ghost lawful = { λ s. lawful_over (S.Space.meaning s.below) (K.Keeper.capacity s.keeper) _ (S.Space.lawful s.below) (K.Keeper.keeps s.keeper (S.Space.meaning s.below) (S.Space.lawful s.below) s.agrees) };

    fn status(&self) -> Status {
        self.below.status()
    }

    fn bound(&self) -> Result<S::Cost, Refusal> {
        self.below.bound()
    }

    fn less(a: S::Cost, b: S::Cost) -> bool {
        S::less(a, b)
    }

    fn word(&self, i: u8) -> Result<u32, Refusal> {
        self.below.word(i)
    }

    fn width(&self) -> u8 {
        self.below.width()
    }

    fn capacity(&self) -> u8 {
        self.keeper.capacity()
    }

    fn allowance(&self) -> u64 {
        self.below.allowance()
    }

    fn layer(&self) -> u8 {
        self.below.layer().saturating_add(1)
    }

    fn held(&self) -> u8 {
        self.keeper.count()
    }

    fn commit(&mut self, alternative: u8) -> Result<(), Refusal>
        ensures means { Commits (⟦<Layer<S, K> as Space>⟧.meaning self.old) alternative result (⟦<Layer<S, K> as Space>⟧.meaning self.new) }
        ensures follows { MatchResult result (λ _. K.Keeper.Follows self.old.keeper alternative self.new.keeper) (λ _. self.new.keeper ≡ self.old.keeper) }
    {
        self.below.commit(alternative)?;
        self.keeper.follow(&self.below, alternative);
        Ok(())
    }

    fn redo(&mut self, alternative: u8) -> Result<(), Refusal>
        ensures means { Redoes (⟦<Layer<S, K> as Space>⟧.meaning self.old) alternative result (⟦<Layer<S, K> as Space>⟧.meaning self.new) }
        ensures follows { MatchResult result (λ _. K.Keeper.Follows self.old.keeper alternative self.new.keeper) (λ _. self.new.keeper ≡ self.old.keeper) }
    {
        self.below.redo(alternative)?;
        self.keeper.follow(&self.below, alternative);
        Ok(())
    }

    fn mark(&mut self) -> Result<(), Refusal>
        ensures means { Marks (⟦<Layer<S, K> as Space>⟧.meaning self.old) result (⟦<Layer<S, K> as Space>⟧.meaning self.new) }
        ensures holds { MatchResult result (λ _. K.Keeper.Holds S.Space.Place S.Cost (S.Space.meaning self.old.below) self.old.keeper self.new.keeper) (λ _. self.new.keeper ≡ self.old.keeper) }
    {
        if self.keeper.count() >= self.keeper.capacity() {
            return Err(Refusal::Capacity(self.layer()));
        }
        self.keeper.hold(&mut self.below);
        Ok(())
    }

    fn restore(&mut self) -> Result<(), Refusal>
        ensures means { Restores (⟦<Layer<S, K> as Space>⟧.meaning self.old) result (⟦<Layer<S, K> as Space>⟧.meaning self.new) }
        ensures goes_back { MatchResult result (λ _. K.Keeper.Returns self.old.keeper self.new.keeper) (λ _. self.new.keeper ≡ self.old.keeper) }
    {
        if self.keeper.count() == 0 {
            return Err(Refusal::NothingHeld);
        }
        self.keeper.go_back(&mut self.below);
        Ok(())
    }

    fn forget(&mut self) -> Result<(), Refusal>
        ensures means { Forgets (⟦<Layer<S, K> as Space>⟧.meaning self.old) result (⟦<Layer<S, K> as Space>⟧.meaning self.new) }
        ensures forgets { MatchResult result (λ _. K.Keeper.Forgets self.old.keeper self.new.keeper) (λ _. self.new.keeper ≡ self.old.keeper) }
    {
        if self.keeper.count() == 0 {
            return Err(Refusal::NothingHeld);
        }
        self.keeper.forget(&mut self.below);
        Ok(())
    }

    fn reset(&mut self)
        ensures means { ⟦<Layer<S, K> as Space>⟧.meaning self.new ≡ fresh (⟦<Layer<S, K> as Space>⟧.meaning self.old) }
        ensures clears { K.Keeper.Clears self.old.keeper self.new.keeper }
    {
        self.below.reset();
        self.keeper.clear(&self.below);
    }
}
