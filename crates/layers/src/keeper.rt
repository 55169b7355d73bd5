ghost use Rattle.std.specs.Prelude.{◌≡◌, ℕ, ◌<◌, ◌≤◌, List, [], ◌∷◌, length};
ghost use Rattle.space.specs.Meaning.{Meaning, fresh};
ghost use Rattle.space.specs.Laws.{Lawful};
ghost use Rattle.layers.specs.Moves.{Stepped, Keeps, At};

use space::Space;

/// What a layer keeps, so that it can go back to the nodes that it holds over a space.
///
/// Each move is told of the space below, and says which nodes are held then. What else it does to what is kept is for
/// its maker to say.
pub trait Keeper<S: Space> {
    // how many nodes it can hold
    ghost capacity: { Self → ℕ };

    // the nodes that it holds, the newest first, over a space that means this; words name nodes there
    ghost held: { (N C : Type 0) → (List ℕ → N) → Self → Meaning N C → List N };

    // that what is kept agrees with a space below that means this
    ghost Agrees: { (N C : Type 0) → (List ℕ → N) → Self → Meaning N C → Type 0 };

    // this is a fact, where the equality of nodes is one
    ghost fact: { (N C : Type 0) → IsSet N → (named : List ℕ → N) → (k : Self) → (m : Meaning N C) → IsProp (Agrees N C named k m) };

    // what else a step, a mark, a restore, a forget and a reset do to what is kept
    ghost Follows: { Self → ℕ → Self → Type 0 };

    ghost Holds: { (N C : Type 0) → Meaning N C → Self → Self → Type 0 };

    ghost Returns: { Self → Self → Type 0 };

    ghost Forgets: { Self → Self → Type 0 };

    ghost Clears: { Self → Self → Type 0 };

    /// How many nodes can be held.
    fn capacity(&self) -> u8
        ensures { result ≡ capacity self.now };

    /// How many nodes are held.
    fn count(&self) -> u8
        ensures { (m : Meaning S.Space.Place S.Cost) → Agrees S.Space.Place S.Cost S.Space.named self.now m → result ≡ length (held S.Space.Place S.Cost S.Space.named self.now m) };

    /// Follows a step of the space below, and holds what it held.
    fn follow(&mut self, below: &S, alternative: u8)
        ensures { (m : Meaning S.Space.Place S.Cost) → Lawful m S.Space.less → Agrees S.Space.Place S.Cost S.Space.named self.old m → Stepped m alternative (S.Space.meaning below.now) → Agrees S.Space.Place S.Cost S.Space.named self.new (S.Space.meaning below.now) × (held S.Space.Place S.Cost S.Space.named self.new (S.Space.meaning below.now) ≡ held S.Space.Place S.Cost S.Space.named self.old m) × (capacity self.new ≡ capacity self.old) × Follows self.old alternative self.new };

    /// Holds the current node as the newest, where fewer are held than can be.
    fn hold(&mut self, below: &mut S)
        ensures { Agrees S.Space.Place S.Cost S.Space.named self.old (S.Space.meaning below.old) → length (held S.Space.Place S.Cost S.Space.named self.old (S.Space.meaning below.old)) < capacity self.old → At (S.Space.meaning below.old) (S.Space.meaning below.old).current (S.Space.meaning below.new) × Agrees S.Space.Place S.Cost S.Space.named self.new (S.Space.meaning below.new) × (held S.Space.Place S.Cost S.Space.named self.new (S.Space.meaning below.new) ≡ (S.Space.meaning below.old).current ∷ held S.Space.Place S.Cost S.Space.named self.old (S.Space.meaning below.old)) × (capacity self.new ≡ capacity self.old) × Holds S.Space.Place S.Cost (S.Space.meaning below.old) self.old self.new };

    /// Makes the newest held node current, and keeps it held.
    fn go_back(&mut self, below: &mut S)
        ensures { (newest : S.Space.Place) (older : List S.Space.Place) → Agrees S.Space.Place S.Cost S.Space.named self.old (S.Space.meaning below.old) → held S.Space.Place S.Cost S.Space.named self.old (S.Space.meaning below.old) ≡ newest ∷ older → At (S.Space.meaning below.old) newest (S.Space.meaning below.new) × Agrees S.Space.Place S.Cost S.Space.named self.new (S.Space.meaning below.new) × (held S.Space.Place S.Cost S.Space.named self.new (S.Space.meaning below.new) ≡ newest ∷ older) × (capacity self.new ≡ capacity self.old) × Returns self.old self.new };

    /// Takes the newest held node off.
    fn forget(&mut self, below: &mut S)
        ensures { (newest : S.Space.Place) (older : List S.Space.Place) → Agrees S.Space.Place S.Cost S.Space.named self.old (S.Space.meaning below.old) → held S.Space.Place S.Cost S.Space.named self.old (S.Space.meaning below.old) ≡ newest ∷ older → At (S.Space.meaning below.old) (S.Space.meaning below.old).current (S.Space.meaning below.new) × Agrees S.Space.Place S.Cost S.Space.named self.new (S.Space.meaning below.new) × (held S.Space.Place S.Cost S.Space.named self.new (S.Space.meaning below.new) ≡ older) × (capacity self.new ≡ capacity self.old) × Forgets self.old self.new };

    /// Holds nothing, over a space that was reset.
    fn clear(&mut self, below: &S)
        ensures { S.Space.meaning below.now ≡ fresh (S.Space.meaning below.now) → Agrees S.Space.Place S.Cost S.Space.named self.new (S.Space.meaning below.now) × (held S.Space.Place S.Cost S.Space.named self.new (S.Space.meaning below.now) ≡ []) × (capacity self.new ≡ capacity self.old) × Clears self.old self.new };

    ghost keeps: { (k : Self) (m : Meaning S.Space.Place S.Cost) → Lawful m S.Space.less → Agrees S.Space.Place S.Cost S.Space.named k m → Keeps m (capacity k) (held S.Space.Place S.Cost S.Space.named k m) };
}
