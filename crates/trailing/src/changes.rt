ghost use Rattle.std.specs.Prelude.{◌≡◌, ◌≤◌, [], None, length, min, take, ⊤};
ghost use Rattle.trails.specs.Entries.{before, newest_entry, marked, forgotten};
ghost use Rattle.trails.specs.Segments.{segments};

use layers::keeper::Keeper;
use loading::copy_out;
use nodes::node::Node;
use space::Loadable;
use trails::entry::Entry;
use trails::table::Trail;

/// What has changed since each of the held nodes was current.
#[derive(Drop)]
pub struct Changes {
    trail: Trail,
    // the words of the current node
    seen: Node,
    capacity: u8,
    ghost bounds: { (length seen.words ≡ 32) × (capacity ≤ 32) },
}

impl Changes {
    /// Room for held nodes; a capacity above 32 counts as 32.
    pub fn new(capacity: u8) -> Changes
        ensures capacity { result.capacity ≡ min capacity 32 }
        ensures empty { segments result.trail ≡ [] }
    {
        Changes {
            trail: Trail::new(),
            seen: Node::default(),
            capacity: capacity.min(32),
        }
    }

    /// Notes the old value of each word that has changed.
    fn note_changes(&mut self, width: u8, new: Node)
        requires { width ≤ 32 }
        ensures notes { before (segments self.new.trail) (take width new.words) ≡ before (segments self.old.trail) (take width self.old.seen.words) }
        ensures seen { self.new.seen ≡ new }
        ensures capacity { self.new.capacity ≡ self.old.capacity }
    {
        // by number: an entry names its word; a chain of zips would give it too, but leaves more to prove
        for i in 0..width {
            let old = self.seen.words[usize::from(i)];
            if new.words[usize::from(i)] != old {
                self.trail.note(Entry { word: i, old });
            }
        }
        self.seen = new;
    }
}

impl<S: Loadable> Keeper<S> for Changes {
    ghost use Rattle.space.specs.Meaning.{words_now};
    ghost use Rattle.trailing.specs.Trailed.{held_by, Agrees};
    ghost use Rattle.trailing.specs.Holding.{agrees_prop, changes_keep};

    ghost capacity = { λ k. k.capacity };

    ghost held = { λ N C named k m. held_by named (segments k.trail) (words_now m) };

    ghost Agrees = { λ N C named k m. Agrees named m (segments k.trail) k.seen.words k.capacity };

    ghost fact = { λ N C set named k m. agrees_prop named m (segments k.trail) k.seen.words k.capacity };

    ghost Follows = { λ old alternative new. ⊤ };

    ghost Holds = { λ N C m old new. (segments new.trail ≡ marked (segments old.trail)) × (new.seen ≡ old.seen) };

    ghost Returns = { λ old new. None ≡ newest_entry (segments new.trail) };

    ghost Forgets = { λ old new. (segments new.trail ≡ forgotten (segments old.trail)) × (new.seen ≡ old.seen) };

    ghost Clears = { λ old new. segments new.trail ≡ [] };

    ghost keeps = { λ k m lawful agrees. changes_keep S.Space.named m (segments k.trail) k.seen.words k.capacity agrees };

    fn capacity(&self) -> u8 {
        self.capacity
    }

    fn count(&self) -> u8 {
        self.trail.count()
    }

    fn follow(&mut self, below: &S, _alternative: u8) {
        self.note_changes(below.width(), copy_out(below));
    }

    fn hold(&mut self, _below: &mut S) {
        self.trail.mark();
    }

    fn go_back(&mut self, below: &mut S) {
        // the newest change first
        while let Some(entry) = self.trail.pop() {
            let _ = below.set(entry.word, entry.old);
            self.seen.words[usize::from(entry.word)] = entry.old;
        }
    }

    fn forget(&mut self, _below: &mut S) {
        self.trail.forget();
    }

    fn clear(&mut self, below: &S) {
        self.trail.clear();
        self.seen = copy_out(below);
    }
}
