ghost use Rattle.std.specs.Prelude.{◌≡◌, ℕ, ◌+◌, ◌<◌, ◌≤◌, List, [], ◌∷◌, length, reverse, MatchOption, slice_index_or};
ghost use Rattle.words.specs.Words.{bit};
ghost use Rattle.trails.specs.Entries.{noted, marked, newest_entry, popped, forgotten, older, top, none, Small};
ghost use Rattle.trails.specs.Segments.{segments};

use super::Trail;
use crate::entry::{Entry, Mark};
use arrayvec::ArrayVec;
use words::only;

/// Writes an entry at its place in the table.
fn put(place: &mut Entry, entry: Entry)
    ensures { place.new ≡ entry }
{
    *place = entry;
}

/// Whether a word is in a set of words.
fn has(words: u32, word: u8) -> bool
    requires { word < 32 }
    ensures { result ≡ bit words word }
{
    (words >> word) % 2 == 1
}

/// Writes another mark in place of the newest.
fn renew(marks: &mut ArrayVec<Mark, 32>, mark: Mark)
    ensures newest { (newest : Mark) (others : List Mark) → reverse marks.old.items ≡ newest ∷ others → reverse marks.new.items ≡ mark ∷ others }
    ensures length { length marks.new.items ≡ length marks.old.items }
{
    if let Some(newest) = marks.last_mut() {
        *newest = mark;
    }
}

impl Trail {
    /// A trail without a mark.
    pub fn new() -> Trail
        ensures { segments result ≡ [] }
    {
        Trail {
            entries: [Entry { word: 0, old: 0 }; 1024],
            marks: ArrayVec::new(),
        }
    }

    /// How many marks there are.
    pub fn count(&self) -> u8
        ensures { result ≡ length (segments self.now) }
    {
        self.marks.len() as u8
    }

    /// Drops every mark and every entry.
    pub fn clear(&mut self)
        ensures { segments self.new ≡ [] }
    {
        self.marks.clear();
    }

    /// The newest mark.
    fn newest(&self) -> Option<Mark>
        ensures { MatchOption result (self.now.marks.items ≡ []) (λ m. reverse self.now.marks.items ≡ m ∷ older self.now.marks.items) }
    {
        self.marks.last().copied()
    }

    /// Where the next entry goes.
    fn end(&self) -> u16
        ensures { result ≡ top (reverse self.now.marks.items) }
    {
        self.newest()
            .map_or(0, |mark| mark.start + u16::from(mark.size))
    }

    /// Begins a new mark, without entries; a trail with 32 marks stays as it is.
    pub fn mark(&mut self)
        ensures { segments self.new ≡ marked (segments self.old) }
    {
        if !self.marks.is_full() {
            let start = self.end();
            self.marks.push(Mark {
                start,
                size: 0,
                words: 0,
            });
        }
    }

    /// Notes a word's old value, unless the word has an entry since the newest mark. Without a mark nothing is noted.
    pub fn note(&mut self, entry: Entry)
        ensures value { segments self.new ≡ noted (segments self.old) entry }
        ensures end { top (reverse self.new.marks.items) ≤ top (reverse self.old.marks.items) + 1 }
        ensures rest { (i : ℕ) → top (reverse self.old.marks.items) < i → slice_index_or self.new.entries i none ≡ slice_index_or self.old.entries i none }
    {
        let Some(mark) = self.newest() else {
            return;
        };
        if entry.word > 31 {
            return;
        }
        if has(mark.words, entry.word) {
            return;
        }
        let at = usize::from(mark.start) + usize::from(mark.size);
        put(&mut self.entries[at], entry);
        renew(
            &mut self.marks,
            Mark {
                size: mark.size + 1,
                words: mark.words | only(u32::from(entry.word)),
                ..mark
            },
        );
    }

    /// Takes the newest entry since the newest mark off.
    pub fn pop(&mut self) -> Option<Entry>
        ensures value { result ≡ newest_entry (segments self.old) }
        ensures small { Small result }
        ensures rest { segments self.new ≡ popped (segments self.old) }
    {
        let mark = self.newest()?;
        if mark.size == 0 {
            return None;
        }
        let entry = self.entries[usize::from(mark.start) + usize::from(mark.size) - 1];
        renew(
            &mut self.marks,
            Mark {
                size: mark.size - 1,
                words: mark.words ^ only(u32::from(entry.word)),
                ..mark
            },
        );
        Some(entry)
    }

    /// Takes the newest mark off. Its entries join those of the mark before, oldest first.
    pub fn forget(&mut self)
        ensures { segments self.new ≡ forgotten (segments self.old) }
    {
        let Some(mark) = self.marks.pop() else {
            return;
        };
        // by place, since noting writes to the same table
        for i in 0..mark.size {
            let entry = self.entries[usize::from(mark.start) + usize::from(i)];
            self.note(entry);
        }
    }
}
