/// A word's number, and its value before it changed.
#[derive(Clone, Copy)]
pub struct Entry {
    pub word: u8,
    pub old: u32,
}

/// Where the entries since a mark begin, how many they are, and which words are among them.
#[derive(Clone, Copy, Default)]
pub struct Mark {
    pub start: u16,
    pub size: u8,
    pub words: u32,
}
