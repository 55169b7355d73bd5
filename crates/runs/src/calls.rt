use space::refusal::Refusal;
use trees::Status;

/// A call of a space, with its argument.
#[derive(Clone, Copy)]
pub enum Call {
    Status,
    Bound,
    Word(u8),
    Width,
    Capacity,
    Allowance,
    Layer,
    Held,
    Commit(u8),
    Redo(u8),
    Mark,
    Restore,
    Forget,
    Reset,
}

/// What a space answers to a call: a reply, or a refusal.
// One enum: as a `Result` of replies an answer would take half as much memory again.
#[derive(Clone, Copy)]
pub enum Answer<C> {
    Done,
    Node(Status),
    Cost(C),
    Number(u64),
    Refused(Refusal),
}
