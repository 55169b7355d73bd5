ghost use Rattle.std.specs.Prelude.{◌≡◌};
ghost use Rattle.space.specs.Calls.{number, named_layer};

/// Why a call of a space was refused. A refused call changes nothing.
#[derive(Clone, Copy)]
pub enum Refusal {
    /// The word number is not below the width.
    Word,
    /// A commit or redo at a node that is no choice node.
    NotChoice,
    /// The alternative is above 1.
    Alternative,
    /// A commit when none is left; this layer counts them.
    Allowance(u8),
    /// The bound of a failed node.
    Bound,
    /// A mark when this layer holds as many nodes as it can.
    Capacity(u8),
    /// A restore or forget when nothing is held.
    NothingHeld,
}

impl Refusal {
    // a `match`, and no cast as for causes of files: two of the variants carry a layer
    /// The refusal's number, 11 to 17.
    pub fn number(&self) -> u8
        ensures { result ≡ number self.now }
    {
        match self {
            Refusal::Word => 11,
            Refusal::NotChoice => 12,
            Refusal::Alternative => 13,
            Refusal::Allowance(_) => 14,
            Refusal::Bound => 15,
            Refusal::Capacity(_) => 16,
            Refusal::NothingHeld => 17,
        }
    }

    /// The layer that the refusal names, if it names one.
    pub fn layer(&self) -> Option<u8>
        ensures { result ≡ named_layer self.now }
    {
        match self {
            Refusal::Allowance(layer) | Refusal::Capacity(layer) => Some(*layer),
            _ => None,
        }
    }
}
