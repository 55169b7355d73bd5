/// What stands under the recomputing layers: the space itself, or a layer over it with this capacity.
#[derive(Clone, Copy)]
pub enum Base {
    Bare,
    Copying(u8),
    Trailing(u8),
}

/// The recomputing layers over the base, by their gaps, the topmost first.
// Variants, not a list of gaps: a layer is a type around the space below, so each height is a type of its own.
#[derive(Clone, Copy)]
pub enum Above {
    Nothing,
    One(u8),
    Two(u8, u8),
    Three(u8, u8, u8),
}

/// A stack of layers over a loadable space.
#[derive(Clone, Copy)]
pub struct Stack {
    pub base: Base,
    pub above: Above,
}
