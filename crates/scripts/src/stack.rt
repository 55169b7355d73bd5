ghost use Rattle.std.specs.Prelude.{◌≡◌};
ghost use Rattle.scripts.specs.Stacks.{numbered_part, part_of, plain_part, stack_of, stands_on_bare, with_layer};

use crate::numbers::read_byte;
use stacks::kinds::{Above, Base, Stack};

/// The part that stands for the space itself.
const BARE: &[u8] = b"bare";

// Not an `Option` or a `Result`: a layer is as good an answer as a base.
/// One part of the text of a stack: a recomputing layer with its gap, or the base.
#[derive(Clone, Copy)]
pub(crate) enum Part {
    Layer(u8),
    Ground(Base),
}

/// The part with this name and this number.
fn numbered_part(name: &[u8], number: u8) -> Option<Part>
    ensures { result ≡ numbered_part name.now number }
{
    match name {
        b"recomputing" => Some(Part::Layer(number)),
        b"copying" => Some(Part::Ground(Base::Copying(number))),
        b"trailing" => Some(Part::Ground(Base::Trailing(number))),
        _ => None,
    }
}

/// The part of one word.
fn plain_part(name: &[u8]) -> Option<Part>
    ensures { result ≡ plain_part name.now }
{
    (name == BARE).then_some(Part::Ground(Base::Bare))
}

/// One part of the text of a stack.
fn read_part(text: &[u8]) -> Option<Part>
    ensures { result ≡ part_of text.now }
{
    let mut fields = text.split(|byte| *byte == b':');
    match (fields.next(), fields.next(), fields.next()) {
        (Some(name), None, _) => plain_part(name),
        (Some(name), Some(number), None) => numbered_part(name, read_byte(number)?),
        _ => None,
    }
}

/// One layer more, under those above.
fn with_layer(above: Above, gap: u8) -> Option<Above>
    ensures { result ≡ with_layer above gap }
{
    match above {
        Above::Nothing => Some(Above::One(gap)),
        Above::One(a) => Some(Above::Two(a, gap)),
        Above::Two(a, b) => Some(Above::Three(a, b, gap)),
        Above::Three(..) => None,
    }
}

/// Whether a base stands on a bare one.
fn stands_on_bare(base: Base) -> bool
    ensures { result ≡ stands_on_bare base }
{
    matches!(base, Base::Copying(_) | Base::Trailing(_))
}

/// The stack that a text writes, its parts between slashes, the topmost first: up to three times `recomputing:N`, then
/// `bare`, or `copying:N` or `trailing:N`, and `bare` under one of these or under a layer may be left out. A number above
/// 255 counts as 255. None for any other text.
pub fn read_stack(text: &[u8]) -> Option<Stack>
    ensures { result ≡ stack_of text.now }
{
    let mut above = Above::Nothing;
    let mut parts = text.split(|byte| *byte == b'/');
    while let Some(part) = parts.next() {
        match read_part(part)? {
            Part::Layer(gap) => above = with_layer(above, gap)?,
            Part::Ground(base) => {
                let ends = match (parts.next(), parts.next()) {
                    (None, _) => true,
                    (Some(last), None) => last == BARE && stands_on_bare(base),
                    _ => false,
                };
                return ends.then_some(Stack { base, above });
            }
        }
    }
    Some(Stack {
        base: Base::Bare,
        above,
    })
}
