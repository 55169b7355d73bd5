//! Stacks of layers over a loadable space, and the law that each of them answers as its plain space.
#![tactic(auto)]

ghost use Rattle.std.specs.Prelude.{◌≡◌, IfOk};
ghost use Rattle.runs.specs.Runs.{replies};
ghost use Rattle.stacks.specs.Stacks.{above_over, stack_over};

use copying::Copying;
use copying::copies::Copies;
use kinds::{Above, Base, Stack};
use recomputing::Recomputing;
use recomputing::route::Route;
use runs::calls::{Answer, Call};
use runs::replay;
use space::{Loadable, Space};
use std::alloc::{AllocError, Global};
use trailing::Trailing;
use trailing::changes::Changes;

pub mod kinds;
pub mod request;

/// Makes a list of calls on a space that is not used again.
fn replay_on<S: Space + Drop>(
    heap: Global,
    mut space: S,
    calls: &[Call],
) -> Result<Vec<Answer<S::Cost>>, AllocError>
    ensures { IfOk result (λ answers. answers.items ≡ replies (S.Space.meaning space) calls.now) }
{
    replay(heap, &mut space, calls)
}

/// Makes a list of calls on recomputing layers over any space, of any maker. Each answer is the one that the stack's plain
/// space gives.
pub fn replay_above<S: Space + Drop>(
    heap: Global,
    space: S,
    above: Above,
    calls: &[Call],
) -> Result<Vec<Answer<S::Cost>>, AllocError>
    ensures { IfOk result (λ answers. answers.items ≡ replies (above_over above (S.Space.meaning space)) calls.now) }
{
    match above {
        Above::Nothing => replay_on(heap, space, calls),
        Above::One(gap) => replay_on(heap, Recomputing::new(space, Route::new(gap)), calls),
        Above::Two(gap, second) => replay_on(
            heap,
            Recomputing::new(Recomputing::new(space, Route::new(second)), Route::new(gap)),
            calls,
        ),
        Above::Three(gap, second, third) => replay_on(
            heap,
            Recomputing::new(
                Recomputing::new(
                    Recomputing::new(space, Route::new(third)),
                    Route::new(second),
                ),
                Route::new(gap),
            ),
            calls,
        ),
    }
}

/// Makes a list of calls on a stack of layers over any loadable space. Each answer is the one that the stack's plain space
/// gives, refused calls counted in.
pub fn replay_stack<S: Loadable + Drop>(
    heap: Global,
    space: S,
    stack: Stack,
    calls: &[Call],
) -> Result<Vec<Answer<S::Cost>>, AllocError>
    ensures { IfOk result (λ answers. answers.items ≡ replies (stack_over stack (S.Space.meaning space)) calls.now) }
{
    match stack.base {
        Base::Bare => replay_above(heap, space, stack.above, calls),
        Base::Copying(capacity) => replay_above(
            heap,
            Copying::new(space, Copies::new(capacity)),
            stack.above,
            calls,
        ),
        Base::Trailing(capacity) => replay_above(
            heap,
            Trailing::new(space, Changes::new(capacity)),
            stack.above,
            calls,
        ),
    }
}
