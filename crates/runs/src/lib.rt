//! Runs: any list of calls made on any space, and the law that it answers as the plain space that it means.
#![tactic(auto)]

ghost use Rattle.std.specs.Prelude.{◌≡◌, MatchResult};
ghost use Rattle.runs.specs.Runs.{AnswersAsPlain, after, reply};
ghost use Rattle.runs.specs.declared.calls.Answer.TheVariants.{Refused};

use calls::{Answer, Call};
use space::Space;
use space::refusal::Refusal;
use std::alloc::{AllocError, Global};

pub mod calls;

/// Makes one call and gives the answer.
pub fn ask<S: Space>(space: &mut S, call: Call) -> Answer<S::Cost>
    ensures { (result ≡ reply (S.Space.meaning space.old) call) × (S.Space.meaning space.new ≡ after (S.Space.meaning space.old) call) }
{
    make(space, call).unwrap_or_else(|refusal| Answer::Refused(refusal))
}

/// Makes one call; a refusal is told apart.
fn make<S: Space>(space: &mut S, call: Call) -> Result<Answer<S::Cost>, Refusal>
    ensures answer { MatchResult result (λ a. a ≡ reply (S.Space.meaning space.old) call) (λ e. Refused e ≡ reply (S.Space.meaning space.old) call) }
    ensures after { S.Space.meaning space.new ≡ after (S.Space.meaning space.old) call }
{
    Ok(match call {
        Call::Status => Answer::Node(space.status()),
        Call::Bound => Answer::Cost(space.bound()?),
        Call::Word(i) => Answer::Number(u64::from(space.word(i)?)),
        Call::Width => Answer::Number(u64::from(space.width())),
        Call::Capacity => Answer::Number(u64::from(space.capacity())),
        Call::Allowance => Answer::Number(space.allowance()),
        Call::Layer => Answer::Number(u64::from(space.layer())),
        Call::Held => Answer::Number(u64::from(space.held())),
        Call::Commit(alternative) => {
            space.commit(alternative)?;
            Answer::Done
        }
        Call::Redo(alternative) => {
            space.redo(alternative)?;
            Answer::Done
        }
        Call::Mark => {
            space.mark()?;
            Answer::Done
        }
        Call::Restore => {
            space.restore()?;
            Answer::Done
        }
        Call::Forget => {
            space.forget()?;
            Answer::Done
        }
        Call::Reset => {
            space.reset();
            Answer::Done
        }
    })
}

/// Makes a list of calls, one after the other, and gives the answers. They are those of the plain space that the space
/// means. Without memory for the answers it makes no call.
pub fn replay<S: Space>(
    heap: Global,
    space: &mut S,
    calls: &[Call],
) -> Result<Vec<Answer<S::Cost>>, AllocError>
    ensures { MatchResult result (λ answers. AnswersAsPlain (S.Space.meaning space.old) calls.now answers.items (S.Space.meaning space.new)) (λ _. S.Space.meaning space.new ≡ S.Space.meaning space.old) }
{
    // A loop, not `collect`, which does not promise that no call is made where its memory fails.
    let mut answers = Vec::with_capacity(heap, calls.len())?;
    for call in calls {
        answers.push_reserved(ask(space, *call));
    }
    Ok(answers)
}
