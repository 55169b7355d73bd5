//! Replays: a list of calls made on a stack over the bare space of a file, as text.
#![tactic(auto)]

ghost use Rattle.std.specs.Prelude.{IfOk, string_bytes};
ghost use Rattle.records.specs.Checks.{Lawful};
ghost use Rattle.records.specs.Refusals.{Faulty};
ghost use Rattle.runs.specs.Runs.{replies};
ghost use Rattle.stacks.specs.Stacks.{stack_over};
ghost use Rattle.reply_texts.specs.Replies.{answers_text};
ghost use Rattle.replays.specs.Replays.{Replayed, Writes, space_by};

use bare::Bare;
use filed::Filed;
use records::is_sum_file;
use reply_texts::{Shown, answers_text};
use runs::calls::Call;
use stacks::kinds::Stack;
use stacks::replay_stack;
use std::alloc::{AllocError, Global};
use sums::Sums;
use tables::Tables;
use texts::answer_text;

// three arguments, and no request: a caller may hold its calls in any slice
/// Makes a list of calls on a stack over the bare space of a file, and gives the answers as text, a line each; or the
/// line that tells why the file is refused.
pub fn replay_file(
    heap: Global,
    bytes: &[u8],
    stack: Stack,
    allowance: u64,
    calls: &[Call],
) -> Result<String, AllocError>
    ensures { IfOk result (λ s. Replayed bytes.now stack allowance calls.now (string_bytes s)) }
{
    if is_sum_file(bytes) {
        replay_of::<Sums>(heap, bytes, stack, allowance, calls)
    } else {
        replay_of::<Tables>(heap, bytes, stack, allowance, calls)
    }
}

/// The same for a file of the sort that holds this problem.
fn replay_of<'a, P: Filed<'a> + Drop>(
    heap: Global,
    bytes: &'a [u8],
    stack: Stack,
    allowance: u64,
    calls: &[Call],
) -> Result<String, AllocError>
where
    P::Cost: Shown,
    ensures { IfOk result (λ s. Writes (Lawful P.Filed.reading.code bytes.now) (Faulty P.Filed.reading.code bytes.now) (answers_text P.Cost.Shown.shown (replies (stack_over stack (space_by P.Filed.reading bytes.now allowance)) calls.now)) (string_bytes s)) }
{
    match P::open(bytes) {
        Ok(problem) => {
            let space = Bare::new(problem, allowance);
            let answers = replay_stack(heap, space, stack, calls)?;
            answers_text(heap, &answers)
        }
        Err(refusal) => answer_text(heap, &Err(refusal)),
    }
}
