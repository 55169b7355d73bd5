//! Reports: the text that a program writes of a record file.
#![tactic(auto)]

ghost use Rattle.std.specs.Prelude.{IfOk, string_bytes};
ghost use Rattle.surveys.specs.Surveys.{LeavesOf};
ghost use Rattle.planner.specs.Reports.{Reports};

use std::alloc::{AllocError, Global};
use surveys::survey;
use texts::answer_text;

/// The text that a program writes of a file.
pub fn report(heap: Global, bytes: &[u8]) -> Result<String, AllocError>
    ensures text { IfOk result (λ s. Reports bytes.now (string_bytes s)) }
    ensures leaves { LeavesOf bytes.now }
{
    answer_text(heap, &survey(bytes))
}
