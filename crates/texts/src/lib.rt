//! The answer as text: lines of words and decimal numbers.
#![tactic(auto)]

ghost use Rattle.std.specs.Prelude.{◌≡◌, IfOk, string_bytes};
ghost use Rattle.texts.specs.Texts.{text_of};

use answers::Survey;
use records::Refusal;
use std::alloc::{AllocError, Global};

/// The text of an answer: the lines of a survey, or the one line of a refusal.
pub fn answer_text(heap: Global, answer: &Result<Survey, Refusal>) -> Result<String, AllocError>
    ensures { IfOk result (λ s. string_bytes s ≡ text_of answer.now) }
{
    match answer {
        Ok(survey) => survey.to_string(heap),
        Err(refusal) => format!(in heap; "{refusal}\n"),
    }
}
