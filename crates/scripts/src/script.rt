ghost use Rattle.std.specs.Prelude.{◌≡◌, [], ◌∷◌, MatchOption, MatchResult, not};
ghost use Rattle.std.specs.List.{position, position_or_len};
ghost use Rattle.scripts.specs.Lines.{Refused, Script, numbered_call, plain_call, reading_of};
ghost use Rattle.scripts.specs.Parts.{is_blank, words};
ghost use Rattle.scripts.specs.declared.script.ScriptError.TheVariants.{Memory};

use crate::numbers::read_byte;
use runs::calls::Call;
use std::alloc::{AllocFailed, Global};

/// Why a script is refused: the first line, counted from 1, that is no call, or no memory.
#[derive(Clone, Copy)]
pub enum ScriptError {
    Line(usize),
    Memory,
}

impl<T: Drop> From<AllocFailed<T>> for ScriptError {
    ghost from_gives = { λ _ r. r ≡ Memory };

    fn from(_e: AllocFailed<T>) -> ScriptError {
        ScriptError::Memory
    }
}

/// The call of one word.
fn plain_call(word: &[u8]) -> Option<Call>
    ensures { result ≡ plain_call word.now }
{
    match word {
        b"status" => Some(Call::Status),
        b"bound" => Some(Call::Bound),
        b"width" => Some(Call::Width),
        b"capacity" => Some(Call::Capacity),
        b"allowance" => Some(Call::Allowance),
        b"layer" => Some(Call::Layer),
        b"held" => Some(Call::Held),
        b"mark" => Some(Call::Mark),
        b"restore" => Some(Call::Restore),
        b"forget" => Some(Call::Forget),
        b"reset" => Some(Call::Reset),
        _ => None,
    }
}

/// The call of a word and a number.
fn numbered_call(word: &[u8], number: u8) -> Option<Call>
    ensures { result ≡ numbered_call word.now number }
{
    match word {
        b"word" => Some(Call::Word(number)),
        b"commit" => Some(Call::Commit(number)),
        b"redo" => Some(Call::Redo(number)),
        _ => None,
    }
}

/// Whether a byte stands between words.
fn is_blank(byte: u8) -> bool
    ensures { result ≡ is_blank byte }
{
    matches!(byte, b' ' | b'\t' | b'\r')
}

/// Where the first word of a line begins.
fn word_start(line: &[u8]) -> Option<usize>
    ensures { result ≡ position (λ b. not (is_blank b)) line.now }
{
    line.iter().position(|byte| !is_blank(*byte))
}

/// Where the word that a text begins with ends.
fn word_end(text: &[u8]) -> usize
    ensures { result ≡ position_or_len is_blank text.now }
{
    text.iter()
        .position(|byte| is_blank(*byte))
        .unwrap_or(text.len())
}

/// The first word of a line, and what stands behind it.
fn next_word(line: &[u8]) -> Option<(&[u8], &[u8])>
    ensures { MatchOption result (words line.now ≡ []) (λ p. words line.now ≡ p.0.now ∷ words p.1.now) }
{
    let rest = &line[word_start(line)?..];
    Some(rest.split_at(word_end(rest)))
}

/// What a line says: no call where it has no word, or one; `None` where it is neither.
fn read_line(line: &[u8]) -> Option<Option<Call>>
    ensures { result ≡ reading_of line.now }
{
    let Some((word, rest)) = next_word(line) else {
        return Some(None);
    };
    let Some((number, rest)) = next_word(rest) else {
        return plain_call(word).map(Some);
    };
    match next_word(rest) {
        None => numbered_call(word, read_byte(number)?).map(Some),
        Some(_) => None,
    }
}

/// The calls of a script, one to a line; empty lines are skipped. A call is one of the words `status`, `bound`, `width`,
/// `capacity`, `allowance`, `layer`, `held`, `mark`, `restore`, `forget` and `reset`, or `word N`, `commit N` or `redo N`,
/// with blanks between, before and after the words. A number above 255 counts as 255.
pub fn read_script(heap: Global, text: &[u8]) -> Result<Vec<Call>, ScriptError>
    ensures { MatchResult result (λ calls. Script text.now calls.items) (λ e. Refused text.now e) }
{
    let mut calls = Vec::new(heap);
    for (before, line) in text.split(|byte| *byte == b'\n').enumerate() {
        if let Some(call) = read_line(line).ok_or(ScriptError::Line(before + 1))? {
            calls.push(call)?;
        }
    }
    Ok(calls)
}
