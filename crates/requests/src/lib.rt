//! Requests: a stack, an allowance and a list of calls, read from the arguments of a program.
#![tactic(auto)]

ghost use Rattle.std.specs.Prelude.{◌≡◌};
ghost use Rattle.requests.specs.Requests.{Read, unread_script};

use scripts::script::ScriptError;
use scripts::{read_number, read_script, read_stack};
pub use stacks::request::Request;
use std::alloc::Global;

/// Why a request cannot be read: its stack, its number, a line of its script (from 1), or no memory for the calls.
#[derive(Clone, Copy)]
pub enum Unread {
    Stack,
    Number,
    Line(usize),
    Memory,
}

impl From<ScriptError> for Unread {
    ghost from_gives = { λ e r. r ≡ unread_script e };

    fn from(e: ScriptError) -> Unread {
        match e {
            ScriptError::Line(line) => Unread::Line(line),
            ScriptError::Memory => Unread::Memory,
        }
    }
}

/// Reads a stack, a number and a script, in this order.
pub fn read_request(
    heap: Global,
    stack: &[u8],
    number: &[u8],
    script: &[u8],
) -> Result<Request, Unread>
    ensures { Read stack.now number.now script.now result }
{
    Ok(Request {
        stack: read_stack(stack).ok_or(Unread::Stack)?,
        allowance: read_number(number).ok_or(Unread::Number)?,
        calls: read_script(heap, script)?,
    })
}
