//! Makes the calls of a script on a stack of layers over the space of a record file, and prints the answers.
#![tactic(auto)]

use records::MOST_BYTES;
use replays::replay_file;
use requests::{Unread, read_request};
use std::io::Read;
use std::{env, fs};

fn main(rt: HostRuntime) -> anyhow::Result<()> {
    let mut words = env::args(&rt)?.skip(1);
    let (Some(stack), Some(number), Some(script)) = (words.next(), words.next(), words.next())
    else {
        println!(rt; "usage: replay STACK ALLOWANCE SCRIPT < FILE")?;
        return Ok(());
    };
    replay(&rt, stack.as_str(), number.as_str(), script.as_str())
}

/// Prints the answers, or what cannot be read.
fn replay(rt: &HostRuntime, stack: &str, number: &str, script: &str) -> anyhow::Result<()> {
    let text = fs::read(rt, script)?;
    // Each line names an argument, which the error does not hold: so these are no `Display` of it.
    match read_request(rt.alloc(), stack.as_bytes(), number.as_bytes(), &text) {
        Err(Unread::Stack) => println!(rt; "bad stack: {stack}")?,
        Err(Unread::Number) => println!(rt; "bad number: {number}")?,
        Err(Unread::Line(line)) => println!(rt; "bad line {line} of {script}")?,
        Err(Unread::Memory) => println!(rt; "no memory for {script}")?,
        Ok(request) => {
            let mut bytes = Vec::new(rt.alloc());
            rt.stdin().take(MOST_BYTES).read_to_end(&mut bytes)?;
            rt.print(replay_file(
                rt.alloc(),
                &bytes,
                request.stack,
                request.allowance,
                &request.calls,
            )?)?;
        }
    }
    Ok(())
}
