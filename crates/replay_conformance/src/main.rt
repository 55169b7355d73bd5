//! Prints, for each case of four arguments (a record file or `staircase`, a stack, an allowance, a script), these and
//! the answers of the script's calls.
#![tactic(auto)]

use replays::replay_file;
use reply_texts::answers_text;
use requests::read_request;
use stacks::replay_above;
use staircase::Staircase;
use std::io::Read;
use std::{env, fs};

fn main(rt: HostRuntime) -> anyhow::Result<()> {
    let words: Vec<String> = env::args(&rt)?.skip(1).collect(rt.alloc())?;
    let (cases, _) = words.as_chunks::<4>();
    for case in cases {
        replay_case(&rt, case)?;
    }
    Ok(())
}

/// Prints one case and its answers.
fn replay_case(rt: &HostRuntime, case: &[String; 4]) -> anyhow::Result<()> {
    let [name, stack, number, script] = case;
    println!(rt; "{name} {stack} {number} {script}")?;
    let text = fs::read(rt, script.as_str())?;
    match read_request(rt.alloc(), stack.as_bytes(), number.as_bytes(), &text) {
        Err(_) => println!(rt; "bad request")?,
        Ok(request) if name.as_str() == "staircase" => {
            let space = Staircase::new(request.allowance);
            let answers = replay_above(rt.alloc(), space, request.stack.above, &request.calls)?;
            rt.print(answers_text(rt.alloc(), &answers)?)?;
        }
        Ok(request) => {
            let bytes = fs::read(rt, name.as_str())?;
            rt.print(replay_file(
                rt.alloc(),
                &bytes,
                request.stack,
                request.allowance,
                &request.calls,
            )?)?;
        }
    }
    Ok(())
}
