//! Prints what a record file holds and what propagation leaves open at the root, or why the file is refused.
#![tactic(auto)]

use planner::report;
use records::MOST_BYTES;
use std::io::Read;

fn main(rt: HostRuntime) -> anyhow::Result<()> {
    let mut bytes = Vec::new(rt.alloc());
    rt.stdin().take(MOST_BYTES).read_to_end(&mut bytes)?;
    let text = report(rt.alloc(), &bytes)?;
    rt.print(text)?;
    Ok(())
}
