//! Prints, for each record file that is named, its name and the report of its first 401 records.
#![tactic(auto)]

use planner::report;
use records::MOST_BYTES;
use std::io::Read;
use std::{env, fs};

fn main(rt: HostRuntime) -> anyhow::Result<()> {
    for name in env::args(&rt)?.skip(1) {
        let mut bytes = Vec::new(rt.alloc());
        fs::open(&rt, name.as_str())?
            .take(MOST_BYTES)
            .read_to_end(&mut bytes)?;
        let text = report(rt.alloc(), &bytes)?;
        println!(rt; "{name}")?;
        rt.print(text)?;
    }
    Ok(())
}
