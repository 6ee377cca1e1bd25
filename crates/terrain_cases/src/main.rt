// Tells of each file that is named on the command line what it holds, or why it is refused.
#![tactic(auto)]

use report::file_text;
use std::{env, fs};

fn tell(rt: &HostRuntime, name: &str) -> anyhow::Result<()> {
    let file = fs::read(rt, name)?;
    let text = file_text(rt.alloc(), file.as_slice())?;
    println!(rt; "== {name}")?;
    rt.print(text)?;
    Ok(())
}

fn main(rt: HostRuntime) -> anyhow::Result<()> {
    for name in env::args(&rt)?.skip(1) {
        tell(&rt, name.as_str())?;
    }
    Ok(())
}
