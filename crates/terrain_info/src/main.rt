// Tells what site.ter in this folder holds, or why it is refused.
#![tactic(auto)]

use report::file_text;
use std::fs;

fn main(rt: HostRuntime) -> anyhow::Result<()> {
    // A file that cannot be read counts as empty.
    let file = fs::read(&rt, "site.ter").unwrap_or_else(|_| Vec::new(rt.alloc()));
    let text = file_text(rt.alloc(), file.as_slice())?;
    rt.print(text)?;
    Ok(())
}
