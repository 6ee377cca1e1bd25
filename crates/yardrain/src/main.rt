// Loads site.ter of this folder, and answers the lines of standard input.
#![tactic(auto)]

use console::{answer, begin};
use site::Site;
use std::fs;
use std::io::{BufRead, BufReader, BufWriter, Write};

// Answers every line. Answers go out when no input is at hand, so that whoever waits for one gets it.
// Not inlined: as a part of `main` the loop over the bytes of a long line took a third longer.
#[inline(never)]
fn converse(rt: &HostRuntime, site: &mut Site) -> anyhow::Result<()> {
    let mut input = BufReader::new(rt.alloc(), rt.stdin())?;
    let mut output = BufWriter::new(rt.alloc(), rt.stdout())?;
    let mut line = Vec::new(rt.alloc());
    // Not `split`, which leaves no place to flush before a read that waits; nor `loop`, which would have to end.
    for _ in 0..u64::MAX {
        if input.buffer().is_empty() {
            output.flush()?;
        }
        line.clear();
        if input.read_until(b'\n', &mut line)? == 0 {
            break;
        }
        let line = line.as_slice();
        let text = answer(rt.alloc(), site, line.strip_suffix(b"\n").unwrap_or(line))?;
        output.write_all(text.as_bytes())?;
    }
    output.flush()?;
    Ok(())
}

fn main(rt: HostRuntime) -> anyhow::Result<()> {
    let mut site = Site::fresh();
    // A file that cannot be read counts as empty.
    let file = fs::read(&rt, "site.ter").unwrap_or_else(|_| Vec::new(rt.alloc()));
    match begin(rt.alloc(), &mut site, file.as_slice())? {
        Some(text) => rt.print(text)?,
        None => converse(&rt, &mut site)?,
    }
    Ok(())
}
