// Plays each session that is named on the command line, NAME.in on the site of NAME.ter, and prints every answer.
#![tactic(auto)]

use console::{answer, begin};
use site::Site;
use std::io::{BufRead, BufReader};
use std::{env, fs};

// Answers every line of a session.
fn play(rt: &HostRuntime, site: &mut Site, name: &str) -> anyhow::Result<()> {
    let path = format!(in rt.alloc(); "{name}.in")?;
    let session = BufReader::new(rt.alloc(), fs::open(rt, path.as_str())?)?;
    for line in session.split(rt.alloc(), b'\n') {
        let text = answer(rt.alloc(), site, line?.as_slice())?;
        rt.print(text)?;
    }
    Ok(())
}

// Plays one session on its site.
fn tell(rt: &HostRuntime, name: &str) -> anyhow::Result<()> {
    println!(rt; "== {name}")?;
    let path = format!(in rt.alloc(); "{name}.ter")?;
    // A file that cannot be read counts as empty.
    let file = fs::read(rt, path.as_str()).unwrap_or_else(|_| Vec::new(rt.alloc()));
    let mut site = Site::fresh();
    match begin(rt.alloc(), &mut site, file.as_slice())? {
        Some(text) => rt.print(text)?,
        None => play(rt, &mut site, name)?,
    }
    Ok(())
}

fn main(rt: HostRuntime) -> anyhow::Result<()> {
    for name in env::args(&rt)?.skip(1) {
        tell(&rt, name.as_str())?;
    }
    Ok(())
}
