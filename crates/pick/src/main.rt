#![tactic(auto)]
// Reads a log from standard input, asks its question of the roll of its stations, and prints the stations handed out and
// how the search ended.
use anyhow::anyhow;
use picking::pick;
use printing::Report;
use std::io::{Read, Write};

// One byte more than the longest log, so that a longer one is seen to be longer.
const MOST_INPUT: u64 = 65_537;

// Room for every listing: 512 lines of at most 56 bytes, and the last.
const MOST_OUTPUT: usize = 32_768;

// `pick`, `ask`, `scan` and `bind` share the lines around the call; a crate for them would be longer than they are.
fn run(rt: &HostRuntime) -> anyhow::Result<Report> {
    let mut text = Vec::new(rt.alloc());
    rt.stdin().take(MOST_INPUT).read_to_end(&mut text)?;
    let mut print = vec![in rt.alloc(); 0u8; MOST_OUTPUT]?;
    let Ok(report) = pick(text.as_slice(), print.as_mut_slice()) else {
        return Err(anyhow!("the listing is too long to print"));
    };
    print.truncate(report.len());
    rt.stdout().write_all(print.as_slice())?;
    Ok(report)
}

fn main(rt: HostRuntime) -> anyhow::Result<()> {
    if !run(&rt)?.is_done() {
        return Err(anyhow!("refused"));
    }
    Ok(())
}
