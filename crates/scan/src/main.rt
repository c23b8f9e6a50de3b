#![tactic(auto)]
// Reads a log from standard input, and prints the stations that fewer than k others beat in the region asked for.
use anyhow::anyhow;
use reports::report;
use std::io::{Read, Write};

// One byte more than the longest log, so that a longer one is seen to be longer.
const MOST_INPUT: u64 = 65_537;

// Room for every listing: 1,152 lines of at most 56 bytes, and `done`.
const MOST_OUTPUT: usize = 65_536;

// `pick`, `ask`, `scan` and `bind` share the lines around the call; a crate for them would be longer than they are.
fn main(rt: HostRuntime) -> anyhow::Result<()> {
    let mut text = Vec::new(rt.alloc());
    rt.stdin().take(MOST_INPUT).read_to_end(&mut text)?;
    let mut print = vec![in rt.alloc(); 0u8; MOST_OUTPUT]?;
    let Ok(printed) = report(text.as_slice(), print.as_mut_slice()) else {
        return Err(anyhow!("the listing is too long to print"));
    };
    print.truncate(printed.len());
    rt.stdout().write_all(print.as_slice())?;
    if !printed.is_done() {
        return Err(anyhow!("the log is refused"));
    }
    Ok(())
}
