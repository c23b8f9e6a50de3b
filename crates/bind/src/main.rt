#![tactic(auto)]
// Reads a log from standard input, and writes the stored book of its stations to standard output.
use anyhow::anyhow;
use binding::bind_log;
use std::io::{Read, Write};

// One byte more than the longest log, so that a longer one is seen to be longer.
const MOST_INPUT: u64 = 65_537;

// Room for the most pages of a row's book, 105 of 256 bytes.
const MOST_BOOK: usize = 26_880;

// `pick`, `ask`, `scan` and `bind` share the lines around the call; a crate for them would be longer than they are.
fn main(rt: HostRuntime) -> anyhow::Result<()> {
    let mut text = Vec::new(rt.alloc());
    rt.stdin().take(MOST_INPUT).read_to_end(&mut text)?;
    let mut book = vec![in rt.alloc(); 0u8; MOST_BOOK]?;
    match bind_log(text.as_slice(), book.as_mut_slice()) {
        Ok(n) => book.truncate(n),
        Err(fault) => {
            eprintln!(rt; "refused,{fault}")?;
            return Err(anyhow!("the log is refused"));
        }
    }
    rt.stdout().write_all(book.as_slice())?;
    Ok(())
}
