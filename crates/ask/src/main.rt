#![tactic(auto)]
// Reads a stored book from the file that is named, and a question from standard input, and prints the stations handed out
// and how the search ended.
use anyhow::anyhow;
use picking::ask;
use printing::Report;
use std::env;
use std::fs::File;
use std::io::{Read, Write};

// One byte more than the longest book, and than the longest log, so that a longer one is seen to be longer.
const MOST_INPUT: u64 = 65_537;

// Room for every listing: 512 lines of at most 56 bytes, and the last.
const MOST_OUTPUT: usize = 32_768;

// The bytes of the file that the one argument names.
fn read_book(rt: &HostRuntime) -> anyhow::Result<Vec<u8>> {
    let mut args = env::args(rt)?;
    let _ = args.next();
    let Some(path) = args.next() else {
        return Err(anyhow!("usage: ask BOOK < QUESTION"));
    };
    if args.next().is_some() {
        return Err(anyhow!("usage: ask BOOK < QUESTION"));
    }
    let mut book = Vec::new(rt.alloc());
    File::open(rt, path.as_str())?
        .take(MOST_INPUT)
        .read_to_end(&mut book)?;
    Ok(book)
}

// `pick`, `ask`, `scan` and `bind` share the lines around the call; a crate for them would be longer than they are.
fn run(rt: &HostRuntime) -> anyhow::Result<Report> {
    let book = read_book(rt)?;
    let mut text = Vec::new(rt.alloc());
    rt.stdin().take(MOST_INPUT).read_to_end(&mut text)?;
    let mut print = vec![in rt.alloc(); 0u8; MOST_OUTPUT]?;
    let Ok(report) = ask(book.as_slice(), text.as_slice(), print.as_mut_slice()) else {
        return Err(anyhow!("the listing is too long to print"));
    };
    print.truncate(report.len());
    rt.stdout().write_all(print.as_slice())?;
    Ok(report)
}

fn main(rt: HostRuntime) -> anyhow::Result<()> {
    if !run(&rt)?.is_done() {
        return Err(anyhow!("refused"));
    }
    Ok(())
}
