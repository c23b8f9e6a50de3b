#![tactic(auto)]
// Loads every book of standard input and prints its pages, and prints the pages of rolls of telling lengths. A book stands behind a line with its length.
use books::{Child, Entry};
use frames::Frames;
use rolls::Roll;
use sources::{Page, PageSource};
use stations::{Code, Fault, Measures, Station};
use std::io::Read;
use stored::Stored;

// Both trials have these lines: a crate for them would be longer.
fn print_fault(rt: &HostRuntime, fault: Fault) -> anyhow::Result<()> {
    let Fault {
        code,
        first,
        second,
    } = fault;
    println!(rt; "fault {code} at {first}, {second}")?;
    Ok(())
}

fn print_measures(rt: &HostRuntime, at: Measures) -> anyhow::Result<()> {
    let Measures { m1, m2, m3, m4 } = at;
    print!(rt; " {m1} {m2} {m3} {m4}")?;
    Ok(())
}

fn print_entry(rt: &HostRuntime, entry: Entry) -> anyhow::Result<()> {
    match entry {
        Entry::Station(station) => {
            let number = station.number;
            print!(rt; "; {number}")?;
            print_measures(rt, station.at)
        }
        Entry::Page(Child { page, bounds }) => {
            print!(rt; "; page {page}")?;
            print_measures(rt, bounds.low)?;
            print_measures(rt, bounds.high)
        }
    }
}

fn print_page(rt: &HostRuntime, number: u32, page: &Page) -> anyhow::Result<()> {
    let level = page.level;
    print!(rt; "{number}: level {level}")?;
    for entry in &page.entries[..page.len] {
        print_entry(rt, *entry)?;
    }
    println!(rt)?;
    Ok(())
}

// Prints the pages from the top on, to the first number that is not below the count.
fn print_pages<S: PageSource + Drop>(rt: &HostRuntime, mut source: S) -> anyhow::Result<()> {
    for number in 0..257u32 {
        match source.read(number) {
            Ok(page) => print_page(rt, number, &page)?,
            Err(fault) => {
                print_fault(rt, fault)?;
                if fault.code == Code::PageNumber {
                    break;
                }
            }
        }
    }
    Ok(())
}

// Loads a book over a former one, which is kept where the book is refused, and says whether it was loaded.
fn print_book<'a>(rt: &HostRuntime, former: &'a [u8], bytes: &'a [u8]) -> anyhow::Result<bool> {
    let mut book = Stored::new();
    let _ = book.load(former);
    let loaded = match book.load(bytes) {
        Ok(()) => {
            println!(rt; "loaded")?;
            true
        }
        Err(fault) => {
            print_fault(rt, fault)?;
            false
        }
    };
    print_pages(rt, book)?;
    Ok(loaded)
}

// The books of the input, one after the other.
fn print_books(rt: &HostRuntime, input: &[u8]) -> anyhow::Result<()> {
    let mut former = &input[..0];
    for bytes in Frames::new(input) {
        if print_book(rt, former, bytes)? {
            former = bytes;
        }
    }
    Ok(())
}

// Stations that differ in every measure, and not in the order of the row.
fn station(i: u32) -> Station {
    let m1 = (i.wrapping_mul(7919) % 65_536) as u16;
    let m2 = (i.wrapping_mul(104_729) % 65_536) as u16;
    let m3 = (i.wrapping_mul(31) % 1_009) as u16;
    let m4 = (65_535 - i % 65_536) as u16;
    Station {
        number: i.wrapping_mul(3).wrapping_add(1),
        at: Measures { m1, m2, m3, m4 },
    }
}

fn print_roll(rt: &HostRuntime, row: &[Station]) -> anyhow::Result<()> {
    let mut roll = Roll::new();
    match roll.load(row) {
        Ok(()) => {
            let pages = roll.pages();
            let stations = row.len();
            println!(rt; "{stations} stations make {pages} pages")?;
            print_pages(rt, roll)
        }
        Err(fault) => print_fault(rt, fault),
    }
}

// The rolls of rows that make the first and the last page of a level.
fn print_rolls(rt: &HostRuntime) -> anyhow::Result<()> {
    let mut row = Vec::new(rt.alloc());
    for i in 0..1153u32 {
        row.push(station(i))?;
    }
    for n in [0, 1, 12, 13, 144, 145, 1152, 1153] {
        if n <= row.len() {
            print_roll(rt, &row.as_slice()[0..n])?;
        }
    }
    Ok(())
}

fn main(rt: HostRuntime) -> anyhow::Result<()> {
    let mut input = Vec::new(rt.alloc());
    rt.stdin().take(4_000_000).read_to_end(&mut input)?;
    print_books(&rt, input.as_slice())?;
    print_rolls(&rt)
}
