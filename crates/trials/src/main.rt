#![tactic(auto)]
// Runs every log of standard input through the report, and prints what it prints. A log stands behind a line with its length.
use frames::Frames;
use rankings::Weights;
use reports::report;
use stations::{Fault, Measures, Station, check_row};
use std::io::{Read, Write};

// Prints the report of a log into a buffer of some length, or the fault where that is too short.
fn print_report(rt: &HostRuntime, text: &[u8], room: usize) -> anyhow::Result<()> {
    let mut print = vec![in rt.alloc(); 0u8; room]?;
    match report(text, print.as_mut_slice()) {
        Ok(printed) => print.truncate(printed.len()),
        Err(fault) => return print_fault(rt, fault),
    }
    rt.stdout().write_all(print.as_slice())?;
    Ok(())
}

// Both trials have these lines: a crate for them would be longer.
fn print_fault(rt: &HostRuntime, fault: Fault) -> anyhow::Result<()> {
    let Fault {
        code,
        first,
        second,
    } = fault;
    println!(rt; "fault {code} at {first}, {second}")?;
    Ok(())
}

// The logs of the input, one after the other.
fn print_all(rt: &HostRuntime, input: &[u8]) -> anyhow::Result<()> {
    for log in Frames::new(input) {
        print_report(rt, log, 65_536)?;
    }
    Ok(())
}

// Texts of one digit over and over, as long as a log may be and one byte longer.
fn print_longest(rt: &HostRuntime) -> anyhow::Result<()> {
    let text = vec![in rt.alloc(); b'7'; 65_537]?;
    print_report(rt, &text.as_slice()[0..65_536], 65_536)?;
    print_report(rt, text.as_slice(), 65_536)
}

// The listing of a small log in buffers that are just long enough and one byte too short, and a refusal likewise.
fn print_short(rt: &HostRuntime) -> anyhow::Result<()> {
    let log = b"W,1,0,0,0,0,9,9,9,9,1,2,3,4\n5,1,2,3,4\n";
    print_report(rt, log, 18)?;
    print_report(rt, log, 17)?;
    print_report(rt, b"x\n", 14)?;
    print_report(rt, b"x\n", 13)
}

fn station(number: u32, m1: u16) -> Station {
    Station {
        number,
        at: Measures {
            m1,
            ..Measures::default()
        },
    }
}

fn print_verdict(rt: &HostRuntime, verdict: Result<(), Fault>) -> anyhow::Result<()> {
    match verdict {
        Ok(()) => println!(rt; "accepted")?,
        Err(fault) => print_fault(rt, fault)?,
    }
    Ok(())
}

// Rows given straight: accepted, a zero first and last, a repeat first and last, one station too many.
fn print_rows(rt: &HostRuntime) -> anyhow::Result<()> {
    let mut row = Vec::new(rt.alloc());
    for i in 0..1153u32 {
        row.push(station(i + 1, 0))?;
    }
    let full = row.as_mut_slice();
    if full.len() < 1153 {
        return Ok(());
    }
    print_verdict(rt, check_row(&full[0..0]))?;
    print_verdict(rt, check_row(&full[0..1152]))?;
    print_verdict(rt, check_row(full))?;
    full[1151] = station(1, 0);
    print_verdict(rt, check_row(&full[0..1152]))?;
    full[1] = station(1, 7);
    print_verdict(rt, check_row(&full[0..1152]))?;
    full[1151] = station(0, 0);
    print_verdict(rt, check_row(&full[0..1152]))?;
    full[0] = station(0, 0);
    print_verdict(rt, check_row(&full[0..1152]))?;
    print_verdict(rt, check_row(full))
}

// Weights given straight, at the largest and above it in each place.
fn print_weights(rt: &HostRuntime) -> anyhow::Result<()> {
    for (w1, w2, w3, w4) in [
        (1000, 1000, 1000, 1000),
        (1001, 0, 0, 0),
        (0, 1001, 0, 0),
        (0, 0, 1001, 0),
        (0, 0, 0, 1001),
    ] {
        print_verdict(rt, Weights::new(w1, w2, w3, w4).map(|_| ()))?;
    }
    Ok(())
}

fn main(rt: HostRuntime) -> anyhow::Result<()> {
    let mut input = Vec::new(rt.alloc());
    rt.stdin().take(4_000_000).read_to_end(&mut input)?;
    print_all(&rt, input.as_slice())?;
    print_longest(&rt)?;
    print_short(&rt)?;
    print_rows(&rt)?;
    print_weights(&rt)
}
