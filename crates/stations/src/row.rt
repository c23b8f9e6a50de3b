// Rows of stations, given straight.
ghost use Rattle.std.specs.Prelude.{◌≡◌, ◌≤◌, [], length};
ghost use Rattle.stations.specs.Faults.{verdict};
ghost use Rattle.stations.specs.Marks.{Covers};
ghost use Rattle.stations.specs.Rows.{holds_number, zero_fault, repeat_fault, most_stations, row_fault};

use crate::fault::{Code, Fault};
use crate::marks::Marks;
use crate::station::Station;

// The most stations that a row may have. Each contract that needs the bound says it: rows are lent slices, and a type around
// one would be made anew for every call.
pub const MOST_STATIONS: usize = 1152;

fn holds_number(row: &[Station], number: u32) -> bool
    ensures { result ≡ holds_number number row.now }
{
    // Every station is looked at, also behind one that is found: a walk without an early end compares several at once, and takes
    // less than half the time of one by `any`. It is made once after a number is found, since the check ends there.
    let mut found = false;
    for s in row {
        found |= s.number == number;
    }
    found
}

// The same, where each number of the row is marked: a number without a mark needs no look at the row.
fn is_among(row: &[Station], marks: &Marks, number: u32) -> bool
    requires { Covers marks.now (λ n. holds_number n row.now) }
    ensures { result ≡ holds_number number row.now }
{
    marks.may_hold(number) && holds_number(row, number)
}

// Refuses a station number 0, by the index of the first.
fn check_zero(row: &[Station]) -> Result<(), Fault>
    requires { length row.now ≤ most_stations }
    ensures { result ≡ verdict (zero_fault 0 row.now) }
{
    if let Some(i) = row.iter().position(|s| s.number == 0) {
        return Err(Code::OutOfRange.at(i as u32, 0));
    }
    Ok(())
}

// Refuses a number that occurs twice, by the index of the first station that repeats an earlier one.
fn check_repeats(row: &[Station]) -> Result<(), Fault>
    requires { length row.now ≤ most_stations }
    ensures { result ≡ verdict (repeat_fault [] 0 row.now) }
{
    let mut marks = Marks::new();
    for (i, station) in row.iter().enumerate() {
        if is_among(&row[..i], &marks, station.number) {
            return Err(Code::RepeatedNumber.at(i as u32, 0));
        }
        marks.mark(station.number);
    }
    Ok(())
}

// Refuses a row that is too long, then a station number 0, then a number that occurs twice.
pub fn check_row(row: &[Station]) -> Result<(), Fault>
    ensures { result ≡ verdict (row_fault row.now) }
{
    if row.len() > MOST_STATIONS {
        return Err(Code::TooManyStations.into());
    }
    check_zero(row)?;
    check_repeats(row)
}
