// A whole log: the question's line, and then the stations'.
ghost use Rattle.std.specs.Prelude.{◌≡◌, ℕ, ◌+◌, ◌≤◌, true, List, [], length, Some, MatchResult, slice_index};
ghost use Rattle.stations.specs.Beating.{Ordinary};
ghost use Rattle.logs.specs.Pieces.{lines_of};
ghost use Rattle.logs.specs.Fields.{question_line, station_line, admits, pass};
ghost use Rattle.logs.specs.Checks.{most_bytes, lines_fault, stations_fault, measures_at, question_of, station_of};
ghost use Rattle.logs.specs.Rendering.{letter_of, weights_of, weight_numbers, weights_at};
ghost use Rattle.logs.specs.Reading.{Headed, Filled, Accepted, Refused};

use crate::field::SUM_LETTER;
use crate::line::{QUESTION_LINE, STATION_LINE};
use crate::parsed::Parsed;
use arrayvec::ArrayVec;
use rankings::{LargestProduct, Ranker, WeightedSum, Weights};
use stations::{Code, Fault, MOST_STATIONS, Measures, Question, Region, Station, check_row};

// What a text holds beside its stations: the ranking, the question, and how many stations there are. Those stand in a row
// that the caller lends, and that may be longer.
#[derive(Clone, Copy)]
pub struct Log {
    pub ranking: Ranker,
    pub question: Question,
    pub count: usize,
}

// The longest text.
pub const MOST_BYTES: usize = 65_536;

// Four numbers from a place on.
fn measures_at(numbers: &[u64], from: usize) -> Measures
    requires within { from + 4 ≤ length numbers.now }
    requires ordinary { Ordinary (measures_at from numbers.now) }
    ensures { result ≡ measures_at from numbers.now }
{
    Measures {
        m1: numbers[from] as u16,
        m2: numbers[from + 1] as u16,
        m3: numbers[from + 2] as u16,
        m4: numbers[from + 3] as u16,
    }
}

fn station_of(numbers: &[u64; 5]) -> Station
    requires { pass admits station_line numbers.now ≡ true }
    ensures { result ≡ station_of numbers.now }
{
    Station {
        number: numbers[0] as u32,
        at: measures_at(numbers, 1),
    }
}

fn question_of(numbers: &[u64; 14]) -> Question
    requires { pass admits question_line numbers.now ≡ true }
    ensures { result ≡ question_of numbers.now }
{
    let region = Region {
        low: measures_at(numbers, 2),
        high: measures_at(numbers, 6),
    };
    Question {
        k: numbers[1] as u16,
        region,
    }
}

fn ranking_of(numbers: &[u64; 14]) -> Ranker
    requires { pass admits question_line numbers.now ≡ true }
    ensures letter { letter_of result ≡ slice_index numbers.now 0 }
    ensures weights { weight_numbers (weights_of result) ≡ weights_at 10 numbers.now }
{
    let weights = Weights {
        w1: numbers[10] as u16,
        w2: numbers[11] as u16,
        w3: numbers[12] as u16,
        w4: numbers[13] as u16,
    };
    if numbers[0] == SUM_LETTER as u64 {
        Ranker::Sum(WeightedSum { weights })
    } else {
        Ranker::Largest(LargestProduct { weights })
    }
}

// Reads the question's line: the log as it is before its stations are read.
fn read_question(text: &[u8]) -> Result<Parsed<'_, Log>, Fault>
    ensures { MatchResult result (λ h. Headed text.now h.value.ranking h.value.question h.rest.now) (λ f. lines_fault (lines_of text.now) ≡ Some f) }
{
    let line = QUESTION_LINE.take_line(1, text)?;
    let log = Log {
        ranking: ranking_of(&line.value),
        question: question_of(&line.value),
        count: 0,
    };
    Ok(Parsed {
        value: log,
        rest: line.rest,
    })
}

// Reads the stations' lines into the row, which is empty.
fn read_stations(text: &[u8], row: &mut ArrayVec<Station, MOST_STATIONS>) -> Result<(), Fault>
    requires { row.old.items ≡ [] }
    ensures { MatchResult result (λ _. Filled text.now row.new.items) (λ f. stations_fault 2 (lines_of text.now) ≡ Some f) }
{
    let mut rest = text;
    while !rest.is_empty() {
        // The question's line is the first.
        let number = row.len() as u32 + 2;
        if row.is_full() {
            return Err(Code::TooManyStations.at(number, 0));
        }
        let line = STATION_LINE.take_line(number, rest)?;
        row.push(station_of(&line.value));
        rest = line.rest;
    }
    Ok(())
}

// Reads the stations' lines into the row that is lent, and checks what was read. Apart from `read_log` and never inlined: a call
// blanks a row of its own where it begins, which a text that is refused before need not wait for.
#[inline(never)]
fn fill_row(log: Log, lines: &[u8], row: &mut [Station]) -> Result<Log, Fault>
    ensures { (text : List ℕ) → length text ≤ most_bytes → Headed text log.ranking log.question lines.now → MatchResult result (Accepted text row.old row.new) (Refused text row.old row.new) }
{
    let mut read = ArrayVec::new();
    read_stations(lines, &mut read)?;
    check_row(&read)?;
    log.question.check()?;
    let count = read.len();
    if count > row.len() {
        return Err(Code::ShortBuffer.into());
    }
    row[..count].copy_from_slice(&read);
    Ok(Log { count, ..log })
}

// Reads a log into the row. A text that is refused leaves the row as it was.
pub fn read_log(text: &[u8], row: &mut [Station]) -> Result<Log, Fault>
    ensures { MatchResult result (Accepted text.now row.old row.new) (Refused text.now row.old row.new) }
{
    if text.len() > MOST_BYTES {
        return Err(Code::TextTooLong.into());
    }
    let heading = read_question(text)?;
    fill_row(heading.value, heading.rest, row)
}
