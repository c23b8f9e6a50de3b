#![tactic(auto)]
// The printed form of an answer, and of a refusal, into a lent buffer.
ghost use Rattle.std.specs.Prelude.{◌≡◌, ◌+◌, ◌<◌, ◌≤◌, ◌++◌, length, decimal, MatchOption, Some};
ghost use Rattle.printing.specs.Printed.{numbered, station_numbers, fault_numbers, closing_line, listing, closed_listing, refusal, Wrote, Printed, Prints};

use itoa::write_digits;
use rankings::Ranking;
use stations::{Code, Fault, Station};

mod closing;
mod report;

pub use closing::Closing;
pub use report::Report;

// How many digits a number has.
fn decimal_len(n: u64) -> usize
    ensures value { result ≡ length (decimal n) }
    ensures bound { result ≤ 20 }
{
    match n.checked_ilog10() {
        Some(log) => log as usize + 1,
        None => 1,
    }
}

// How long the line of a word and of numbers, parted by commas, is.
fn line_len(word: &[u8], numbers: &[u64]) -> usize
    requires short { length word.now ≤ 8 }
    requires few { length numbers.now ≤ 8 }
    ensures value { result ≡ length (word.now ++ numbered numbers.now) }
    ensures bound { result ≤ 176 }
{
    let digits: usize = numbers.iter().map(|n| decimal_len(*n) + 1).sum();
    word.len() + digits
}

// Bytes that are written into a lent buffer from back to front, since the last digit of a number comes first. Those that
// are written stand from `start` on.
#[derive(Drop)]
struct Printer<'a> {
    out: &'a mut [u8],
    start: usize,
    ghost within: { start ≤ length out.now },
}

// That the buffer stays the one that was lent (`same`) is told anew by each method: a field cannot speak of what was lent.
impl<'a> Printer<'a> {
    // Puts bytes in front. How many is known to the compiler, which so writes them in place: for a length that it does not know it
    // would call `memmove`, and an archive for C would need that from outside.
    fn put<const N: usize>(&mut self, bytes: &[u8; N])
        requires { length bytes.now ≤ self.old.start }
        ensures same { self.new.out.ghost_name ≡ self.old.out.ghost_name }
        ensures wrote { Wrote self.old.start self.old.out.now bytes.now self.new.start self.new.out.now }
    {
        let end = self.start;
        self.start -= bytes.len();
        self.out[self.start..end].copy_from_slice(bytes);
    }

    // Puts a line of numbers in front.
    fn put_line(&mut self, numbers: &[u64])
        requires { length (numbered numbers.now) ≤ self.old.start }
        ensures same { self.new.out.ghost_name ≡ self.old.out.ghost_name }
        ensures wrote { Wrote self.old.start self.old.out.now (numbered numbers.now) self.new.start self.new.out.now }
    {
        let mut behind = b'\n';
        for n in numbers.iter().rev() {
            self.put(&[behind]);
            self.start = write_digits(*n, self.out, self.start);
            behind = b',';
        }
    }

    // Puts the closing line in front.
    fn put_closing(&mut self, closing: Closing)
        requires { length (closing_line closing) ≤ self.old.start }
        ensures same { self.new.out.ghost_name ≡ self.old.out.ghost_name }
        ensures wrote { Wrote self.old.start self.old.out.now (closing_line closing) self.new.start self.new.out.now }
    {
        match closing {
            Closing::Complete => self.put(COMPLETE),
            Closing::Done(pages) => {
                self.put_line(&[pages as u64]);
                self.put(DONE);
            }
            Closing::Refused(fault) => {
                self.put_line(&fault_numbers(fault));
                self.put(REFUSED);
            }
        }
    }
}

const COMPLETE: &[u8; 5] = b"done\n";

const DONE: &[u8; 5] = b"done,";

const REFUSED: &[u8; 8] = b"refused,";

// How long the closing line is.
fn closing_len(closing: Closing) -> usize
    ensures value { result ≡ length (closing_line closing) }
    ensures bound { result ≤ 176 }
{
    match closing {
        Closing::Complete => COMPLETE.len(),
        Closing::Done(pages) => line_len(DONE, &[pages as u64]),
        Closing::Refused(fault) => line_len(REFUSED, &fault_numbers(fault)),
    }
}

// What is printed of a station: number, M1 to M4 and rank.
fn station_numbers<R: Ranking>(s: Station, ranking: &R) -> [u64; 6]
    ensures { result ≡ station_numbers (R.score ranking.now s.at) s }
{
    [
        s.number as u64,
        s.at.m1 as u64,
        s.at.m2 as u64,
        s.at.m3 as u64,
        s.at.m4 as u64,
        ranking.rank(s.at),
    ]
}

// A refusal's code and its two places.
fn fault_numbers(fault: Fault) -> [u64; 3]
    ensures { result ≡ fault_numbers fault }
{
    [
        fault.code.number() as u64,
        fault.first as u64,
        fault.second as u64,
    ]
}

// How long the lines and the closing line are, if that is no longer than the room. A loop: it ends at the first line that does
// not fit, and a chain would be no plainer.
fn listing_len<R: Ranking>(
    list: &[Station],
    ranking: &R,
    closing: Closing,
    room: usize,
) -> Option<usize>
    ensures { MatchOption result (room < length (closed_listing (R.score ranking.now) (closing_line closing) list.now)) (λ len. (len ≡ length (closed_listing (R.score ranking.now) (closing_line closing) list.now)) × (len ≤ room)) }
{
    let mut left = room.checked_sub(closing_len(closing))?;
    for s in list {
        left = left.checked_sub(line_len(b"", &station_numbers(*s, ranking)))?;
    }
    Some(room - left)
}

// Prints a line for each station, number, M1 to M4 and rank, and then `done`.
pub fn print_listing<R: Ranking>(
    list: &[Station],
    ranking: &R,
    out: &mut [u8],
) -> Result<usize, Fault>
    ensures { Printed (listing (R.score ranking.now) list.now) out.old out.new result }
{
    print_listing_closed(list, ranking, Closing::Complete, out)
}

// Prints a line for each station, number, M1 to M4 and rank, and then the closing line.
pub fn print_listing_closed<R: Ranking>(
    list: &[Station],
    ranking: &R,
    closing: Closing,
    out: &mut [u8],
) -> Result<usize, Fault>
    ensures { Printed (closed_listing (R.score ranking.now) (closing_line closing) list.now) out.old out.new result }
{
    let Some(len) = listing_len(list, ranking, closing, out.len()) else {
        return Err(Code::ShortBuffer.into());
    };
    let mut printer = Printer { out, start: len };
    printer.put_closing(closing);
    for s in list.iter().rev() {
        printer.put_line(&station_numbers(*s, ranking));
    }
    Ok(len)
}

// Prints a refusal's code and its two places.
// Not printed as a listing of no station, which would need a made-up ranking: so the length is tested here again.
pub fn print_refusal(fault: Fault, out: &mut [u8]) -> Result<usize, Fault>
    ensures { Printed (refusal fault) out.old out.new result }
{
    let closing = Closing::Refused(fault);
    let len = closing_len(closing);
    if out.len() < len {
        return Err(Code::ShortBuffer.into());
    }
    let mut printer = Printer { out, start: len };
    printer.put_closing(closing);
    Ok(len)
}

// Prints a refusal alone, and reports it.
pub fn report_refusal(fault: Fault, out: &mut [u8]) -> Result<Report, Fault>
    ensures { Prints (Some fault) (refusal fault) out.old out.new result }
{
    let len = print_refusal(fault, out)?;
    Ok(Report {
        len,
        refusal: Some(fault),
    })
}
