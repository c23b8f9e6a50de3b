#![tactic(auto)]
// What the plain scan prints of a log.
ghost use Rattle.std.specs.Prelude.{◌≤◌, length};
ghost use Rattle.stations.specs.Rows.{most_stations};
ghost use Rattle.printing.specs.Printed.{Printed};
ghost use Rattle.reports.specs.Reports.{answer_lines, report_lines, length_in, Reported};

use logs::{Log, read_log};
pub use printing::Report;
use printing::{print_listing, report_refusal};
use scans::scan;
use stations::{Fault, MOST_STATIONS, Station};

// Prints the answer to the log's question over its row.
fn print_answer(row: &[Station], log: &Log, print: &mut [u8]) -> Result<usize, Fault>
    requires { length row.now ≤ most_stations }
    ensures { Printed (answer_lines log.now.ranking log.now.question row.now) print.old print.new result }
{
    // Lent to the scan, which says how much of it is filled.
    let mut list = [Station::default(); MOST_STATIONS];
    let n = scan(row, log.question, &log.ranking, &mut list)?;
    print_listing(&list[..n], &log.ranking, print)
}

// Prints the stations that the log's question asks for and `done`, or the refusal of the log.
pub fn report(text: &[u8], print: &mut [u8]) -> Result<Report, Fault>
    ensures reported { Reported text.now print.old print.new result }
    ensures lines { Printed (report_lines text.now) print.old print.new (length_in result) }
{
    // Lent to the reader, which says how much of it is filled.
    let mut row = [Station::default(); MOST_STATIONS];
    match read_log(text, &mut row) {
        Ok(log) => Ok(Report {
            len: print_answer(&row[..log.count], &log, print)?,
            refusal: None,
        }),
        Err(fault) => report_refusal(fault, print),
    }
}
