#![tactic(auto)]
// The picker for C: calls on byte slices that the caller lends. Nothing is kept between calls, and nothing is allocated.
ghost use Rattle.std.specs.Prelude.{◌≡◌, length, Some, None, MatchResult};
ghost use Rattle.stations.specs.Rows.{most_stations};
ghost use Rattle.logs.specs.Checks.{log_fault, row_in};
ghost use Rattle.panel.specs.Replies.{log_reply, book_reply, BookBound, LogPicked, BookAsked};

use binding::bind_log;
use logs::read_log;
use picking::{ask, pick};
use stations::{Fault, MOST_STATIONS, Station};
use stored::{PAGE, Stored};

mod reply;

pub use reply::Reply;

// How many stations a log has, or why it is refused.
fn count_stations(log: &[u8]) -> Result<usize, Fault>
    ensures { MatchResult result (λ n. (log_fault most_stations log.now ≡ None) × (n ≡ length (row_in log.now))) (λ f. log_fault most_stations log.now ≡ Some f) }
{
    // Lent to the reader, which says how much of it is filled.
    let mut row = [Station::default(); MOST_STATIONS];
    let read = read_log(log, &mut row)?;
    Ok(read.count)
}

// Checks a log, and says how many stations it has.
#[unsafe(no_mangle)]
pub extern "C" fn picker_check_log(log: &[u8]) -> Reply
    ensures { result ≡ log_reply log.now }
{
    count_stations(log).into()
}

// Checks a stored book, and says how many pages it has.
#[unsafe(no_mangle)]
pub extern "C" fn picker_check_book(book: &[u8]) -> Reply
    ensures { result ≡ book_reply book.now }
{
    let mut stored = Stored::new();
    stored.load(book).map(|()| book.len() / PAGE).into()
}

// Writes the stored book of a log's stations, and says how many bytes it has.
#[unsafe(no_mangle)]
pub extern "C" fn picker_bind(log: &[u8], book: &mut [u8]) -> Reply
    ensures { BookBound log.now book.old book.new result }
{
    bind_log(log, book).into()
}

// Prints the answer to a log's question over the log's stations.
#[unsafe(no_mangle)]
pub extern "C" fn picker_pick(log: &[u8], print: &mut [u8]) -> Reply
    ensures { LogPicked log.now print.old print.new result }
{
    pick(log, print).into()
}

// Prints the answer to a question over a stored book.
#[unsafe(no_mangle)]
pub extern "C" fn picker_ask(book: &[u8], question: &[u8], print: &mut [u8]) -> Reply
    ensures { BookAsked book.now question.now print.old print.new result }
{
    ask(book, question, print).into()
}
