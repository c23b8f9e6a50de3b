#![tactic(auto)]
// What the picker prints: a question asked of a book and driven to its end.
ghost use Rattle.std.specs.Prelude.{◌≡◌, None};
ghost use Rattle.rankings.specs.Scores.{ranker_score};
ghost use Rattle.stations.specs.Rows.{most_stations};
ghost use Rattle.rolls.specs.Rolls.{roll_book};
ghost use Rattle.stored.specs.Loading.{load_fault, spelled_book};
ghost use Rattle.logs.specs.Checks.{log_fault, score_in, question_in, row_in};
ghost use Rattle.printing.specs.Printed.{closing_line, closed_listing, Prints};
ghost use Rattle.picking.specs.Picks.{fault_in, closing_at, search_fault, search_lines, pick_fault, pick_lines, ask_fault, ask_lines, KeepsPromises, PicksAnswer};

use logs::read_log;
use printing::{Closing, Report, print_listing_closed, report_refusal};
use rankings::Ranker;
use rolls::Roll;
use search::Run;
use sources::PageSource;
use stations::{Fault, MOST_STATIONS, Question, Station};
use stored::Stored;

// Prints the stations and how the search for them ended.
fn print_end(
    list: &[Station],
    ranking: Ranker,
    end: Result<(), Fault>,
    pages: usize,
    print: &mut [u8],
) -> Result<Report, Fault>
    ensures { Prints (fault_in end) (closed_listing (ranker_score ranking) (closing_line (closing_at end pages)) list.now) print.old print.new result }
{
    let refusal = end.err();
    let closing = refusal.map_or(Closing::Done(pages), Closing::Refused);
    let len = print_listing_closed(list, &ranking, closing, print)?;
    Ok(Report { len, refusal })
}

// Asks the question of the source, and prints the stations handed out, in order, and how the search ended.
pub fn print_search<S: PageSource + Drop>(
    source: S,
    ranking: Ranker,
    question: Question,
    print: &mut [u8],
) -> Result<Report, Fault>
    ensures promised { KeepsPromises (ranker_score ranking) (S.book source) question }
    ensures prints { Prints (search_fault (ranker_score ranking) (S.book source) question) (search_lines (ranker_score ranking) (S.book source) question) print.old print.new result }
{
    let mut run = Run::new(source, ranking);
    if let Err(fault) = run.start(question) {
        return report_refusal(fault, print);
    }
    let end = run.drive();
    let (pages, _) = run.tally();
    print_end(run.listed(), ranking, end, pages, print)
}

// Asks a log's question of the roll of its stations.
pub fn pick(text: &[u8], print: &mut [u8]) -> Result<Report, Fault>
    ensures promised { log_fault most_stations text.now ≡ None → KeepsPromises (score_in text.now) (roll_book (row_in text.now)) (question_in text.now) }
    ensures answers { PicksAnswer text.now }
    ensures prints { Prints (pick_fault text.now) (pick_lines text.now) print.old print.new result }
{
    // Lent to the reader, which says how much of it is filled.
    let mut row = [Station::default(); MOST_STATIONS];
    let log = match read_log(text, &mut row) {
        Ok(log) => log,
        Err(fault) => return report_refusal(fault, print),
    };
    let mut roll = Roll::new();
    roll.load(&row[..log.count])?;
    print_search(roll, log.ranking, log.question, print)
}

// Asks a question of a stored book. The question is a log's first line, with no station behind it.
pub fn ask(book: &[u8], text: &[u8], print: &mut [u8]) -> Result<Report, Fault>
    ensures promised { log_fault 0 text.now ≡ None → load_fault book.now ≡ None → KeepsPromises (score_in text.now) (spelled_book book.now) (question_in text.now) }
    ensures prints { Prints (ask_fault book.now text.now) (ask_lines book.now text.now) print.old print.new result }
{
    let log = match read_log(text, &mut []) {
        Ok(log) => log,
        Err(fault) => return report_refusal(fault, print),
    };
    let mut stored = Stored::new();
    if let Err(fault) = stored.load(book) {
        return report_refusal(fault, print);
    }
    print_search(stored, log.ranking, log.question, print)
}
