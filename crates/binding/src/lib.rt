#![tactic(auto)]
// From a log's text to the stored book of its stations.
ghost use Rattle.binding.specs.Binding.{Binds};

use logs::read_log;
use stations::{Fault, MOST_STATIONS, Station};
use writer::{CodeKey, write_book};

// Writes the book of the log's stations, and answers how many bytes it has.
pub fn bind_log(text: &[u8], book: &mut [u8]) -> Result<usize, Fault>
    ensures { Binds text.now book.old book.new result }
{
    // Lent to the reader, which says how much of the row is filled, and to the writer.
    let mut row = [Station::default(); MOST_STATIONS];
    let mut work = [CodeKey::default(); MOST_STATIONS];
    let log = read_log(text, &mut row)?;
    write_book(&row[..log.count], &mut work, book)
}
