// A row's roll written as a stored book.
ghost use Rattle.std.specs.Prelude.{◌≡◌, ◌*◌, ◌≤◌, length, Some, None, Ok, MatchResult};
ghost use Rattle.stations.specs.Rows.{row_fault};
ghost use Rattle.rolls.specs.Rolls.{roll_book};
ghost use Rattle.writer.specs.Bytes.{book_bytes};
ghost use Rattle.writer.specs.Writing.{Writes};

use crate::bytes::encode;
use crate::keys::CodeKey;
use crate::order::sort_by_code;
use arrayvec::ArrayVec;
use rolls::Roll;
use sources::PageSource;
use stations::{Code, Fault, Station};
use stored::PAGE;

// How many pages the row's roll has, or why the row is refused. This roll is of the row as it stands, and that of `write_pages`
// of the row in code order.
fn count_pages(row: &[Station]) -> Result<usize, Fault>
    ensures { MatchResult result (λ n. (row_fault row.now ≡ None) × (n ≡ length (roll_book row.now)) × (n ≤ 105)) (λ f. row_fault row.now ≡ Some f) }
{
    let mut roll = Roll::new();
    roll.load(row)?;
    Ok(roll.pages() as usize)
}

// Fills the buffer with the pages of the row's roll, one after the other. A row that may be read as a book is never refused.
fn write_pages(row: &[Station], book: &mut [u8]) -> Result<(), Fault>
    requires fine { row_fault row.now ≡ None }
    requires places { length book.old ≡ 256 * length (roll_book row.now) }
    ensures done { result ≡ Ok tt }
    ensures bytes { book.new ≡ book_bytes (roll_book row.now) }
{
    let mut roll = Roll::new();
    roll.load(row)?;
    // Not by `chunks_exact_mut`: a proof does not know what its parts leave in the buffer.
    for p in 0..roll.pages() {
        let page = encode(&roll.read(p)?);
        let from = PAGE * p as usize;
        book[from..from + PAGE].copy_from_slice(&page);
    }
    Ok(())
}

// Writes the book of the row in code order, and answers how many bytes it has. The bytes that no entry takes are 0.
// The caller lends both buffers: the one to work in, and the one for the book.
pub fn write_book(row: &[Station], work: &mut [CodeKey], book: &mut [u8]) -> Result<usize, Fault>
    ensures { Writes row.now work.old work.new book.old book.new result }
{
    let pages = count_pages(row)?;
    if work.len() < row.len() || book.len() < PAGE * pages {
        return Err(Code::ShortBuffer.into());
    }
    let mut sorted = ArrayVec::new();
    sort_by_code(row, &mut work[..row.len()], &mut sorted);
    write_pages(sorted.as_slice(), &mut book[..PAGE * pages])?;
    Ok(PAGE * pages)
}
