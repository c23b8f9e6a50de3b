#![tactic(auto)]
// Writes the roll of a row, in code order, as a stored book.
ghost use Rattle.writer.specs.Writing.{WrittenBooksReadBack};

mod book;
mod bytes;
mod keys;
mod order;

pub use book::write_book;
pub use keys::CodeKey;

// A book that is written is read back as the roll of the row in code order.
pub fn written_books_read_back()
    ensures { WrittenBooksReadBack }
{}
