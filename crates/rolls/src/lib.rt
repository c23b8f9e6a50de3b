#![tactic(auto)]
// Rolls: a row of stations read as a book, without one being made.
ghost use Rattle.rolls.specs.Laws.{RowsMakeBooks, RowsMakePages};

mod boxes;
mod levels;
mod measured;
mod place;
mod roll;
mod showing;

pub use roll::Roll;

// A sound row makes a lawful and whole book of least boxes that holds the row's stations.
pub fn rows_make_books()
    ensures { RowsMakeBooks }
{}

// How many pages rows make, where a page or a level is added.
pub fn rows_make_pages()
    ensures { RowsMakePages }
{}
