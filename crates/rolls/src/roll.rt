ghost use Rattle.std.specs.Prelude.{◌^◌, ◌<◌, ◌≤◌, length};
ghost use Rattle.stations.specs.Rows.{most_stations};
ghost use Rattle.books.specs.Books.{Lawful};
ghost use Rattle.rolls.specs.Rolls.{roll_book};

use stations::Station;

mod making;
mod source;

// A row of stations that is read as a book, and how often a page of it was asked for. The row stays lent.
#[derive(Drop)]
pub struct Roll<'a> {
    row: &'a [Station],
    meter: u64,
    ghost few: { length row.now ≤ most_stations },
    ghost some: { 1 ≤ length (roll_book row.now) },
    ghost fits: { length (roll_book row.now) ≤ 105 },
    ghost lawful: { ∥ Lawful (roll_book row.now) ∥₁ },
    ghost metered: { meter < 2 ^ 64 },
}
