#![tactic(auto)]
// Books: what the pages of a tree hold, and what a lawful book is.
use stations::{Region, Station};

// A page, as the page above it names it: its number, and a box that all its stations lie in.
#[derive(Clone, Copy)]
pub struct Child {
    pub page: u32,
    pub bounds: Region,
}

// What stands on a page: the name of a page below it, or a station.
#[derive(Clone, Copy)]
pub enum Entry {
    Page(Child),
    Station(Station),
}

// What stands where no entry has been put, some station; nobody reads it. By hand, since a derive takes a variant without
// fields.
impl Default for Entry {
    ghost use Rattle.books.specs.Fillers.{IsStation};

    ghost is_default = { IsStation };

    fn default() -> Entry {
        Entry::Station(Station::default())
    }
}
