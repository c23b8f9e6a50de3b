// What the pages checked so far say.
ghost use Rattle.std.specs.Prelude.{◌≡◌, []};
ghost use Rattle.stored.specs.Notes.{no_notes};
ghost use Rattle.stored.specs.Listed.{listed};

use crate::layout::MOST_PAGES;
use crate::naming::Naming;
use crate::numbers::Numbers;

// How each page was named, by page number.
pub(crate) type Notes = [Option<Naming>; MOST_PAGES];

#[derive(Drop)]
pub(crate) struct Seen {
    pub(crate) notes: Notes,
    pub(crate) numbers: Numbers,
}

impl Seen {
    pub(crate) fn new() -> Seen
        ensures notes { result.notes ≡ no_notes }
        ensures numbers { listed result.numbers ≡ [] }
    {
        Seen {
            notes: [None; MOST_PAGES],
            numbers: Numbers::new(),
        }
    }
}
