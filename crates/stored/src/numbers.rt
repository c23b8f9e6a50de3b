// The station numbers that occurred so far.
ghost use Rattle.std.specs.Prelude.{◌≡◌, ◌<◌, [], ◌∷◌, ◌++◌, length};
ghost use Rattle.stations.specs.Marks.{Covers};
ghost use Rattle.stored.specs.Notes.{occurs};

use crate::layout::MOST_PAGES;
use arrayvec::ArrayVec;
use sources::MOST_ENTRIES;
use stations::Marks;

// As many as the pages of a book can hold.
const MOST_NUMBERS: usize = MOST_PAGES * MOST_ENTRIES;

#[derive(Drop)]
pub(crate) struct Numbers {
    all: ArrayVec<u32, MOST_NUMBERS>,
    marks: Marks,
    ghost covered: { Covers marks (λ n. occurs n all.items) },
}

impl Numbers {
    ghost use Rattle.stored.specs.Listed.{listed};

    pub(crate) fn new() -> Numbers
        ensures { listed result ≡ [] }
    {
        Numbers {
            all: ArrayVec::new(),
            marks: Marks::new(),
        }
    }

    pub(crate) fn has(&self, number: u32) -> bool
        ensures { result ≡ occurs number (listed self.now) }
    {
        self.marks.may_hold(number) && self.all.contains(&number)
    }

    pub(crate) fn push(&mut self, number: u32)
        requires { length (listed self.old) < 3072 }
        ensures { listed self.new ≡ listed self.old ++ number ∷ [] }
    {
        self.all.push(number);
        self.marks.mark(number);
    }
}
