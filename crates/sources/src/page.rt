ghost use Rattle.std.specs.Prelude.{◌≤◌};

use books::Entry;

// The most entries of a page.
pub const MOST_ENTRIES: usize = 12;

// A live page as a source gives it: the first `len` entries count. A count beside an array, since a page is copied like any
// plain value, and no vector is.
#[derive(Clone, Copy)]
pub struct Page {
    pub level: u8,
    pub len: usize,
    pub entries: [Entry; MOST_ENTRIES],
    ghost few: { len ≤ 12 },
}
