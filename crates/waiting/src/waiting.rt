ghost use Rattle.std.specs.Prelude.{◌≡◌, ◌≤◌, length};

use books::Entry;
use stations::Key;

// The most entries that may wait.
pub const MOST_WAITING: usize = 1024;

// There is no room for one more.
#[derive(Clone, Copy, Debug, PartialEq, Eq)]
pub struct Full;

// An entry that waits. The key decides when it is taken.
#[derive(Clone, Copy, Default)]
#[derive_where(PartialEq, Eq, PartialOrd, Ord)]
pub struct Waiting {
    pub key: Key,
    #[derive_where(skip)]
    pub entry: Entry,
}

// The entries that wait: a heap in the first `used` places. A count beside an array: so a start or a stop drops them at once,
// where a vector of fixed capacity blanks every place that it clears, and each taken from the front.
#[derive(Drop)]
pub struct Queue {
    pub items: [Waiting; MOST_WAITING],
    pub used: usize,
    ghost few: { used ≤ 1024 },
    ghost sized: { length items ≡ 1024 },
}
