// The order in which entries are taken and stations are listed.
ghost use Rattle.std.specs.Prelude.{◌≡◌};
ghost use Rattle.stations.specs.Keys.{before};

// A page comes before a station of equal rank and sum: what it holds may come before that station too.
#[derive(Clone, Copy, PartialEq, Eq, PartialOrd, Ord, Default)]
pub enum Kind {
    #[default]
    Page,
    Station,
}

// Compared part by part, from the first.
#[derive(Clone, Copy, PartialEq, Eq, PartialOrd, Ord, Default)]
pub struct Key {
    pub rank: u64,
    pub sum: u32,
    pub kind: Kind,
    pub number: u32,
}

impl Key {
    pub fn is_before(&self, other: &Key) -> bool
        ensures { result ≡ before self.now other.now }
    {
        self.cmp(other).is_lt()
    }
}
