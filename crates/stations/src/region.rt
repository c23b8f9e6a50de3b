// A box of measures: a low and a high for each. A question's region is one, and so is the box of a page.
ghost use Rattle.std.specs.Prelude.{◌≡◌};
ghost use Rattle.stations.specs.Beating.{at_most};
ghost use Rattle.stations.specs.Play.{inside};

use crate::measures::Measures;

#[derive(Clone, Copy, PartialEq, Eq, Default)]
pub struct Region {
    pub low: Measures,
    pub high: Measures,
}

impl Region {
    // Every measure lies between the low and the high, ends included.
    pub fn holds(self, at: Measures) -> bool
        ensures { result ≡ inside self «at» }
    {
        self.low.at_most(at) && at.at_most(self.high)
    }

    // No low is above its high.
    pub fn is_ordered(self) -> bool
        ensures { result ≡ at_most self.low self.high }
    {
        self.low.at_most(self.high)
    }
}
