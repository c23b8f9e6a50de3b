ghost use Rattle.std.specs.Prelude.{◌≡◌};
ghost use Rattle.stations.specs.Keys.{station_key};

use crate::key::{Key, Kind};
use crate::measures::Measures;

// A place in the well where the tester may be set, by its number and its measures.
#[derive(Clone, Copy, PartialEq, Eq, Default)]
pub struct Station {
    pub number: u32,
    pub at: Measures,
}

impl Station {
    // The station's key, under the rank that a ranking gives its measures.
    pub fn key(self, rank: u64) -> Key
        ensures { result ≡ station_key rank self }
    {
        Key {
            rank,
            sum: self.at.sum(),
            kind: Kind::Station,
            number: self.number,
        }
    }
}
