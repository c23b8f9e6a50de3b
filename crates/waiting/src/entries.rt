// What is listed, and the tests of entries against it.
ghost use Rattle.std.specs.Prelude.{◌≡◌, ℕ, [], nat_lt};
ghost use Rattle.stations.specs.declared.measures.Measures.{Measures};
ghost use Rattle.stations.specs.Beating.{beats};
ghost use Rattle.stations.specs.Counting.{count};
ghost use Rattle.promises.specs.Bands.{bands};
ghost use Rattle.promises.specs.Waiting.{passes};
ghost use Rattle.waiting.specs.Held.{listing, Lists};

use crate::listed::{Listed, MOST_LISTED};
use crate::query::Query;
use crate::waiting::Full;
use books::Entry;
use stations::{Measures, Station};

impl Listed {
    // Nothing is listed. What fills the places does not count.
    pub fn new() -> Self
        ensures { listing result ≡ [] }
    {
        Listed {
            stations: [Station::default(); MOST_LISTED],
            len: 0,
        }
    }

    // Lists one more station, or refuses where there is no room.
    pub fn push(&mut self, station: Station) -> Result<(), Full>
        ensures { Lists 512 (listing self.old) station result (listing self.new) }
    {
        let n = self.len;
        if n >= MOST_LISTED {
            return Err(Full);
        }
        self.stations[n] = station;
        self.len = n + 1;
        Ok(())
    }

    // How many of the listed stations beat the measures.
    pub fn beating(&self, at: Measures) -> usize
        ensures { result ≡ count (λ s. beats s.at «at») (listing self.now) }
    {
        self.stations[..self.len]
            .iter()
            .filter(|s| s.at.beats(at))
            .count()
    }

    // Fewer than k of the listed stations beat the measures. It looks no further than the k-th that does. Every entry is
    // tested so, and a chain that ends at the k-th takes a sixth longer.
    fn few_beat(&self, at: Measures, k: u16) -> bool
        ensures { result ≡ nat_lt (count (λ s. beats s.at «at») (listing self.now)) k }
    {
        let mut left = k;
        for station in &self.stations[..self.len] {
            if station.at.beats(at) {
                if left <= 1 {
                    return false;
                }
                left -= 1;
            }
        }
        left > 0
    }

    // The entry is not set aside: it is in play, and fewer than k of the listed stations beat it.
    pub fn passes<R>(&self, query: &Query<R>, entry: Entry) -> bool
        ensures { (rank : Measures → ℕ) → result ≡ passes (bands rank query.now.question) (listing self.now) entry }
    {
        query.is_in_play(entry) && self.few_beat(query.measures_of(entry), query.question.k)
    }
}
