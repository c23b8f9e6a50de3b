// A question under a ranking: the tests and the keys of entries.
ghost use Rattle.std.specs.Prelude.{◌≡◌, ℕ};
ghost use Rattle.stations.specs.declared.measures.Measures.{Measures};
ghost use Rattle.promises.specs.Bands.{bands};
ghost use Rattle.promises.specs.Queries.{key_at};
ghost use Rattle.promises.specs.Waiting.{measures_of, counts, key_of};
ghost use Rattle.waiting.specs.Held.{waiting_of};
ghost use Rattle.waiting.specs.Asking.{bands_of};

use crate::waiting::Waiting;
use books::Entry;
use rankings::Ranking;
use stations::{Key, Kind, Measures, Question};

// What a search is asked, and the ranking that orders its answer.
#[derive(Drop)]
pub struct Query<R> {
    pub ranking: R,
    pub question: Question,
}

// Under whatever ranking.
impl<R> Query<R> {
    // What stations are held against: a station's own measures, or the corner of a page's box in the region.
    pub(crate) fn measures_of(&self, entry: Entry) -> Measures
        ensures { (rank : Measures → ℕ) → result ≡ measures_of (bands rank self.now.question) entry }
    {
        match entry {
            Entry::Page(child) => child.bounds.low.max(self.question.region.low),
            Entry::Station(station) => station.at,
        }
    }

    // A station in the region, or a page whose box has a corner there.
    pub(crate) fn is_in_play(&self, entry: Entry) -> bool
        ensures { (rank : Measures → ℕ) → result ≡ counts (bands rank self.now.question) entry }
    {
        match entry {
            Entry::Page(child) => {
                let corner = self.measures_of(entry);
                corner.at_most(child.bounds.high) && corner.at_most(self.question.region.high)
            }
            Entry::Station(station) => self.question.region.holds(station.at),
        }
    }
}

impl<R: Ranking> Query<R> {
    // The key of what has these measures, this kind and this number.
    fn key_at(&self, at: Measures, kind: Kind, number: u32) -> Key
        ensures { result ≡ key_at (bands_of R.score self.now) «at» kind number }
    {
        Key {
            rank: self.ranking.rank(at),
            sum: at.sum(),
            kind,
            number,
        }
    }

    // The key by which an entry is taken: both kinds by one way, and a station's is the one that `Station::key` gives.
    fn key_of(&self, entry: Entry) -> Key
        ensures { result ≡ key_of (bands_of R.score self.now) entry }
    {
        let at = self.measures_of(entry);
        match entry {
            Entry::Page(child) => self.key_at(at, Kind::Page, child.page),
            Entry::Station(station) => self.key_at(at, Kind::Station, station.number),
        }
    }

    // The entry with its key.
    pub(crate) fn keyed(&self, entry: Entry) -> Waiting
        ensures { result ≡ waiting_of (bands_of R.score self.now) entry }
    {
        Waiting {
            key: self.key_of(entry),
            entry,
        }
    }
}
