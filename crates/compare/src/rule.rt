// The rule on opened pages, told from what can be seen of a book.
use books::{Child, Entry};
use rankings::{Ranker, Ranking};
use sources::PageSource;
use stations::{Code, Fault, Key, Kind, Measures, Question, Region, Station};
use std::alloc::Global;

// The stations and the named pages of a book's live pages.
#[derive(Drop)]
pub(crate) struct Seen {
    stations: Vec<Station>,
    children: Vec<Child>,
}

// How a question is asked: apart from the library, which is compared with it.
#[derive(Clone, Copy)]
pub(crate) struct Asked {
    pub(crate) ranking: Ranker,
    pub(crate) question: Question,
}

// The box's low clipped to the region, unless the box misses it: told here apart from the search, to compare with.
fn corner(region: Region, bounds: Region) -> Option<Measures> {
    let at = Measures {
        m1: bounds.low.m1.max(region.low.m1),
        m2: bounds.low.m2.max(region.low.m2),
        m3: bounds.low.m3.max(region.low.m3),
        m4: bounds.low.m4.max(region.low.m4),
    };
    if at.at_most(bounds.high) && at.at_most(region.high) {
        Some(at)
    } else {
        None
    }
}

impl Seen {
    pub(crate) fn of<S: PageSource + Drop>(heap: Global, mut source: S) -> anyhow::Result<Seen> {
        let mut stations = Vec::new(heap);
        let mut children = Vec::new(heap);
        for number in 0..256u32 {
            let Ok(page) = source.read(number) else {
                continue;
            };
            for entry in &page.entries[..page.len] {
                match *entry {
                    Entry::Station(station) => stations.push(station)?,
                    Entry::Page(child) => children.push(child)?,
                }
            }
        }
        Ok(Seen { stations, children })
    }

    // The key of a page that is called for: its corner is beaten by fewer than k stations in play.
    fn called_key(&self, asked: Asked, child: &Child) -> Option<Key> {
        let Asked { ranking, question } = asked;
        let at = corner(question.region, child.bounds)?;
        let beaters = self
            .stations
            .iter()
            .filter(|s| question.region.holds(s.at) && s.at.beats(at))
            .count();
        if beaters >= question.k as usize {
            return None;
        }
        Some(Key {
            rank: ranking.rank(at),
            sum: at.sum(),
            kind: Kind::Page,
            number: child.page,
        })
    }

    // The key that a halt names, or None at the top.
    fn halt_key(&self, asked: Asked, fault: Fault) -> Option<Key> {
        if fault.code == Code::ListFull {
            let station = self.stations.iter().find(|s| s.number == fault.first)?;
            return Some(station.key(asked.ranking.rank(station.at)));
        }
        let child = self.children.iter().find(|c| c.page == fault.first)?;
        self.called_key(asked, child)
    }

    // How many pages the rule says: the top, and those called for whose keys do not come after a halt's.
    pub(crate) fn pages_by_rule(&self, asked: Asked, fault: Option<Fault>) -> usize {
        let keys = self
            .children
            .iter()
            .filter_map(|child| self.called_key(asked, child));
        let Some(fault) = fault else {
            return keys.count().saturating_add(1);
        };
        match self.halt_key(asked, fault) {
            Some(end) => keys
                .filter(|key| !end.is_before(key))
                .count()
                .saturating_add(1),
            None => 1,
        }
    }
}
