// The pages of a roll, as a source gives them.
ghost use Rattle.std.specs.Prelude.{◌≡◌, ◌-◌, ◌<◌, length};
ghost use Rattle.sources.specs.Sources.{Shows};
ghost use Rattle.rolls.specs.Rolls.{part, span as span_of, pages_of, child as child_of, page_at};

use crate::boxes::around;
use crate::levels::{pages_of, span};
use crate::place::Place;
use books::{Child, Entry};
use sources::{MOST_ENTRIES, Page};
use stations::Station;

impl<'a> Place<'a> {
    // The page at the place.
    pub(crate) fn page(&self) -> Page
        ensures { Shows (page_at self.now.row.now self.now.level self.now.below self.now.index) result }
    {
        if self.level == 0 {
            self.leaf()
        } else {
            self.node()
        }
    }

    // A page of stations. Its loop and that of the other kind of page differ in what they put; a third function over a closure
    // would be longer than both. Entries are put by place: a proof does not know what a walk zipped with `iter_mut` leaves.
    fn leaf(&self) -> Page
        requires { self.now.level ≡ 0 }
        ensures { Shows (page_at self.now.row.now 0 0 self.now.index) result }
    {
        let from = self.index * MOST_ENTRIES;
        let end = (from + MOST_ENTRIES).min(self.row.len());
        let stations = &self.row[from..end];
        let mut entries = [Entry::default(); MOST_ENTRIES];
        for (place, station) in stations.iter().enumerate() {
            entries[place] = Entry::Station(*station);
        }
        Page {
            level: 0,
            len: stations.len(),
            entries,
        }
    }

    // A page that names pages of the level below. Level 0 has none, so this function and the two below ask for a
    // higher level; a type for such places would be made for them alone.
    fn node(&self) -> Page
        requires { 0 < self.now.level }
        ensures { Shows (page_at self.now.row.now self.now.level self.now.below self.now.index) result }
    {
        let from = self.index * MOST_ENTRIES;
        let end = (from + MOST_ENTRIES).min(pages_of(self.row.len(), self.level - 1));
        let mut entries = [Entry::default(); MOST_ENTRIES];
        let len = end - from;
        for place in 0..len {
            entries[place] = Entry::Page(self.child(from + place));
        }
        Page {
            level: self.level as u8,
            len,
            entries,
        }
    }

    // The page of the level below at the index, as this level names it.
    fn child(&self, index: usize) -> Child
        requires above { 0 < self.now.level }
        requires there { index < pages_of (length self.now.row.now) (self.now.level - 1) }
        ensures { result ≡ child_of self.now.row.now (self.now.level - 1) self.now.below index }
    {
        Child {
            page: (self.below + index) as u32,
            bounds: around(self.spanned(index)),
        }
    }

    // The stations below that page.
    fn spanned(&self, index: usize) -> &'a [Station]
        requires above { 0 < self.now.level }
        requires there { index < pages_of (length self.now.row.now) (self.now.level - 1) }
        ensures { result.now ≡ part (span_of (self.now.level - 1)) self.now.row.now index }
    {
        let places = span(self.level - 1);
        let from = index * places;
        let end = (from + places).min(self.row.len());
        &self.row[from..end]
    }
}
