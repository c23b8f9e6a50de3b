// Checks of one page.
ghost use Rattle.std.specs.Prelude.{◌≡◌, ◌+◌, ◌<◌, ◌≤◌, ◌++◌, map, length, Ok, ◌==◌};
ghost use Rattle.std.specs.List.{list_all};
ghost use Rattle.stations.specs.Faults.{verdict};
ghost use Rattle.stored.specs.Layout.{stations_of, children_of, is_padded, live};
ghost use Rattle.stored.specs.Notes.{note_all, notes_after, numbers_after};
ghost use Rattle.stored.specs.Listed.{listed};
ghost use Rattle.stored.specs.Checks.{is_fair_header, is_below, is_within, child_fault, station_fault, children_fault, stations_fault, page_fault};

use crate::layout::{CHILD, ENTRIES, PAGE, STATION, child_of, count, entries, level, station_of};
use crate::naming::Naming;
use crate::numbers::Numbers;
use crate::seen::{Notes, Seen};
use books::Child;
use sources::MOST_ENTRIES;
use stations::{Code, Fault, Measures, Station};

// The highest level of a page.
const TOP_LEVEL: u8 = 7;

// The second place of a refusal that is of a page and not of an entry.
const WHOLE_PAGE: u32 = 255;

// Where a page stands: its number, the page count, and how it was named.
#[derive(Clone, Copy)]
pub(crate) struct Place {
    pub(crate) page: u32,
    pub(crate) pages: u32,
    pub(crate) naming: Option<Naming>,
    ghost fits: { pages ≤ 256 },
}

impl Place {
    // The page is one level below the page that names it.
    fn fits_level(self, level: u8) -> bool
        ensures { result ≡ is_below self.naming level }
    {
        self.naming
            .is_none_or(|naming| naming.level as u16 == level as u16 + 1)
    }

    // What lies from low to high lies in the page's box.
    fn holds(self, low: Measures, high: Measures) -> bool
        ensures { result ≡ is_within self.naming low high }
    {
        self.naming.is_none_or(|naming| {
            naming.bounds.low.at_most(low) && high.at_most(naming.bounds.high)
        })
    }

    // An entry that names a page.
    fn check_child(self, notes: &Notes, entry: u32, child: Child) -> Result<(), Fault>
        ensures answer { result ≡ verdict (child_fault self.pages self.page self.naming notes.now entry child) }
        ensures below { result ≡ Ok tt → child.page < self.pages }
    {
        if child.page <= self.page
            || child.page >= self.pages
            || notes[child.page as usize].is_some()
        {
            return Err(Code::NamedPage.at(self.page, entry));
        }
        if !child.bounds.is_ordered() {
            return Err(Code::BoxOrder.at(self.page, entry));
        }
        if !self.holds(child.bounds.low, child.bounds.high) {
            return Err(Code::OutsideBox.at(self.page, entry));
        }
        Ok(())
    }

    // An entry that is a station. It shares one test with a named page, that of the box, and `holds` makes it for both.
    fn check_station(self, numbers: &Numbers, entry: u32, station: Station) -> Result<(), Fault>
        ensures { result ≡ verdict (station_fault self.page self.naming (listed numbers.now) entry station) }
    {
        if station.number == 0 || numbers.has(station.number) {
            return Err(Code::StationNumber.at(self.page, entry));
        }
        if !self.holds(station.at, station.at) {
            return Err(Code::OutsideBox.at(self.page, entry));
        }
        Ok(())
    }

    // Checks the named pages of a page in turn, and notes each.
    fn check_children(
        self,
        level: u8,
        notes: &mut Notes,
        children: &[[u8; CHILD]],
    ) -> Result<(), Fault>
        requires { length children.now ≤ 12 }
        ensures answer { result ≡ verdict (children_fault self.pages self.page self.naming level notes.old 0 (children_of children.now)) }
        ensures noted { result ≡ Ok tt → notes.new ≡ note_all level notes.old (children_of children.now) }
    {
        for (i, bytes) in children.iter().enumerate() {
            let child = child_of(bytes);
            self.check_child(notes, i as u32, child)?;
            notes[child.page as usize] = Some(Naming {
                level,
                bounds: child.bounds,
            });
        }
        Ok(())
    }

    // Checks the stations of a page in turn, and lists the number of each. It stays apart from `check_children`: a trait with
    // an entry's bytes, its check, what it leaves behind and the laws of all three is longer than both loops.
    fn check_stations(self, numbers: &mut Numbers, stations: &[[u8; STATION]]) -> Result<(), Fault>
        requires { length (listed numbers.old) + length stations.now ≤ 3072 }
        ensures answer { result ≡ verdict (stations_fault self.page self.naming (listed numbers.old) 0 (stations_of stations.now)) }
        ensures listed { result ≡ Ok tt → listed numbers.new ≡ listed numbers.old ++ map (λ s. s.number) (stations_of stations.now) }
    {
        for (i, bytes) in stations.iter().enumerate() {
            let station = station_of(bytes);
            self.check_station(numbers, i as u32, station)?;
            numbers.push(station.number);
        }
        Ok(())
    }

    // Checks a live page that counts: its header, its level, its entries in turn, stations at level 0 and named pages above.
    #[tactic(auto, using(crate::proofs::Leveled::entries_decide, crate::proofs::Leveled::live_leaf, crate::proofs::Leveled::live_node))]
    pub(crate) fn check_page(self, seen: &mut Seen, page: &[u8; PAGE]) -> Result<(), Fault>
        // Room for twelve more numbers is so between pages and not within one, so no field carries it.
        requires { length (listed seen.old.numbers) + 12 ≤ 3072 }
        ensures answer { result ≡ verdict (page_fault self.pages self.page self.naming seen.old.notes (listed seen.old.numbers) page.now) }
        ensures noted { result ≡ Ok tt → seen.new.notes ≡ notes_after seen.old.notes (live page.now) }
        ensures listed { result ≡ Ok tt → listed seen.new.numbers ≡ numbers_after (listed seen.old.numbers) (live page.now) }
    {
        if !is_fair_header(self.page, page) {
            return Err(Code::PageHeader.at(self.page, WHOLE_PAGE));
        }
        let level = level(page);
        if !self.fits_level(level) {
            return Err(Code::PageLevel.at(self.page, WHOLE_PAGE));
        }
        if level == 0 {
            self.check_stations(&mut seen.numbers, entries(page))
        } else {
            self.check_children(level, &mut seen.notes, entries(page))
        }
    }
}

fn is_zero(bytes: &[u8]) -> bool
    ensures { result ≡ list_all (λ byte. byte == 0) bytes.now }
{
    bytes.iter().all(|byte| *byte == 0)
}

// Bytes 2 to 7 are 0.
fn is_padded(page: &[u8; PAGE]) -> bool
    ensures { result ≡ is_padded page.now }
{
    is_zero(&page[2..ENTRIES])
}

// The header keeps the layout, and only a top of level 0 is without entries.
fn is_fair_header(number: u32, page: &[u8; PAGE]) -> bool
    ensures { result ≡ is_fair_header number page.now }
{
    level(page) <= TOP_LEVEL
        && count(page) <= MOST_ENTRIES
        && is_padded(page)
        && (count(page) != 0 || number == 0 && level(page) == 0)
}
