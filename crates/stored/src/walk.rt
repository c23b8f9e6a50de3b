// The check of a whole book: the pages that count, in rising number.
ghost use Rattle.std.specs.Prelude.{◌≡◌, ◌+◌, ◌<◌, ◌≤◌, true, [], length, take, is_ok, Ok};
ghost use Rattle.stations.specs.Faults.{verdict};
ghost use Rattle.stored.specs.Notes.{no_notes, notes_after, numbers_after};
ghost use Rattle.stored.specs.Listed.{listed};
ghost use Rattle.stored.specs.Loading.{page_count, pages_in, is_live_at, slot_at, slots_from, visit_fault, walk_fault, length_fault, marks};
ghost use Rattle.stored.specs.Visits.{visited};

use crate::check::Place;
use crate::layout::{DEAD, MOST_PAGES, PAGE, level};
use crate::seen::Seen;
use stations::{Code, Fault};

impl Seen {
    // The page is the top or a page before it names it, and it is not dead.
    fn is_live_at(&self, p: usize, page: &[u8; PAGE]) -> bool
        requires { p < 256 }
        ensures { result ≡ is_live_at self.now.notes p page.now }
    {
        (p == 0 || self.notes[p].is_some()) && level(page) != DEAD
    }

    // Checks a page if it counts and is not dead, and says whether it can be read.
    fn visit(&mut self, p: usize, pages: usize, page: &[u8; PAGE]) -> Result<bool, Fault>
        requires place { (p < pages) × (pages ≤ 256) }
        // Room for twelve more numbers is so between pages and not within one, so no field carries it.
        requires room { length (listed self.old.numbers) + 12 ≤ 3072 }
        ensures answer { result ≡ visited (visit_fault pages p self.old.notes (listed self.old.numbers) page.now) (is_live_at self.old.notes p page.now) }
        ensures noted { is_ok result ≡ true → self.new.notes ≡ notes_after self.old.notes (slot_at self.old.notes p page.now) }
        ensures listed { is_ok result ≡ true → listed self.new.numbers ≡ numbers_after (listed self.old.numbers) (slot_at self.old.notes p page.now) }
    {
        if !self.is_live_at(p, page) {
            return Ok(false);
        }
        let place = Place {
            page: p as u32,
            pages: pages as u32,
            naming: self.notes[p],
        };
        place.check_page(self, page)?;
        Ok(true)
    }
}

// Refuses a length that is not that of 1 to 256 pages.
pub(crate) fn check_length(bytes: &[u8]) -> Result<(), Fault>
    ensures { result ≡ verdict (length_fault bytes.now) }
{
    if bytes.len() % PAGE != 0 || bytes.len() < PAGE || bytes.len() > PAGE * MOST_PAGES {
        return Err(Code::BookLength.into());
    }
    Ok(())
}

// Checks the pages in turn, and marks those that can be read.
#[tactic(auto, using(crate::proofs::Chunks::pages_are))]
pub(crate) fn check_pages(bytes: &[u8], live: &mut [bool; MOST_PAGES]) -> Result<(), Fault>
    requires { page_count bytes.now ≤ 256 }
    ensures answer { result ≡ verdict (walk_fault (page_count bytes.now) 0 no_notes [] (pages_in bytes.now)) }
    ensures marked { result ≡ Ok tt → take (page_count bytes.now) live.new ≡ marks (slots_from 0 no_notes (pages_in bytes.now)) }
{
    let (pages, _) = bytes.as_chunks::<PAGE>();
    let mut seen = Seen::new();
    // By place: a proof does not know what a zipped pass leaves in the marks.
    for (p, page) in pages.iter().enumerate() {
        live[p] = seen.visit(p, pages.len(), page)?;
    }
    Ok(())
}
