// A stored book as a page source.
ghost use Rattle.std.specs.Prelude.{◌≡◌};
ghost use Rattle.stored.specs.Meaning.{book_of, pages_of, meter_of, stored-laws};

use crate::layout::{MOST_PAGES, PAGE};
use crate::showing::page_at;
use crate::stored::Stored;
use sources::{Page, PageSource};
use stations::{Code, Fault};

impl<'a> PageSource for Stored<'a> {
    const MOST_PAGES: usize = MOST_PAGES;

    ghost limit = { 256 };

    ghost book = { book_of };

    ghost pages = { pages_of };

    ghost meter = { meter_of };

    ghost laws = { stored-laws };

    fn page_limit() -> usize
        ensures { result ≡ 256 }
    {
        Self::MOST_PAGES
    }

    #[tactic(auto, using(crate::proofs::Chunks::page_is, crate::proofs::Shown::mark_at, crate::proofs::Shown::few_entries, crate::proofs::Shown::reads_live, books::specs::Facts::lawful_out))]
    fn read(&mut self, page: u32) -> Result<Page, Fault> {
        self.meter = self.meter.wrapping_add(1);
        let (pages, _) = self.bytes.as_chunks::<PAGE>();
        let p = page as usize;
        if p >= pages.len() {
            return Err(Code::PageNumber.at(page, 0));
        }
        if !self.live[p] {
            return Err(Code::DeadPage.at(page, 0));
        }
        Ok(page_at(&pages[p]))
    }
}
