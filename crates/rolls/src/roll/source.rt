// A roll as a page source.
ghost use Rattle.std.specs.Prelude.{◌≡◌};
ghost use Rattle.rolls.specs.Source.{book_of, pages_in, reads_of, roll_laws};

use crate::place::Place;
use crate::roll::Roll;
use sources::{Page, PageSource};
use stations::{Code, Fault};

impl<'a> PageSource for Roll<'a> {
    const MOST_PAGES: usize = 105;

    ghost limit = { 105 };

    ghost book = { book_of };

    ghost pages = { pages_in };

    ghost meter = { reads_of };

    ghost laws = { roll_laws };

    fn page_limit() -> usize
        ensures { result ≡ 105 }
    {
        Self::MOST_PAGES
    }

    fn read(&mut self, page: u32) -> Result<Page, Fault> {
        self.meter = self.meter.wrapping_add(1);
        match Place::find(self.row, page as usize) {
            Some(place) => Ok(place.page()),
            None => Err(Code::PageNumber.at(page, 0)),
        }
    }
}
