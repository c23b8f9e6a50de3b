ghost use Rattle.std.specs.Prelude.{◌≡◌, [], ◌∷◌, is_ok, if◌then◌else◌, Decides};
ghost use Rattle.stations.specs.Faults.{verdict};
ghost use Rattle.books.specs.Books.{leaf};
ghost use Rattle.stored.specs.Loading.{load_fault, loads, spelled_book, page_count};
ghost use Rattle.stored.specs.Soundness.{Sound};
ghost use Rattle.stored.specs.Meaning.{book_of, pages_of, meter_of};

use crate::layout::{MOST_PAGES, PAGE};
use crate::stored::Stored;
use crate::walk::{check_length, check_pages};
use stations::Fault;

// A page of level 0 without entries.
const EMPTY_PAGE: [u8; PAGE] = [0; PAGE];

impl<'a> Stored<'a> {
    // The book of one page of level 0 without entries.
    #[tactic(auto, unfolding(crate::specs::Loading::spelled_book))]
    pub fn new() -> Stored<'a>
        ensures book { book_of result ≡ leaf [] ∷ [] }
        ensures pages { pages_of result ≡ 1 }
        ensures meter { meter_of result ≡ 0 }
    {
        let mut live = [false; MOST_PAGES];
        live[0] = true;
        Stored {
            bytes: &EMPTY_PAGE,
            live,
            meter: 0,
        }
    }

    // Takes another book, or refuses it and keeps the former one. The meter goes on in either case.
    #[tactic(auto, unfolding(crate::specs::Loading::load_fault))]
    pub fn load(&mut self, bytes: &'a [u8]) -> Result<(), Fault>
        ensures answer { result ≡ verdict (load_fault bytes.now) }
        ensures sound { Decides (is_ok result) (Sound bytes.now) }
        ensures book { book_of self.new ≡ (if loads bytes.now then spelled_book bytes.now else book_of self.old) }
        ensures pages { pages_of self.new ≡ (if loads bytes.now then page_count bytes.now else pages_of self.old) }
        ensures meter { meter_of self.new ≡ meter_of self.old }
    {
        check_length(bytes)?;
        let mut live = [false; MOST_PAGES];
        check_pages(bytes, &mut live)?;
        self.bytes = bytes;
        self.live = live;
        Ok(())
    }
}
