#![tactic(auto)]
// Page sources: where a search gets its pages from, by what they mean.
ghost use Rattle.std.specs.Prelude.{◌≡◌, ℕ, ◌+◌, ◌%◌, ◌^◌};
ghost use Rattle.books.specs.Books.{Book};
ghost use Rattle.sources.specs.Sources.{SourceLaws, Reads};

use stations::Fault;

mod page;

pub use page::{MOST_ENTRIES, Page};

// A source means a lawful book, a page count and a meter of the reads that were asked of it.
pub trait PageSource {
    // The most pages that this kind of source can hold; `limit` says it to clauses, and `page_limit` that the two are one.
    // Tried without: a constant that clauses name gets no proof in an impl with a lifetime.
    const MOST_PAGES: usize;

    ghost limit: { ℕ };

    ghost book: { Self → Book };

    ghost pages: { Self → ℕ };

    ghost meter: { Self → ℕ };

    ghost laws: { SourceLaws Self limit book pages meter };

    fn page_limit() -> usize
        ensures { result ≡ limit };

    // Reads a page. The meter moves also when the read is refused, and nothing else of the meaning changes.
    fn read(&mut self, page: u32) -> Result<Page, Fault>
        ensures answer { Reads (book self.old) (pages self.old) page result }
        ensures metered { meter self.new ≡ (meter self.old + 1) % 2 ^ 64 }
        ensures same { book self.new ≡ book self.old }
        ensures counted { pages self.new ≡ pages self.old };
}
