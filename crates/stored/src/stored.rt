ghost use Rattle.std.specs.Prelude.{◌≡◌, ◌^◌, ◌<◌, ◌≤◌, length, take};
ghost use Rattle.books.specs.Books.{Lawful};
ghost use Rattle.stored.specs.Loading.{spelled_book, page_count, marks};

use crate::layout::MOST_PAGES;

// A book in bytes that were checked and stay lent, with a mark for each page that can be read.
#[derive(Drop)]
pub struct Stored<'a> {
    pub(crate) bytes: &'a [u8],
    // Looked up by page number: a table with a mark for each page that a book could have.
    pub(crate) live: [bool; MOST_PAGES],
    pub(crate) meter: u64,
    ghost some: { 1 ≤ page_count bytes.now },
    ghost fits: { page_count bytes.now ≤ 256 },
    ghost sized: { length (spelled_book bytes.now) ≡ page_count bytes.now },
    ghost lawful: { ∥ Lawful (spelled_book bytes.now) ∥₁ },
    ghost marked: { take (page_count bytes.now) live ≡ marks (spelled_book bytes.now) },
    ghost metered: { meter < 2 ^ 64 },
}
