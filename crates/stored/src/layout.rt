// Pages, stations and named pages in bytes, high byte first.
ghost use Rattle.std.specs.Prelude.{◌≡◌, ◌+◌, ◌*◌, ◌<◌, ◌≤◌, length};
ghost use Rattle.stored.specs.Layout.{short_at, measures_at, station_at, child_at, level_byte, count_byte, entry_bytes};

use books::Child;
use stations::{Measures, Region, Station};

// The bytes of a page.
pub const PAGE: usize = 256;

// The most pages of a book.
pub(crate) const MOST_PAGES: usize = 256;

// Where the entries of a page begin.
pub(crate) const ENTRIES: usize = 8;

// The bytes of a station, and of a named page.
pub const STATION: usize = 12;

pub const CHILD: usize = 18;

// The level of a dead page.
pub const DEAD: u8 = 255;

fn short_at(bytes: &[u8], i: usize) -> u16
    requires { i + 2 ≤ length bytes.now }
    ensures { result ≡ short_at bytes.now i }
{
    u16::from_be_bytes([bytes[i], bytes[i + 1]])
}

fn measures_at(bytes: &[u8], i: usize) -> Measures
    requires { i + 8 ≤ length bytes.now }
    ensures { result ≡ measures_at bytes.now i }
{
    Measures {
        m1: short_at(bytes, i),
        m2: short_at(bytes, i + 2),
        m3: short_at(bytes, i + 4),
        m4: short_at(bytes, i + 6),
    }
}

pub(crate) fn station_of(bytes: &[u8; STATION]) -> Station
    ensures { result ≡ station_at bytes.now 0 }
{
    Station {
        number: u32::from_be_bytes([bytes[0], bytes[1], bytes[2], bytes[3]]),
        at: measures_at(bytes, 4),
    }
}

pub(crate) fn child_of(bytes: &[u8; CHILD]) -> Child
    ensures { result ≡ child_at bytes.now 0 }
{
    Child {
        page: short_at(bytes, 0) as u32,
        bounds: Region {
            low: measures_at(bytes, 2),
            high: measures_at(bytes, 10),
        },
    }
}

// The first byte of a page: its level, or the mark of a dead page.
pub(crate) fn level(page: &[u8; PAGE]) -> u8
    ensures { result ≡ level_byte page.now }
{
    page[0]
}

// The second byte of a page: how many entries it has.
pub(crate) fn count(page: &[u8; PAGE]) -> usize
    ensures { result ≡ count_byte page.now }
{
    page[1] as usize
}

// The entries of a page, of N bytes each.
pub(crate) fn entries<const N: usize>(page: &[u8; PAGE]) -> &[[u8; N]]
    requires some { 0 < N }
    requires fit { 8 + N * count_byte page.now ≤ 256 }
    ensures value { result.now ≡ entry_bytes N page.now }
    ensures len { length result.now ≡ count_byte page.now }
{
    let (chunks, _) = page[ENTRIES..].as_chunks::<N>();
    &chunks[..count(page)]
}
