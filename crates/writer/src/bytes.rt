// Stations, named pages and pages in bytes, high byte first.
ghost use Rattle.std.specs.Prelude.{◌≡◌, ◌+◌, ◌≤◌, ◌++◌, length, take};
ghost use Rattle.arrayvec.specs.ArrayVec.{array_vec_len};
ghost use Rattle.writer.specs.Bytes.{measures_bytes, station_bytes, child_bytes, entry_bytes, filled, page_with};

use arrayvec::ArrayVec;
use books::{Child, Entry};
use sources::Page;
use stations::{Measures, Station};
use stored::{CHILD, PAGE, STATION};

fn measures_bytes(at: Measures) -> [u8; 8]
    ensures { result ≡ measures_bytes «at» }
{
    let [a, b] = at.m1.to_be_bytes();
    let [c, d] = at.m2.to_be_bytes();
    let [e, f] = at.m3.to_be_bytes();
    let [g, h] = at.m4.to_be_bytes();
    [a, b, c, d, e, f, g, h]
}

fn station_bytes(station: Station) -> [u8; STATION]
    ensures { result ≡ station_bytes station }
{
    let mut bytes = [0; STATION];
    bytes[..4].copy_from_slice(&station.number.to_be_bytes());
    bytes[4..].copy_from_slice(&measures_bytes(station.at));
    bytes
}

// The number of a named page goes into two bytes: a book has at most 256 pages.
fn child_bytes(child: Child) -> [u8; CHILD]
    ensures { result ≡ child_bytes child }
{
    let page = (child.page % 65536) as u16;
    let mut bytes = [0; CHILD];
    bytes[..2].copy_from_slice(&page.to_be_bytes());
    bytes[2..10].copy_from_slice(&measures_bytes(child.bounds.low));
    bytes[10..].copy_from_slice(&measures_bytes(child.bounds.high));
    bytes
}

// Puts an entry behind the bytes that a page has so far.
fn put_entry(bytes: &mut ArrayVec<u8, PAGE>, entry: Entry)
    requires { array_vec_len bytes.old + 18 ≤ 256 }
    ensures { bytes.new.items ≡ bytes.old.items ++ entry_bytes entry }
{
    match entry {
        Entry::Page(child) => bytes.try_extend_from_slice(&child_bytes(child)).unwrap(),
        Entry::Station(station) => bytes
            .try_extend_from_slice(&station_bytes(station))
            .unwrap(),
    }
}

// A page that begins with these bytes; those after them are 0.
fn filled(bytes: &[u8]) -> [u8; PAGE]
    requires { length bytes.now ≤ 256 }
    ensures { result ≡ filled bytes.now }
{
    let mut page = [0; PAGE];
    page[..bytes.len()].copy_from_slice(bytes);
    page
}

// The page in bytes: its level, how many entries it has, six zeros, the entries, and zeros.
pub(crate) fn encode(page: &Page) -> [u8; PAGE]
    ensures { result ≡ page_with page.now.level (take page.now.len page.now.entries) }
{
    let mut bytes = ArrayVec::new();
    bytes
        .try_extend_from_slice(&[page.level, page.len as u8, 0, 0, 0, 0, 0, 0])
        .unwrap();
    for entry in &page.entries[..page.len] {
        put_entry(&mut bytes, *entry);
    }
    filled(bytes.as_slice())
}
