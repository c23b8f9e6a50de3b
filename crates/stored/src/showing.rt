// A live page of the bytes, as a source gives it.
ghost use Rattle.std.specs.Prelude.{◌≡◌, ◌≤◌, take};
ghost use Rattle.sources.specs.Sources.{Shows};
ghost use Rattle.stored.specs.Layout.{count_byte, live};
ghost use Rattle.stored.specs.Showing.{entries_at};

use crate::layout::{CHILD, PAGE, STATION, child_of, count, entries, level, station_of};
use books::Entry;
use sources::{MOST_ENTRIES, Page};

pub(crate) fn page_at(page: &[u8; PAGE]) -> Page
    requires { count_byte page.now ≤ 12 }
    ensures shows { Shows (live page.now) result }
    ensures by_place { take result.len result.entries ≡ entries_at page.now (count_byte page.now) }
{
    let level = level(page);
    // The two loops differ in what they read; one function for both would take a closure and be longer. Entries are put by place:
    // a proof does not know what a walk zipped with `iter_mut` leaves.
    let mut shown = [Entry::default(); MOST_ENTRIES];
    if level == 0 {
        for (place, bytes) in entries::<STATION>(page).iter().enumerate() {
            shown[place] = Entry::Station(station_of(bytes));
        }
    } else {
        for (place, bytes) in entries::<CHILD>(page).iter().enumerate() {
            shown[place] = Entry::Page(child_of(bytes));
        }
    }
    Page {
        level,
        len: count(page),
        entries: shown,
    }
}
