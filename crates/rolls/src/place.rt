// Where a page of a roll stands.
ghost use Rattle.std.specs.Prelude.{◌<◌, ◌≤◌, length, MatchOption};
ghost use Rattle.stations.specs.Rows.{most_stations};
ghost use Rattle.rolls.specs.Rolls.{pages_of, top_level, page_count};

use crate::levels::{pages_of, top_level};
use stations::Station;

// The page's level, its index there, and the number of the first page of the level below.
#[derive(Clone, Copy)]
pub(crate) struct Place<'a> {
    pub(crate) row: &'a [Station],
    pub(crate) level: usize,
    pub(crate) index: usize,
    pub(crate) below: usize,
    ghost few: { length row.now ≤ most_stations },
    ghost low: { level ≤ top_level (length row.now) },
    ghost there: { index < pages_of (length row.now) level },
    ghost near: { below ≤ page_count (length row.now) },
}

impl<'a> Place<'a> {
    ghost use Rattle.rolls.specs.Places.{Stands};

    // Finds a page of the row's roll by its number, from the top level down.
    pub(crate) fn find(row: &'a [Station], page: usize) -> Option<Place<'a>>
        requires { length row.now ≤ most_stations }
        ensures { MatchOption result (page_count (length row.now) ≤ page) (Stands row.now page) }
    {
        let mut first = 0;
        for level in (0..top_level(row.len()) + 1).rev() {
            let below = first + pages_of(row.len(), level);
            if page < below {
                return Some(Place {
                    row,
                    level,
                    index: page - first,
                    below,
                });
            }
            first = below;
        }
        None
    }
}
