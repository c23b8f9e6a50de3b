// The levels of a roll: how far their pages span, and how many pages they have.
ghost use Rattle.std.specs.Prelude.{◌≡◌, ◌≤◌};
ghost use Rattle.stations.specs.Rows.{most_stations};
ghost use Rattle.rolls.specs.Rolls.{span as span_of, pages_of, top_level, page_count};

const SPANS: [usize; 3] = [12, 144, 1728];

// The places of the row that a page of the level spans.
pub(crate) fn span(level: usize) -> usize
    requires { level ≤ 2 }
    ensures { result ≡ span_of level }
{
    SPANS[level]
}

// How many pages of the level a row of so many stations makes; an empty row still makes one.
pub(crate) fn pages_of(len: usize, level: usize) -> usize
    requires { level ≤ 2 }
    ensures { result ≡ pages_of len level }
{
    len.div_ceil(span(level)).max(1)
}

// The lowest level that has one page. Spelled out: a search over the levels would want a default that cannot come.
pub(crate) fn top_level(len: usize) -> usize
    ensures { result ≡ top_level len }
{
    if pages_of(len, 0) == 1 {
        0
    } else if pages_of(len, 1) == 1 {
        1
    } else {
        2
    }
}

// How many pages a row of so many stations makes.
pub(crate) fn page_count(len: usize) -> usize
    requires { len ≤ most_stations }
    ensures { result ≡ page_count len }
{
    (0..=top_level(len)).map(|level| pages_of(len, level)).sum()
}
