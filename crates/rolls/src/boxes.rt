// The least box around stations.
ghost use Rattle.std.specs.Prelude.{◌≡◌};
ghost use Rattle.rolls.specs.Boxes.{widen as widened, around as least_around};

use stations::{Measures, Region, Station};

// Widens a box just so far that it holds the measures.
fn widen(bounds: Region, at: Measures) -> Region
    ensures { result ≡ widened bounds «at» }
{
    Region {
        low: bounds.low.min(at),
        high: bounds.high.max(at),
    }
}

// Around no stations there is no box; then it is the box at the corner.
pub(crate) fn around(stations: &[Station]) -> Region
    ensures { result ≡ least_around stations.now }
{
    let Some((first, others)) = stations.split_first() else {
        return Region::default();
    };
    let at = first.at;
    others.iter().fold(
        Region { low: at, high: at },
        |bounds, s| widen(bounds, s.at),
    )
}
