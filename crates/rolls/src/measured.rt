// What its type says of a measure, made known of a whole row.
ghost use Rattle.std.specs.List.{AllByRecursion as Each};
ghost use Rattle.stations.specs.Beating.{Ordinary};

use stations::{Measures, Station};

// Measures of 16 bits are at most 65,535.
fn measure(at: Measures)
    ensures { Ordinary «at» }
{}

// Does nothing: a row's measures are known to fit only where each is taken in hand.
pub(crate) fn measure_all(row: &[Station])
    ensures { Each (λ s. Ordinary s.at) row.now }
{
    for s in row {
        measure(s.at);
    }
}
