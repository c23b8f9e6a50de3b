// Making a roll, and what it is asked beside its pages.
ghost use Rattle.std.specs.Prelude.{◌≡◌, []};
ghost use Rattle.stations.specs.Faults.{verdict};
ghost use Rattle.stations.specs.Rows.{row_fault};
ghost use Rattle.rolls.specs.Source.{row_in, pages_in, reads_of, taken};

use crate::levels::page_count;
use crate::measured::measure_all;
use crate::roll::Roll;
use stations::{Fault, Station, check_row};

const EMPTY_ROW: [Station; 0] = [];

impl<'a> Roll<'a> {
    // A roll of the empty row.
    pub fn new() -> Roll<'a>
        ensures row { row_in result ≡ [] }
        ensures meter { reads_of result ≡ 0 }
    {
        Roll {
            row: &EMPTY_ROW,
            meter: 0,
        }
    }

    // Takes another row, or refuses it, as `check_row` does, and keeps the former one. The meter goes on in either case.
    pub fn load(&mut self, row: &'a [Station]) -> Result<(), Fault>
        ensures answer { result ≡ verdict (row_fault row.now) }
        ensures row { row_in self.new ≡ taken (row_fault row.now) row.now (row_in self.old) }
        ensures meter { reads_of self.new ≡ reads_of self.old }
    {
        check_row(row)?;
        measure_all(row);
        self.row = row;
        Ok(())
    }

    // How many pages the book has.
    pub fn pages(&self) -> u32
        ensures { result ≡ pages_in self.now }
    {
        page_count(self.row.len()) as u32
    }

    // How many reads were asked of the roll, modulo 2^64.
    pub fn meter(&self) -> u64
        ensures { result ≡ reads_of self.now }
    {
        self.meter
    }
}
