ghost use Rattle.std.specs.Prelude.{◌≡◌};
ghost use Rattle.stations.specs.Faults.{verdict};
ghost use Rattle.stations.specs.Questions.{question_fault};

use crate::fault::{Code, Fault};
use crate::region::Region;

// What is asked: the stations in the region that fewer than k others there beat.
#[derive(Clone, Copy, PartialEq, Eq)]
pub struct Question {
    pub k: u16,
    pub region: Region,
}

impl Question {
    // Refuses a k that is not from 1 to 8, and then a region with a low above its high.
    pub fn check(self) -> Result<(), Fault>
        ensures { result ≡ verdict (question_fault self) }
    {
        if self.k < 1 || self.k > 8 {
            return Err(Code::BandCount.into());
        }
        if !self.region.is_ordered() {
            return Err(Code::RegionOrder.into());
        }
        Ok(())
    }
}
