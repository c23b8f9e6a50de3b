#![tactic(auto)]
// The words of the subject: measures, stations, regions, questions, keys and faults.
mod fault;
mod key;
mod marks;
mod measures;
mod question;
mod region;
mod row;
mod station;

pub use fault::{Code, Fault};
pub use key::{Key, Kind};
pub use marks::Marks;
pub use measures::Measures;
pub use question::Question;
pub use region::Region;
pub use row::{MOST_STATIONS, check_row};
pub use station::Station;
