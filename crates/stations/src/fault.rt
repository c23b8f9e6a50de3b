// Why a call refuses: a code by name, and two places.
ghost use Rattle.std.specs.Prelude.{◌≡◌, Some, decimal};
ghost use Rattle.stations.specs.Faults.{number_of, fault, placeless, fault_text};

use std::fmt;

// The codes in the order of their numbers, from 1. `docs/CODES.md` says when each is given and what its places are.
#[derive(Clone, Copy, PartialEq, Eq)]
pub enum Code {
    TextTooLong = 1,
    BadField,
    OutOfRange,
    TooManyStations,
    RepeatedNumber,
    ShortBuffer,
    BookLength,
    PageHeader,
    PageLevel,
    NamedPage,
    BoxOrder,
    StationNumber,
    OutsideBox,
    BandCount,
    RegionOrder,
    NoSearch,
    PageNumber,
    DeadPage,
    WaitingFull,
    ListFull,
}

// A refusal, as it passes up through every layer.
#[derive(Clone, Copy, PartialEq, Eq)]
pub struct Fault {
    pub code: Code,
    pub first: u32,
    pub second: u32,
}

impl Code {
    // The number that is printed for the code.
    pub fn number(self) -> u8
        ensures { result ≡ number_of self }
    {
        self as u8
    }

    // The refusal by this code that names two places.
    pub fn at(self, first: u32, second: u32) -> Fault
        ensures { result ≡ fault self first second }
    {
        Fault {
            code: self,
            first,
            second,
        }
    }
}

// A refusal whose code says it all names the places 0 and 0.
impl From<Code> for Fault {
    ghost from_gives = { λ code f. f ≡ placeless code };

    fn from(code: Code) -> Fault {
        code.at(0, 0)
    }
}

// The code is printed by its number.
impl fmt::Display for Code {
    ghost output = { λ code. Some (decimal (number_of code)) };

    fn fmt<W: fmt::Write>(&self, f: &mut fmt::Formatter<W>) -> fmt::Result {
        let number = self.number();
        write!(f, "{number}")
    }
}

// The code and the two places, as a refusal is written.
impl fmt::Display for Fault {
    ghost output = { λ f. Some (fault_text f) };

    fn fmt<W: fmt::Write>(&self, f: &mut fmt::Formatter<W>) -> fmt::Result {
        let Fault {
            code,
            first,
            second,
        } = self;
        write!(f, "{code},{first},{second}")
    }
}
