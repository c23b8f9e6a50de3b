ghost use Rattle.std.specs.Prelude.{◌≡◌};
ghost use Rattle.printing.specs.Reports.{length_of, is_complete};

use stations::Fault;

// How many bytes were printed, and the refusal in which the listing ends, if it is not complete.
#[derive(Clone, Copy, PartialEq, Eq)]
pub struct Report {
    pub len: usize,
    pub refusal: Option<Fault>,
}

impl Report {
    pub fn len(self) -> usize
        ensures { result ≡ length_of self }
    {
        self.len
    }

    // Nothing was refused.
    pub fn is_done(self) -> bool
        ensures { result ≡ is_complete self }
    {
        self.refusal.is_none()
    }
}
