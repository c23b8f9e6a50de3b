// Four measures of a station. Small is good; 65,535 is an ordinary value, the worst.
ghost use Rattle.std.specs.Prelude.{◌≡◌, ◌+◌, ◌-◌, min, max};
ghost use Rattle.stations.specs.Beating.{at_most, smaller, beats, sum, both};

#[derive(Clone, Copy, PartialEq, Eq, Default)]
pub struct Measures {
    pub m1: u16,
    pub m2: u16,
    pub m3: u16,
    pub m4: u16,
}

impl Measures {
    // By how much the measures exceed the other's, all together.
    fn excess(self, other: Measures) -> u32
        ensures { result ≡ (self.m1 - other.m1) + (self.m2 - other.m2) + (self.m3 - other.m3) + (self.m4 - other.m4) }
    {
        self.m1.saturating_sub(other.m1) as u32
            + self.m2.saturating_sub(other.m2) as u32
            + self.m3.saturating_sub(other.m3) as u32
            + self.m4.saturating_sub(other.m4) as u32
    }

    // No measure is larger than the other's. One number decides and not four: which of the four would is seldom foreseen,
    // and stations are compared by the hundred thousand.
    pub fn at_most(self, other: Measures) -> bool
        ensures { result ≡ at_most self other }
    {
        self.excess(other) == 0
    }

    // Some measure is smaller than the other's.
    fn is_smaller(self, other: Measures) -> bool
        ensures { result ≡ smaller self other }
    {
        (self.m1 < other.m1) | (self.m2 < other.m2) | (self.m3 < other.m3) | (self.m4 < other.m4)
    }

    // Without the strict part two equal stations would beat each other.
    pub fn beats(self, other: Measures) -> bool
        ensures { result ≡ beats self other }
    {
        self.at_most(other) && self.is_smaller(other)
    }

    pub fn sum(self) -> u32
        ensures { result ≡ sum self }
    {
        self.m1 as u32 + self.m2 as u32 + self.m3 as u32 + self.m4 as u32
    }

    // Measure by measure, by a function of two.
    fn both<F: Fn(u16, u16) -> u16>(self, other: Measures, f: F) -> Measures
        requires { F.IsAlwaysCallable f }
        ensures m1 { F.post f self.m1 other.m1 result.m1 }
        ensures m2 { F.post f self.m2 other.m2 result.m2 }
        ensures m3 { F.post f self.m3 other.m3 result.m3 }
        ensures m4 { F.post f self.m4 other.m4 result.m4 }
    {
        Measures {
            m1: f(self.m1, other.m1),
            m2: f(self.m2, other.m2),
            m3: f(self.m3, other.m3),
            m4: f(self.m4, other.m4),
        }
    }

    // The smaller of each two measures.
    pub fn min(self, other: Measures) -> Measures
        ensures { result ≡ both min self other }
    {
        self.both(other, |a, b| a.min(b))
    }

    // The larger of each two measures.
    pub fn max(self, other: Measures) -> Measures
        ensures { result ≡ both max self other }
    {
        self.both(other, |a, b| a.max(b))
    }
}
