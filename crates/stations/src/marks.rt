// Tables of marks, which say at once of most numbers that they have not come yet.
ghost use Rattle.std.specs.Prelude.{◌≡◌, ℕ, false, ◌||◌};
ghost use Rattle.stations.specs.Marks.{low_of, high_of, is_low, is_high, is_marked, same_low, same_high};

// The slots of a table. Numbers that share one share its mark.
const SLOTS: usize = 16_384;

// The low part of a number, and the part above it.
fn low_of(number: u32) -> usize
    ensures { result ≡ low_of number }
{
    number as usize % SLOTS
}

fn high_of(number: u32) -> usize
    ensures { result ≡ high_of number }
{
    number as usize / SLOTS % SLOTS
}

// A table for the low parts and one for the parts above them: numbers at random, in turn or far apart seldom share both.
#[derive(Drop)]
pub struct Marks {
    lows: [bool; SLOTS],
    highs: [bool; SLOTS],
}

impl Marks {
    pub fn new() -> Marks
        ensures lows { (n : ℕ) → is_low result n ≡ false }
        ensures highs { (n : ℕ) → is_high result n ≡ false }
    {
        Marks {
            lows: [false; SLOTS],
            highs: [false; SLOTS],
        }
    }

    pub fn mark(&mut self, number: u32)
        ensures lows { (n : ℕ) → is_low self.new n ≡ (same_low number n || is_low self.old n) }
        ensures highs { (n : ℕ) → is_high self.new n ≡ (same_high number n || is_high self.old n) }
    {
        let low = low_of(number);
        let high = high_of(number);
        self.lows[low] = true;
        self.highs[high] = true;
    }

    // No marked number is missed; a number that was never marked may share the slots of some that were.
    pub fn may_hold(&self, number: u32) -> bool
        ensures { result ≡ is_marked self.now number }
    {
        self.lows[low_of(number)] && self.highs[high_of(number)]
    }
}
