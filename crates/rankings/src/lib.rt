#![tactic(auto)]
// Rankings: what a station's measures are worth, as one number. Small is good.
ghost use Rattle.std.specs.Prelude.{◌≡◌, ℕ, ◌*◌, ◌^◌, ◌<◌, ◌≤◌, MatchResult};
ghost use Rattle.std.specs.List.{AllByRecursion as Each};
ghost use Rattle.stations.specs.declared.measures.Measures.{Measures};
ghost use Rattle.stations.specs.Beating.{Ordinary, ◌≼◌};
ghost use Rattle.stations.specs.Faults.{placeless};
ghost use Rattle.stations.specs.declared.fault.Code.TheVariants.{OutOfRange};
ghost use Rattle.rankings.specs.Scores.{products, weighted_sum, largest_product, ranker_score, TooHeavy, Weighs};
ghost use Rattle.rankings.specs.ScoresLemmas.{sum_rises, sum_below, largest_rises, largest_below, ranker_rises, ranker-below};

use stations::{Code, Fault, Measures};

mod weights;

pub use weights::{LargestProduct, Ranker, WeightedSum, Weights};

// The largest weight.
pub const MOST_WEIGHT: u16 = 1000;

impl Weights {
    // Refuses a weight above 1,000.
    pub fn new(w1: u16, w2: u16, w3: u16, w4: u16) -> Result<Weights, Fault>
        ensures { MatchResult result (λ w. Weighs w w1 w2 w3 w4) (λ f. (f ≡ placeless OutOfRange) × TooHeavy w1 w2 w3 w4) }
    {
        if w1 > MOST_WEIGHT || w2 > MOST_WEIGHT || w3 > MOST_WEIGHT || w4 > MOST_WEIGHT {
            return Err(Code::OutOfRange.into());
        }
        Ok(Weights { w1, w2, w3, w4 })
    }

    // Each weight times its measure.
    fn products(self, at: Measures) -> [u64; 4]
        ensures value { result ≡ products self «at» }
        ensures bound { Each (λ n. n ≤ 65535000) result }
    {
        [
            product(self.w1, at.m1),
            product(self.w2, at.m2),
            product(self.w3, at.m3),
            product(self.w4, at.m4),
        ]
    }
}

// What a ranking means is a function of four measures. Its law is that it never falls where no measure falls.
pub trait Ranking {
    ghost score: { Self → Measures → ℕ };

    fn rank(&self, at: Measures) -> u64
        ensures { result ≡ score self.now «at» };

    ghost monotone: { (s : Self) (p q : Measures) → p ≼ q → score s p ≤ score s q };

    ghost bounded: { (s : Self) (p : Measures) → Ordinary p → score s p < 2 ^ 64 };
}

fn product(weight: u16, measure: u16) -> u64
    requires { weight ≤ 1000 }
    ensures value { result ≡ weight * measure }
    ensures bound { result ≤ 65535000 }
{
    weight as u64 * measure as u64
}

impl Ranking for WeightedSum {
    ghost score = { λ s p. weighted_sum s.weights p };

    ghost monotone = { λ s p q h. sum_rises s.weights p q h };

    ghost bounded = { λ s p h. sum_below s.weights p h };

    fn rank(&self, at: Measures) -> u64 {
        let [first, second, third, fourth] = self.weights.products(at);
        first + second + third + fourth
    }
}

impl Ranking for LargestProduct {
    ghost score = { λ s p. largest_product s.weights p };

    ghost monotone = { λ s p q h. largest_rises s.weights p q h };

    ghost bounded = { λ s p h. largest_below s.weights p h };

    fn rank(&self, at: Measures) -> u64 {
        let [first, second, third, fourth] = self.weights.products(at);
        first.max(second).max(third.max(fourth))
    }
}

impl Ranking for Ranker {
    ghost score = { ranker_score };

    ghost monotone = { ranker_rises };

    ghost bounded = { ranker-below };

    fn rank(&self, at: Measures) -> u64 {
        match self {
            Ranker::Sum(sum) => sum.rank(at),
            Ranker::Largest(largest) => largest.rank(at),
        }
    }
}

// A ranking that is lent ranks as it does.
impl<'a, R: Ranking> Ranking for &'a R {
    ghost score = { λ r p. R.score r.now p };

    ghost monotone = { λ r p q h. R.monotone r.now p q h };

    ghost bounded = { λ r p h. R.bounded r.now p h };

    fn rank(&self, at: Measures) -> u64 {
        (**self).rank(at)
    }
}
