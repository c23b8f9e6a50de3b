// Weights and the rankings that are made of them.
ghost use Rattle.std.specs.Prelude.{◌≡◌, ◌≤◌};

// One weight for each measure, 0 to 1,000.
#[derive(Clone, Copy)]
pub struct Weights {
    pub w1: u16,
    pub w2: u16,
    pub w3: u16,
    pub w4: u16,
    ghost small: { (w1 ≤ 1000) × (w2 ≤ 1000) × (w3 ≤ 1000) × (w4 ≤ 1000) },
}

// S: the four products of weight and measure, added.
#[derive(Clone, Copy)]
pub struct WeightedSum {
    pub weights: Weights,
}

// W: the largest of the four products.
#[derive(Clone, Copy)]
pub struct LargestProduct {
    pub weights: Weights,
}

// Either ranking, as a log names it.
#[derive(Clone, Copy)]
pub enum Ranker {
    Sum(WeightedSum),
    Largest(LargestProduct),
}
