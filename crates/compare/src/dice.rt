// Numbers that look random, the same in every run, and what is made of them.
use anyhow::anyhow;
use rankings::{LargestProduct, Ranker, WeightedSum, Weights};
use stations::{Measures, Question, Region, Station};
use std::alloc::Global;

// The box of all measures.
pub(crate) const ANYWHERE: Region = Region {
    low: Measures {
        m1: 0,
        m2: 0,
        m3: 0,
        m4: 0,
    },
    high: Measures {
        m1: 65_535,
        m2: 65_535,
        m3: 65_535,
        m4: 65_535,
    },
};

// How the measures of a row lie.
#[derive(Clone, Copy, PartialEq, Eq)]
pub(crate) enum Spread {
    Wide,
    // So close together that many tie.
    Close,
    // One measure traded for another, at random.
    Traded,
    // The same in row order.
    Rising,
    // Alike in all measures.
    Alike,
}

#[derive(Drop)]
pub(crate) struct Dice {
    pub(crate) state: u64,
}

impl Dice {
    // A number below the limit, or 0.
    pub(crate) fn below(&mut self, limit: u32) -> u32 {
        self.state = self
            .state
            .wrapping_mul(6_364_136_223_846_793_005)
            .wrapping_add(1_442_695_040_888_963_407);
        let high = (self.state >> 33) as u32;
        if limit == 0 { 0 } else { high % limit }
    }

    fn measure(&mut self, limit: u32) -> u16 {
        (self.below(limit) & 0xffff) as u16
    }

    pub(crate) fn spread(&mut self) -> Spread {
        match self.below(5) {
            0 => Spread::Wide,
            1 => Spread::Close,
            2 => Spread::Traded,
            3 => Spread::Rising,
            _ => Spread::Alike,
        }
    }

    // The measures of the station at a place of the row.
    fn measures(&mut self, place: usize, spread: Spread) -> Measures {
        match spread {
            Spread::Wide => Measures {
                m1: self.measure(65_536),
                m2: self.measure(65_536),
                m3: self.measure(65_536),
                m4: self.measure(65_536),
            },
            Spread::Close => Measures {
                m1: self.measure(4),
                m2: self.measure(4),
                m3: self.measure(3),
                m4: self.measure(2),
            },
            Spread::Traded => {
                let m = self.measure(60_000);
                Measures {
                    m1: m,
                    m2: 60_000 - m.min(60_000),
                    m3: self.measure(9),
                    m4: self.measure(9),
                }
            }
            Spread::Rising => {
                let m = (place % 1152 * 50) as u16;
                Measures {
                    m1: m,
                    m2: 60_000 - m.min(60_000),
                    m3: 0,
                    m4: 0,
                }
            }
            Spread::Alike => {
                let m = self.measure(50_000);
                Measures {
                    m1: m,
                    m2: m.saturating_add(self.measure(900)),
                    m3: m.saturating_add(self.measure(900)),
                    m4: m.saturating_add(self.measure(900)),
                }
            }
        }
    }

    pub(crate) fn row(
        &mut self,
        heap: Global,
        count: usize,
        spread: Spread,
    ) -> anyhow::Result<Vec<Station>> {
        let mut row = Vec::new(heap);
        for place in 0..count {
            let number = (place as u64 % 65_536) as u32 + 1;
            let at = self.measures(place, spread);
            row.push(Station { number, at })?;
        }
        Ok(row)
    }

    pub(crate) fn question(&mut self, spread: Spread) -> Question {
        let k = self.measure(8).min(7) + 1;
        if self.below(2) == 0 {
            return Question {
                k,
                region: ANYWHERE,
            };
        }
        let top = if spread == Spread::Close { 4 } else { 60_000 };
        let low = Measures {
            m1: self.measure(top),
            m2: self.measure(top) / 2,
            m3: 0,
            m4: 0,
        };
        Question {
            k,
            region: Region { low, ..ANYWHERE },
        }
    }

    pub(crate) fn ranking(&mut self) -> anyhow::Result<Ranker> {
        let top = if self.below(4) == 0 { 1 } else { 1_001 };
        let Ok(weights) = Weights::new(
            self.measure(top),
            self.measure(top),
            self.measure(top),
            self.measure(top),
        ) else {
            return Err(anyhow!("a weight is too large"));
        };
        if self.below(2) == 0 {
            return Ok(Ranker::Sum(WeightedSum { weights }));
        }
        Ok(Ranker::Largest(LargestProduct { weights }))
    }
}
