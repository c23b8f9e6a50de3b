#![tactic(auto)]
// Compares the search with the plain scan, over rolls and over stored books with dead pages, and prints how the searches ended.
use crate::dice::{ANYWHERE, Dice, Spread};
use crate::ended::{Counts, Ended};
use crate::pages::{book_in, roll_of, stored_bytes};
use crate::rule::{Asked, Seen};
use anyhow::anyhow;
use rankings::{Ranker, WeightedSum, Weights};
use scans::scan;
use sources::PageSource;
use stations::{Question, Station};
use std::alloc::Global;

mod dice;
mod ended;
mod pages;
mod rule;

// One search: the source twice, to be searched and to be looked at whole.
fn compare_source<S: PageSource + Drop>(
    heap: Global,
    searched: S,
    seen: S,
    asked: Asked,
    answer: &[Station],
    counts: &mut Counts,
) -> anyhow::Result<()> {
    let ended = Ended::of(heap, searched, asked)?;
    let by_rule = Seen::of(heap, seen)?.pages_by_rule(asked, ended.fault);
    let right = ended.begins(answer) && ended.pages == by_rule;
    counts.note(&ended, right);
    Ok(())
}

// What is compared: random numbers, and how the searches over rolls and over stored books ended.
#[derive(Drop)]
struct Comparison {
    heap: Global,
    dice: Dice,
    rolls: Counts,
    books: Counts,
}

impl Comparison {
    // One row and one question: over the roll, and over the stored book with some pages dead.
    fn compare_row(&mut self, row: &[Station], asked: Asked) -> anyhow::Result<()> {
        let heap = self.heap;
        let mut answer = row.to_vec(heap)?;
        let Ok(found) = scan(row, asked.question, &asked.ranking, answer.as_mut_slice()) else {
            return Err(anyhow!("the list of the scan is too short"));
        };
        answer.truncate(found);
        let answer = answer.as_slice();
        compare_source(
            heap,
            roll_of(row)?,
            roll_of(row)?,
            asked,
            answer,
            &mut self.rolls,
        )?;
        let deaths = self.dice.below(4);
        let bytes = stored_bytes(heap, &mut self.dice, row, deaths)?;
        let bytes = bytes.as_slice();
        compare_source(
            heap,
            book_in(bytes)?,
            book_in(bytes)?,
            asked,
            answer,
            &mut self.books,
        )
    }

    fn compare_one(&mut self, count: usize) -> anyhow::Result<()> {
        let spread = self.dice.spread();
        let row = self.dice.row(self.heap, count, spread)?;
        let question = self.dice.question(spread);
        let ranking = self.dice.ranking()?;
        self.compare_row(row.as_slice(), Asked { ranking, question })
    }

    // A full row of which no station beats another, ranked by the measure that it rises by: the list is full before all are handed out.
    fn compare_full(&mut self) -> anyhow::Result<()> {
        let row = self.dice.row(self.heap, 1152, Spread::Rising)?;
        let question = Question {
            k: 1,
            region: ANYWHERE,
        };
        let Ok(weights) = Weights::new(1, 0, 0, 0) else {
            return Err(anyhow!("a weight is too large"));
        };
        let ranking = Ranker::Sum(WeightedSum { weights });
        self.compare_row(row.as_slice(), Asked { ranking, question })
    }
}

fn main(rt: HostRuntime) -> anyhow::Result<()> {
    let mut comparison = Comparison {
        heap: rt.alloc(),
        dice: Dice { state: 20_261_117 },
        rolls: Counts::default(),
        books: Counts::default(),
    };
    for i in 0..600u32 {
        let count = if i % 30 == 0 {
            1152
        } else {
            comparison.dice.below(200) as usize
        };
        comparison.compare_one(count)?;
    }
    for _ in 0..4 {
        comparison.compare_full()?;
    }
    let Comparison { rolls, books, .. } = comparison;
    println!(rt; "rolls: {rolls}")?;
    println!(rt; "stored books: {books}")?;
    Ok(())
}
