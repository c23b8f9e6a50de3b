// The calls of a run.
ghost use Rattle.std.specs.Prelude.{◌≡◌, ℕ, [], length};
ghost use Rattle.promises.specs.Histories.{started, nexted, stopped, nothing, handing, handed_in, phase_by};
ghost use Rattle.waiting.specs.Held.{held, listing};
ghost use Rattle.search.specs.Runs.{Unchanged};
ghost use Rattle.search.specs.Playing.{Drives};
ghost use Rattle.search.specs.Relation.{phase_of, pages_opened, Produces, Told, Adds};

use crate::run::{Phase, Run};
use rankings::Ranking;
use sources::PageSource;
use stations::{Code, Fault, Measures, Question, Region, Station};
use waiting::{Listed, Query, Queue};

// What the last reply of a search says of it.
impl From<Result<Option<Station>, Fault>> for Phase {
    ghost from_gives = { λ reply phase. phase ≡ phase_of (phase_by reply) };

    fn from(reply: Result<Option<Station>, Fault>) -> Phase {
        match reply {
            Ok(Some(_)) => Phase::Searching,
            Ok(None) => Phase::Done,
            Err(fault) => Phase::Halted(fault),
        }
    }
}

// Each call ties its own answer to the calls before it, whatever they were: so the history stands in the clauses, and no
// ghost field holds it.
impl<S: PageSource, R: Ranking> Run<S, R> {
    // A run with no search standing.
    pub fn new(source: S, ranking: R) -> Self
        ensures source { result.source ≡ source }
        ensures ranking { result.query.ranking ≡ ranking }
        ensures produces { (m : ℕ) → Produces S.book S.meter R.score (R.score ranking) (S.book source) [] nothing m result }
    {
        let at = Measures::default();
        let question = Question {
            k: 1,
            region: Region { low: at, high: at },
        };
        Run {
            source,
            query: Query { ranking, question },
            phase: Phase::None,
            waiting: Queue::new(),
            listed: Listed::new(),
            opened: 0,
        }
    }

    // Drops what was opened, what waits and what is listed. That source and ranking stay is said by each call that reads no
    // page: a field of a run cannot say what a call leaves.
    fn clear(&mut self, phase: Phase)
        ensures source { self.new.source ≡ self.old.source }
        ensures ranking { self.new.query.ranking ≡ self.old.query.ranking }
        ensures question { self.new.query.question ≡ self.old.query.question }
        ensures phase { self.new.phase ≡ phase }
        ensures none { (self.new.opened ≡ 0) × (length (held self.new.waiting) ≡ 0) × (length (listing self.new.listed) ≡ 0) }
    {
        self.waiting.used = 0;
        self.listed.len = 0;
        self.opened = 0;
        self.phase = phase;
    }

    // Begins a search with an empty list, and opens no page. A question that is refused leaves the search that stood.
    pub fn start(&mut self, question: Question) -> Result<(), Fault>
        ensures source { self.new.source ≡ self.old.source }
        ensures ranking { self.new.query.ranking ≡ self.old.query.ranking }
        ensures produces { Adds S.PageSource R.Ranking (started question result) self.old self.new }
    {
        question.check()?;
        self.clear(Phase::Searching);
        self.query.question = question;
        Ok(())
    }

    // The next station, or None once the search is done. A search that has halted gives the same refusal at every call, and reads no more.
    pub fn next(&mut self) -> Result<Option<Station>, Fault>
        ensures unchanged { Unchanged S.PageSource self.old self.new }
        ensures lists { listing self.new.listed ≡ handing (listing self.old.listed) (nexted result) }
        ensures produces { Adds S.PageSource R.Ranking (nexted result) self.old self.new }
    {
        match self.phase {
            Phase::None => Err(Code::NoSearch.into()),
            Phase::Done => Ok(None),
            Phase::Halted(fault) => Err(fault),
            Phase::Searching => {
                let reply = self.search();
                self.phase = reply.into();
                reply
            }
        }
    }

    // Ends the search that stands and empties the list.
    pub fn stop(&mut self) -> Result<(), Fault>
        ensures source { self.new.source ≡ self.old.source }
        ensures ranking { self.new.query.ranking ≡ self.old.query.ranking }
        ensures produces { Adds S.PageSource R.Ranking (stopped result) self.old self.new }
    {
        if let Phase::None = self.phase {
            return Err(Code::NoSearch.into());
        }
        self.clear(Phase::None);
        Ok(())
    }

    // How many pages were opened and how many stations handed out, for the search that stands.
    pub fn tally(&self) -> (usize, usize)
        ensures fields { (result.0 ≡ self.now.opened) × (result.1 ≡ length (listing self.now.listed)) }
        ensures produced { Told S.PageSource R.Ranking self.now (λ rank b h stands m. (result.0 ≡ length (pages_opened rank b stands)) × (result.1 ≡ length (handed_in [] h))) }
    {
        (self.opened, self.listed.len)
    }

    // The stations handed out for the search that stands, in that order.
    pub fn listed(&self) -> &[Station]
        ensures fields { result.now ≡ listing self.now.listed }
        ensures produced { Told S.PageSource R.Ranking self.now (λ rank b h stands m. result.now ≡ handed_in [] h) }
    {
        &self.listed.stations[..self.listed.len]
    }

    // Calls `next` until the search is done or refuses.
    pub fn drive(&mut self) -> Result<(), Fault>
        ensures unchanged { Unchanged S.PageSource self.old self.new }
        ensures driven { Drives S.PageSource R.Ranking self.old result self.new }
    {
        while self.next()?.is_some() {}
        Ok(())
    }
}
