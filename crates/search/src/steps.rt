// One page opened, and one turn of a search.
ghost use Rattle.std.specs.Prelude.{◌≡◌, ℕ, ◌+◌, ◌≤◌, length};
ghost use Rattle.promises.specs.Bounds.{Bound};
ghost use Rattle.promises.specs.Histories.{nexted, handing};
ghost use Rattle.waiting.specs.Held.{held, listing};
ghost use Rattle.waiting.specs.States.{Falls};
ghost use Rattle.search.specs.Runs.{Kept, left, said, listed_by, StandsAt, GoesOn, OpensTo, TurnsTo, RepliesWith};

use crate::run::{MOST_PAGES, Run};
use books::Entry;
use rankings::Ranking;
use sources::PageSource;
use stations::{Code, Fault, Station};
use std::ops::ControlFlow;

impl<S: PageSource, R: Ranking> Run<S, R> {
    // Opens a page. Nothing else reads the source.
    fn open(&mut self, page: u32) -> Result<(), Fault>
        ensures kept { Kept S.PageSource self.old self.new }
        ensures phase { self.new.phase ≡ self.old.phase }
        ensures listed { self.new.listed ≡ self.old.listed }
        ensures opens { OpensTo S.PageSource R.Ranking self.old page result self.new }
        ensures few { length (held self.new.waiting) ≤ length (held self.old.waiting) + 12 }
    {
        if self.opened >= MOST_PAGES {
            return Err(Code::PageNumber.at(page, 0));
        }
        self.opened += 1;
        let entries = self.source.read(page)?;
        let filled = self.waiting.fill(&self.query, &self.listed, &entries);
        filled.map_err(|_| Code::WaitingFull.at(page, 0))
    }

    // One turn: takes the least of what waits. It breaks with what `next` is to say; otherwise the search goes on.
    fn turn(&mut self) -> Result<ControlFlow<Option<Station>>, Fault>
        ensures kept { Kept S.PageSource self.old self.new }
        ensures phase { self.new.phase ≡ self.old.phase }
        ensures lists { listing self.new.listed ≡ listed_by (listing self.old.listed) (said result) }
        ensures falls { Falls (said result) (left self.old) (left self.new) }
        ensures turns { (u : Bound) → StandsAt S.PageSource R.Ranking u self.old → TurnsTo S.PageSource R.Ranking self.old (said result) self.new }
    {
        let Some(first) = self.waiting.pop() else {
            return Ok(ControlFlow::Break(None));
        };
        if !self.listed.passes(&self.query, first.entry) {
            return Ok(ControlFlow::Continue(()));
        }
        match first.entry {
            Entry::Page(child) => {
                self.open(child.page)?;
                Ok(ControlFlow::Continue(()))
            }
            Entry::Station(station) => {
                self.listed
                    .push(station)
                    .map_err(|_| Code::ListFull.at(station.number, 0))?;
                Ok(ControlFlow::Break(Some(station)))
            }
        }
    }

    // Turn after turn, to the next reply.
    fn reply(&mut self) -> Result<Option<Station>, Fault>
        ensures kept { Kept S.PageSource self.old self.new }
        ensures lists { listing self.new.listed ≡ handing (listing self.old.listed) (nexted result) }
        ensures gives { (u : Bound) → StandsAt S.PageSource R.Ranking u self.old → RepliesWith S.PageSource R.Ranking self.old result self.new }
    {
        loop {
            if let ControlFlow::Break(found) = self.turn()? {
                return Ok(found);
            }
        }
    }

    // Searches on to the next reply. The top is opened first.
    pub(crate) fn search(&mut self) -> Result<Option<Station>, Fault>
        ensures kept { Kept S.PageSource self.old self.new }
        ensures lists { listing self.new.listed ≡ handing (listing self.old.listed) (nexted result) }
        ensures gives { GoesOn S.PageSource R.Ranking self.old → RepliesWith S.PageSource R.Ranking self.old result self.new }
    {
        if self.opened == 0 {
            self.open(0)?;
        }
        self.reply()
    }
}
