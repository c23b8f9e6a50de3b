// How searches end.
use crate::rule::Asked;
use search::Run;
use sources::PageSource;
use stations::{Code, Fault, Station};
use std::alloc::Global;
use std::fmt;

// How a search ended, and what it had come to by then.
#[derive(Drop)]
pub(crate) struct Ended {
    listed: Vec<Station>,
    pub(crate) fault: Option<Fault>,
    pub(crate) pages: usize,
    handed: usize,
}

impl Ended {
    // Starts the question and calls next until it says done or refuses: by hand and not by the library's `drive`, so that
    // each answer is seen.
    pub(crate) fn of<S: PageSource + Drop>(
        heap: Global,
        source: S,
        asked: Asked,
    ) -> anyhow::Result<Ended> {
        // A ranking that is lent will do.
        let mut run = Run::new(source, &asked.ranking);
        let mut listed = Vec::new(heap);
        let mut fault = run.start(asked.question).err();
        // More calls than a list has places.
        for _ in 0..600 {
            match run.next() {
                Ok(Some(station)) => listed.push(station)?,
                Ok(None) => break,
                Err(f) => {
                    fault = Some(f);
                    break;
                }
            }
        }
        let (pages, handed) = run.tally();
        Ok(Ended {
            listed,
            fault,
            pages,
            handed,
        })
    }

    // What was handed out begins the answer over the whole row, and is it after done.
    pub(crate) fn begins(&self, answer: &[Station]) -> bool {
        self.listed.len() == self.handed
            && answer.starts_with(self.listed.as_slice())
            && (self.fault.is_some() || self.listed.len() == answer.len())
    }
}

// How many searches ended in each way, and how many disagreed with the scan or with the rule.
#[derive(Default, Drop)]
pub(crate) struct Counts {
    done: u32,
    dead: u32,
    crowded: u32,
    full: u32,
    wrong: u32,
    opened: usize,
}

impl Counts {
    pub(crate) fn note(&mut self, ended: &Ended, right: bool) {
        self.opened = self.opened.saturating_add(ended.pages);
        let counted = match ended.fault.map(|fault| fault.code) {
            None => &mut self.done,
            Some(Code::DeadPage) => &mut self.dead,
            Some(Code::WaitingFull) => &mut self.crowded,
            Some(Code::ListFull) => &mut self.full,
            Some(_) => &mut self.wrong,
        };
        *counted = counted.saturating_add(1);
        if !right {
            self.wrong = self.wrong.saturating_add(1);
        }
    }
}

impl fmt::Display for Counts {
    fn fmt<W: fmt::Write>(&self, f: &mut fmt::Formatter<W>) -> fmt::Result {
        let Counts {
            done,
            dead,
            crowded,
            full,
            wrong,
            opened,
        } = self;
        write!(
            f,
            "{done} done, {dead} halted by a dead page, {crowded} by waiting, {full} by the list; {opened} pages opened; {wrong} wrong"
        )
    }
}
