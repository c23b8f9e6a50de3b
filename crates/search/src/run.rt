ghost use Rattle.std.specs.Prelude.{◌≤◌};

use stations::Fault;
use waiting::{Listed, Query, Queue};

// The most pages that a source has.
pub const MOST_PAGES: usize = 256;

// How far a run has come.
#[derive(Clone, Copy)]
pub enum Phase {
    None,
    Searching,
    Done,
    Halted(Fault),
}

// A search over a source of pages, under a ranking. It owns both. What waits is by far the largest part and stands first:
// so a new run is made where it is to lie, and not copied there from a place that slows the copy down.
#[derive(Drop)]
pub struct Run<S, R> {
    pub(crate) waiting: Queue,
    pub(crate) source: S,
    pub(crate) query: Query<R>,
    pub(crate) listed: Listed,
    pub(crate) opened: usize,
    pub(crate) phase: Phase,
    ghost few: { opened ≤ 256 },
}
