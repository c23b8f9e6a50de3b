#![tactic(auto)]
// What waits and what is listed in a search: the entries that wait in a heap by key, the stations listed in order, and the tests of entries against them.
mod entries;
mod fills;
mod listed;
mod query;
mod queue;
mod waiting;

pub use listed::{Listed, MOST_LISTED};
pub use query::Query;
pub use waiting::{Full, MOST_WAITING, Queue, Waiting};
