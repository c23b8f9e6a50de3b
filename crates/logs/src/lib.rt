#![tactic(auto)]
// A log as text: a line with the question, and one for each station.
mod field;
mod law;
mod line;
mod log;
mod parsed;
mod token;

pub use law::accepts_exactly_renderings;
pub use log::{Log, MOST_BYTES, read_log};
pub use token::{Token, next_token};
