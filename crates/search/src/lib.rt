#![tactic(auto)]
// The search: the stations of a question, one at a time in key order, with as few pages opened as the question can be settled by.
mod call;
mod calls;
mod plays;
mod run;
mod steps;

pub use call::Call;
pub use plays::{make, play};
pub use promises::halts_for_three_reasons;
pub use run::{Phase, Run};
pub use waiting::{MOST_LISTED, MOST_WAITING};
