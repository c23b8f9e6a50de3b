use stations::Question;

// A call of a run, without its answer.
#[derive(Clone, Copy)]
pub enum Call {
    Start(Question),
    Next,
    Stop,
}
