use stations::Fault;

// The last line of a listing: that it is complete, the same with the pages opened for it, or why it ends.
#[derive(Clone, Copy)]
pub enum Closing {
    Complete,
    Done(usize),
    Refused(Fault),
}
