ghost use Rattle.std.specs.Prelude.{◌≡◌, length, MatchOption, Some, None};
ghost use Rattle.std.specs.Iterator.{at_most};
ghost use Rattle.frames.specs.Frames.{first_frame};

use crate::next_frame;

// The parts of an input, one after the other, as far as each stands behind a line with its length.
#[derive(Drop)]
pub struct Frames<'a> {
    rest: &'a [u8],
}

impl<'a> Frames<'a> {
    pub fn new(input: &'a [u8]) -> Frames<'a>
        ensures { result.rest.now ≡ input.now }
    {
        Frames { rest: input }
    }
}

impl<'a> Iterator for Frames<'a> {
    type Item = &'a [u8];

    ghost next_gives = { λ s r t. MatchOption r (first_frame s.rest.now ≡ None) (λ frame. first_frame s.rest.now ≡ Some (frame.now, t.rest.now)) };

    ghost remaining = { λ s. at_most (length s.rest.now) };

    fn next(&mut self) -> Option<&'a [u8]> {
        let (frame, rest) = next_frame(self.rest)?;
        self.rest = rest;
        Some(frame)
    }
}
