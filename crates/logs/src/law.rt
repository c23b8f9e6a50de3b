// What acceptance means, as a law over all texts.
ghost use Rattle.logs.specs.Rendering.{AcceptsExactly};

// A text is accepted exactly where it is the one rendering of a log that fits the room.
pub fn accepts_exactly_renderings()
    ensures { AcceptsExactly }
{}
