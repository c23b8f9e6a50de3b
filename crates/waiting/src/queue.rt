// Entries are put to those that wait, and the least is taken.
ghost use Rattle.std.specs.Prelude.{◌≡◌, []};
ghost use Rattle.waiting.specs.Held.{held, Puts, Takes};

use crate::waiting::{Full, MOST_WAITING, Queue, Waiting};

impl Queue {
    // Nothing waits. What fills the places does not count.
    pub fn new() -> Self
        ensures { held result ≡ [] }
    {
        Queue {
            items: [Waiting::default(); MOST_WAITING],
            used: 0,
        }
    }

    // Puts an entry to those that wait, or refuses where there is no room.
    pub fn push(&mut self, item: Waiting) -> Result<(), Full>
        ensures { Puts 1024 (held self.old) item result (held self.new) }
    {
        match heaps::push(&mut self.items, self.used, item) {
            Some(used) => {
                self.used = used;
                Ok(())
            }
            None => Err(Full),
        }
    }

    // Takes the entry with the least key.
    pub fn pop(&mut self) -> Option<Waiting>
        ensures { Takes (held self.old) result (held self.new) }
    {
        let first = heaps::pop(&mut self.items, self.used)?;
        self.used -= 1;
        Some(first)
    }
}
