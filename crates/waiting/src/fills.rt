// The entries of a page are put to what waits.
ghost use Rattle.std.specs.Prelude.{◌+◌, ◌≤◌, [], ◌∷◌, length, take};
ghost use Rattle.waiting.specs.Held.{held, listing, Fills};
ghost use Rattle.waiting.specs.Asking.{bands_of};

use crate::listed::Listed;
use crate::query::Query;
use crate::waiting::{Full, Queue};
use books::Entry;
use rankings::Ranking;
use sources::Page;

impl Queue {
    // Puts the entry to what waits unless it is set aside, or refuses where there is no room for it.
    fn admit<R: Ranking>(
        &mut self,
        query: &Query<R>,
        listed: &Listed,
        entry: Entry,
    ) -> Result<(), Full>
        ensures fills { Fills 1024 (bands_of R.score query.now) (listing listed.now) (entry ∷ []) (held self.old) result (held self.new) }
        ensures few { length (held self.new) ≤ length (held self.old) + 1 }
    {
        if listed.passes(query, entry) {
            return self.push(query.keyed(entry));
        }
        Ok(())
    }

    // Puts the entries of a page to what waits but for those set aside, or refuses where there is no room for one.
    pub fn fill<R: Ranking>(
        &mut self,
        query: &Query<R>,
        listed: &Listed,
        page: &Page,
    ) -> Result<(), Full>
        ensures fills { Fills 1024 (bands_of R.score query.now) (listing listed.now) (take page.now.len page.now.entries) (held self.old) result (held self.new) }
        ensures few { length (held self.new) ≤ length (held self.old) + 12 }
    {
        for entry in &page.entries[..page.len] {
            self.admit(query, listed, *entry)?;
        }
        Ok(())
    }
}
