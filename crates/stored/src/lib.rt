#![tactic(auto)]
// Stored books: pages of 256 bytes that are loaded, checked and read page by page.
ghost use Rattle.stored.specs.Spelling.{PagesSpellBooks, PagesDecide};

mod check;
mod layout;
mod load;
mod naming;
mod numbers;
mod seen;
mod showing;
mod source;
mod stored;
mod walk;

pub use layout::{CHILD, DEAD, PAGE, STATION};
pub use stored::Stored;

// Laws of the layout, of all bytes.

pub fn pages_spell_books()
    ensures { PagesSpellBooks }
{}

pub fn ignored_bytes_change_nothing()
    ensures { PagesDecide }
{}
