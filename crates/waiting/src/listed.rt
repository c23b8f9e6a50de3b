ghost use Rattle.std.specs.Prelude.{◌≡◌, ◌≤◌, length};

use stations::Station;

// The most stations that may be listed.
pub const MOST_LISTED: usize = 512;

// The stations handed out so far, in order: the first `len` count. A count beside an array, as in `Queue` and for its reason.
#[derive(Drop)]
pub struct Listed {
    pub stations: [Station; MOST_LISTED],
    pub len: usize,
    ghost few: { len ≤ 512 },
    ghost sized: { length stations ≡ 512 },
}
