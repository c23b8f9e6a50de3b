use stations::Region;

// How a page was named: the level of the page that names it, and the box that it is named with.
#[derive(Clone, Copy)]
pub(crate) struct Naming {
    pub(crate) level: u8,
    pub(crate) bounds: Region,
}
