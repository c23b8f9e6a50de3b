// What was read at the front of a text, and what is left of the text behind it.
#[derive(Clone, Copy)]
pub(crate) struct Parsed<'a, T> {
    pub(crate) value: T,
    pub(crate) rest: &'a [u8],
}
