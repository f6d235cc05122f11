//! The link behind a tap.
use crate::line::JsonLine;

/// A link that is lent to a tap. It is passed on as one value, so that it is the same loan all along.
#[derive(Drop)]
pub struct Inner<'a, L> {
    pub link: &'a mut L,
}

/// What a tap leaves: its link, the lines of what was sent over it since it was opened, and how many datagrams gave none.
#[derive(Drop)]
pub struct Tapped<'a, L> {
    pub link: &'a mut L,
    pub lines: Vec<JsonLine>,
    pub skipped: u64,
}
