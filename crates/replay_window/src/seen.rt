/// What a window says of a number.
#[derive(Clone, Copy, Debug, PartialEq, Eq)]
pub enum Seen {
    /// It may be taken.
    Fresh,
    /// It was taken.
    Repeated,
    /// It is 1,024 or more below `high`, the greatest number taken.
    TooOld { high: u32 },
}
