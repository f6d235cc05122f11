//! How the steps of a session end.

/// How a tick ended. Want of memory comes from a `send` of the link alone.
#[derive(Clone, Copy, Debug, PartialEq, Eq)]
pub enum Ticked {
    Done,
    /// Memory ran out.
    Memory,
}

/// How many datagrams a pump took off the link, and whether it ended at its limit.
#[derive(Clone, Copy, Debug, PartialEq, Eq)]
pub struct Pumped {
    pub taken: u32,
    pub limit: bool,
}
