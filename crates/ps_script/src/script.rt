//! What a script is made of.
use dataset_meta::Meta;
use ps_config::Parts;
use row_words::Patch;
use ua_base::Fate;

/// The lines of a script, and what they write.
#[derive(Drop)]
pub struct Script {
    /// The lines that do something, in order.
    pub lines: Parts<Line>,
    /// The data sets of the configuration, with all fields that the script appends.
    pub metas: Parts<Meta>,
}

/// A line that does something.
#[derive(Clone, Copy, Debug, PartialEq, Eq)]
pub struct Line {
    /// The line's number in the text, from 1.
    pub at: u32,
    pub act: Act,
}

/// What a line does.
#[derive(Clone, Copy, Debug, PartialEq, Eq)]
pub enum Act {
    /// A thread writes fields of a data set. The patch is one of the data set with all its fields.
    Write { thread: u8, set: u8, patch: Patch },
    /// So many milliseconds pass, and a tick follows.
    Tick(u32),
    /// The component with this id is enabled.
    Enable(u8),
    /// The component with this id is disabled.
    Disable(u8),
    /// What happens to the datagram with this number, from 0.
    Fated { k: u64, fate: Fate },
    /// A thread looks at what a reader holds, so often.
    Watch { thread: u8, reader: u8, times: u32 },
    /// The data set has one field more from here on.
    Append { set: u8 },
}
