//! The names of the calls.

/// A call: of all senders, of the writers' side, or of a read group.
#[derive(Clone, Copy)]
pub enum Call {
    Moment,
    Publishing(Publishing),
    Taking(Taking),
}

/// Calls of the writers' side.
#[derive(Clone, Copy)]
pub enum Publishing {
    Turn,
    Closing,
    Sizes,
    Write,
    Append,
    Spent,
    Pull,
    Due,
    Refresh,
    Log,
}

/// Calls of a read group.
#[derive(Clone, Copy)]
pub enum Taking {
    Reader,
    On,
    Cut,
    Follow,
    Expire,
    Damaged,
    Take,
    Prefixes,
    Bits,
}

pub static CALLS: [(&str, Call); 20] = [
    ("moment", Call::Moment),
    ("turn", Call::Publishing(Publishing::Turn)),
    ("closing", Call::Publishing(Publishing::Closing)),
    ("sizes", Call::Publishing(Publishing::Sizes)),
    ("write", Call::Publishing(Publishing::Write)),
    ("append", Call::Publishing(Publishing::Append)),
    ("spent", Call::Publishing(Publishing::Spent)),
    ("pull", Call::Publishing(Publishing::Pull)),
    ("due", Call::Publishing(Publishing::Due)),
    ("refresh", Call::Publishing(Publishing::Refresh)),
    ("log", Call::Publishing(Publishing::Log)),
    ("reader", Call::Taking(Taking::Reader)),
    ("on", Call::Taking(Taking::On)),
    ("cut", Call::Taking(Taking::Cut)),
    ("follow", Call::Taking(Taking::Follow)),
    ("expire", Call::Taking(Taking::Expire)),
    ("damaged", Call::Taking(Taking::Damaged)),
    ("take", Call::Taking(Taking::Take)),
    ("prefixes", Call::Taking(Taking::Prefixes)),
    ("bits", Call::Taking(Taking::Bits)),
];
