//! The names of the calls.

/// A call, by what it is of.
#[derive(Clone, Copy)]
pub enum Call {
    /// As many lines as are asked for, of another call and by chance.
    Random,
    /// As many chunks as are asked for, by chance.
    RandomChunks,
    Wire(WireCall),
    Set(SetCall),
    Machine(MachineCall),
    Keys(KeysCall),
    Sender(SenderCall),
    Guard(GuardCall),
    Writer(WriterCall),
    Served(ServedCall),
    Heard(HeardCall),
    /// A reader is given.
    Reader,
}

/// Calls of values, metas, headers, payloads, slots, keys and chunks, of which nothing is kept.
#[derive(Clone, Copy)]
pub enum WireCall {
    ReadVariant,
    ReadDataValue,
    Kinds,
    WriteVariant,
    WriteDataValue,
    Name,
    Meta,
    Text,
    Blob,
    Fits,
    ReadFront,
    ReadHeader,
    SpellHeader,
    Plan,
    Split,
    WriteSizes,
    Slots,
    Newer,
    Block128,
    Block256,
    Stream128,
    Stream256,
    Hmac,
    Ring,
    ReadChunk,
    WriteChunk,
}

/// Calls of a data set, which is their first word.
#[derive(Clone, Copy)]
pub enum SetCall {
    ReadFrame,
    RewriteFrame,
    RawSize,
    ReadRaw,
    ReadRawBehind,
    WriteRaw,
}

/// Calls of the joiner, the window and the timer.
#[derive(Clone, Copy)]
pub enum MachineCall {
    Joiner,
    JoinerClear,
    Chunk,
    JoinedIs,
    Joined,
    Window,
    NumberSeen,
    NumberTaken,
    Timer,
    Seen,
    Clear,
    Due,
}

/// Calls of key sets, and of what is made of them.
#[derive(Clone, Copy)]
pub enum KeysCall {
    Keysets,
    Keyset,
    Sender,
    Guard,
}

/// Calls of a sender.
#[derive(Clone, Copy)]
pub enum SenderCall {
    SenderTurn,
    Spent,
    Front,
    MayProtect,
    Protect,
}

/// Calls of a guard.
#[derive(Clone, Copy)]
pub enum GuardCall {
    Test,
    Open,
}

/// Calls that give a writer and its data set.
#[derive(Clone, Copy)]
pub enum WriterCall {
    Data,
    Writer,
    Refresh,
}

/// Calls of a writer that there is.
#[derive(Clone, Copy)]
pub enum ServedCall {
    Turn,
    Closing,
    Quiet,
    Log,
}

/// Calls of a reader that there is.
#[derive(Clone, Copy)]
pub enum HeardCall {
    Whole,
    Change,
    Alive,
    Bytes,
    Cut,
    Why,
    Breaks,
}

pub static CALLS: [(&str, Call); 72] = [
    ("random", Call::Random),
    ("random_chunks", Call::RandomChunks),
    ("read_variant", Call::Wire(WireCall::ReadVariant)),
    ("read_data_value", Call::Wire(WireCall::ReadDataValue)),
    ("kinds", Call::Wire(WireCall::Kinds)),
    ("write_variant", Call::Wire(WireCall::WriteVariant)),
    ("write_data_value", Call::Wire(WireCall::WriteDataValue)),
    ("name", Call::Wire(WireCall::Name)),
    ("meta", Call::Wire(WireCall::Meta)),
    ("text", Call::Wire(WireCall::Text)),
    ("blob", Call::Wire(WireCall::Blob)),
    ("fits", Call::Wire(WireCall::Fits)),
    ("read_front", Call::Wire(WireCall::ReadFront)),
    ("read_header", Call::Wire(WireCall::ReadHeader)),
    ("spell_header", Call::Wire(WireCall::SpellHeader)),
    ("plan", Call::Wire(WireCall::Plan)),
    ("split", Call::Wire(WireCall::Split)),
    ("write_sizes", Call::Wire(WireCall::WriteSizes)),
    ("slots", Call::Wire(WireCall::Slots)),
    ("newer", Call::Wire(WireCall::Newer)),
    ("block128", Call::Wire(WireCall::Block128)),
    ("block256", Call::Wire(WireCall::Block256)),
    ("stream128", Call::Wire(WireCall::Stream128)),
    ("stream256", Call::Wire(WireCall::Stream256)),
    ("hmac", Call::Wire(WireCall::Hmac)),
    ("ring", Call::Wire(WireCall::Ring)),
    ("read_chunk", Call::Wire(WireCall::ReadChunk)),
    ("write_chunk", Call::Wire(WireCall::WriteChunk)),
    ("read_frame", Call::Set(SetCall::ReadFrame)),
    ("rewrite_frame", Call::Set(SetCall::RewriteFrame)),
    ("raw_size", Call::Set(SetCall::RawSize)),
    ("read_raw", Call::Set(SetCall::ReadRaw)),
    ("read_raw_behind", Call::Set(SetCall::ReadRawBehind)),
    ("write_raw", Call::Set(SetCall::WriteRaw)),
    ("joiner", Call::Machine(MachineCall::Joiner)),
    ("joiner_clear", Call::Machine(MachineCall::JoinerClear)),
    ("chunk", Call::Machine(MachineCall::Chunk)),
    ("joined_is", Call::Machine(MachineCall::JoinedIs)),
    ("joined", Call::Machine(MachineCall::Joined)),
    ("window", Call::Machine(MachineCall::Window)),
    ("number_seen", Call::Machine(MachineCall::NumberSeen)),
    ("number_taken", Call::Machine(MachineCall::NumberTaken)),
    ("timer", Call::Machine(MachineCall::Timer)),
    ("seen", Call::Machine(MachineCall::Seen)),
    ("clear", Call::Machine(MachineCall::Clear)),
    ("due", Call::Machine(MachineCall::Due)),
    ("keysets", Call::Keys(KeysCall::Keysets)),
    ("keyset", Call::Keys(KeysCall::Keyset)),
    ("sender", Call::Keys(KeysCall::Sender)),
    ("guard", Call::Keys(KeysCall::Guard)),
    ("sender_turn", Call::Sender(SenderCall::SenderTurn)),
    ("spent", Call::Sender(SenderCall::Spent)),
    ("front", Call::Sender(SenderCall::Front)),
    ("may_protect", Call::Sender(SenderCall::MayProtect)),
    ("protect", Call::Sender(SenderCall::Protect)),
    ("test", Call::Guard(GuardCall::Test)),
    ("open", Call::Guard(GuardCall::Open)),
    ("data", Call::Writer(WriterCall::Data)),
    ("writer", Call::Writer(WriterCall::Writer)),
    ("refresh", Call::Writer(WriterCall::Refresh)),
    ("turn", Call::Served(ServedCall::Turn)),
    ("closing", Call::Served(ServedCall::Closing)),
    ("quiet", Call::Served(ServedCall::Quiet)),
    ("log", Call::Served(ServedCall::Log)),
    ("whole", Call::Heard(HeardCall::Whole)),
    ("change", Call::Heard(HeardCall::Change)),
    ("alive", Call::Heard(HeardCall::Alive)),
    ("bytes", Call::Heard(HeardCall::Bytes)),
    ("cut", Call::Heard(HeardCall::Cut)),
    ("why", Call::Heard(HeardCall::Why)),
    ("breaks", Call::Heard(HeardCall::Breaks)),
    ("reader", Call::Reader),
];
