//! What publishes and what reads.

/// How many writers the group has, each with a data set of its own, and how many readers the read group.
pub const WRITERS: usize = 4;

/// The publishing interval, in milliseconds.
pub const INTERVAL: u64 = 10;

/// A group of four writers, encrypted, with delta frames between key frames, and a reader of each writer's messages. The keys are
/// those of `ring_at`; the configuration's own is never used. Numbers of messages begin anew after 536 turns.
pub const CONFIGURATION: &str = r#"
[publisher]
id = "u8:9"

[[dataset]]
name = "north"
[[dataset.field]]
name = "turn"
kind = "UInt64"
[[dataset.field]]
name = "steps"
kind = "UInt32"
[[dataset.field]]
name = "running"
kind = "Boolean"
[[dataset.field]]
name = "batch"
kind = "String"
cap = 16

[[dataset]]
name = "east"
[[dataset.field]]
name = "turn"
kind = "UInt64"
[[dataset.field]]
name = "steps"
kind = "UInt32"
[[dataset.field]]
name = "running"
kind = "Boolean"
[[dataset.field]]
name = "batch"
kind = "String"
cap = 16

[[dataset]]
name = "south"
[[dataset.field]]
name = "turn"
kind = "UInt64"
[[dataset.field]]
name = "steps"
kind = "UInt32"
[[dataset.field]]
name = "running"
kind = "Boolean"
[[dataset.field]]
name = "batch"
kind = "String"
cap = 16

[[dataset]]
name = "west"
[[dataset.field]]
name = "turn"
kind = "UInt64"
[[dataset.field]]
name = "steps"
kind = "UInt32"
[[dataset.field]]
name = "running"
kind = "Boolean"
[[dataset.field]]
name = "batch"
kind = "String"
cap = 16

[[keygroup]]
name = "keys"
policy = "aes128"
random = "5a17c309"
[[keygroup.key]]
token = 1
from = 0
signing = "000102030405060708090a0b0c0d0e0f101112131415161718191a1b1c1d1e1f"
encrypting = "404142434445464748494a4b4c4d4e4f"
nonce = "33333333"

[[group]]
name = "hall"
id = 7
interval = 10
security = "encrypt"
keygroup = "keys"
[[group.writer]]
name = "north_writer"
id = 1
dataset = "north"
key_frame_count = 20
first_number = 65000
[[group.writer]]
name = "east_writer"
id = 2
dataset = "east"
key_frame_count = 20
first_number = 65000
[[group.writer]]
name = "south_writer"
id = 3
dataset = "south"
key_frame_count = 20
first_number = 65000
[[group.writer]]
name = "west_writer"
id = 4
dataset = "west"
key_frame_count = 20
first_number = 65000

[[readgroup]]
name = "panel"
publisher = "u8:9"
group = 7
security = "encrypt"
keygroup = "keys"
[[readgroup.reader]]
name = "north_reader"
writer = 1
dataset = "north"
timeout = 1000
[[readgroup.reader]]
name = "east_reader"
writer = 2
dataset = "east"
timeout = 1000
[[readgroup.reader]]
name = "south_reader"
writer = 3
dataset = "south"
timeout = 1000
[[readgroup.reader]]
name = "west_reader"
writer = 4
dataset = "west"
timeout = 1000
"#;
