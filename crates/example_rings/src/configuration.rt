//! What the device is.

/// A publisher with one encrypted data set, and a reader of its messages. Key frames come at the start and with each new token
/// alone. A key group has to name a key: token 0 is lower than each that the service gives, so nothing is sent or taken under it.
pub const CONFIGURATION: &str = r#"
[publisher]
id = "u8:33"

[[dataset]]
name = "press"
[[dataset.field]]
name = "strokes"
kind = "UInt32"

[[keygroup]]
name = "hall"
policy = "aes256"
random = "5a17c309"
[[keygroup.key]]
token = 0
from = 0
signing = "0000000000000000000000000000000000000000000000000000000000000000"
encrypting = "0000000000000000000000000000000000000000000000000000000000000000"
nonce = "00000000"

[[group]]
name = "fast"
id = 7
interval = 100
security = "encrypt"
keygroup = "hall"
[[group.writer]]
name = "press_writer"
id = 3
dataset = "press"
key_frame_count = 1000

[[readgroup]]
name = "peer"
publisher = "u8:33"
group = 7
security = "encrypt"
keygroup = "hall"
[[readgroup.reader]]
name = "press_reader"
writer = 3
dataset = "press"
timeout = 1000
"#;
