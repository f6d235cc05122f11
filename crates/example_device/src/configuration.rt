//! What the device is.

/// A publisher with one data set, whose writer sends a key frame at each turn, and a reader of that writer's messages.
pub const CONFIGURATION: &str = r#"
[publisher]
id = "u8:21"

[[dataset]]
name = "press"
[[dataset.field]]
name = "strokes"
kind = "UInt32"
[[dataset.field]]
name = "running"
kind = "Boolean"
[[dataset.field]]
name = "batch"
kind = "String"
cap = 16

[[group]]
name = "fast"
id = 7
interval = 100
[[group.writer]]
name = "press_writer"
id = 3
dataset = "press"

[[readgroup]]
name = "peer"
publisher = "u8:21"
group = 7
[[readgroup.reader]]
name = "press_reader"
writer = 3
dataset = "press"
timeout = 1000
"#;
