//! The small run of the laws.

use device_laws::run_once;
use std::test::Fail;
use ua_values::{Kind, Value};

/// A number without security, and its reader.
const CONFIGURATION: &str = r#"
[publisher]
id = "u8:5"

[[dataset]]
name = "demo"
[[dataset.field]]
name = "a"
kind = "UInt32"

[[group]]
name = "g1"
id = 1
interval = 100
[[group.writer]]
name = "w1"
id = 1
dataset = "demo"

[[readgroup]]
name = "rg1"
publisher = "u8:5"
group = 1
[[readgroup.reader]]
name = "r1"
writer = 1
dataset = "demo"
"#;

#[test]
fn the_value_that_was_set_comes_to_the_reader(rt: HostRuntime) -> Result<(), Fail> {
    let run = run_once(rt.alloc(), CONFIGURATION.as_bytes(), &Value::UInt32(7), 100)?;
    let Some(pair) = run else {
        return Err("there was no run".into());
    };
    assert!(rt; pair.subscriber.word(0, 0, 0, Kind::UInt32) == Ok(7));
    Ok(())
}
