//! The configuration of a session that reads what it sends.
ghost use Rattle.std.specs.Prelude.{IfOk, OnOk};
ghost use Rattle.writer_group.specs.Standing.{IsGood};
ghost use Rattle.test_sessions.specs.Devices.{IsSmall};

use ps_config::{Config, Policy, read_config};
use std::alloc::Global;
use std::test::Fail;

/// An encrypted group of one writer, each of whose data frames is a key frame, and its reader. The key is that of token 5.
const CONFIGURATION: &str = r#"
[publisher]
id = "u8:5"

[[dataset]]
name = "demo"
[[dataset.field]]
name = "a"
kind = "UInt32"

[[keygroup]]
name = "keys"
policy = "aes128"
random = "5a17c309"
[[keygroup.key]]
token = 5
from = 0
signing = "050000005a5a5a5a5a5a5a5a5a5a5a5a5a5a5a5a5a5a5a5a5a5a5a5a5a5a5a5a"
encrypting = "050000005a5a5a5a5a5a5a5a5a5a5a5a"
nonce = "05000000"

[[group]]
name = "g1"
id = 1
interval = 100
security = "encrypt"
keygroup = "keys"
[[group.writer]]
name = "w1"
id = 1
dataset = "demo"

[[readgroup]]
name = "rg1"
publisher = "u8:5"
group = 1
security = "encrypt"
keygroup = "keys"
[[readgroup.reader]]
name = "r1"
writer = 1
dataset = "demo"
"#;

/// What a gateway publishes of the reader `r1`: it reads what it sends, under the same key.
const SECOND: &str = r#"
[publisher]
id = "u8:6"

[[dataset]]
name = "r1"
[[dataset.field]]
name = "a"
kind = "UInt32"

[[keygroup]]
name = "keys"
policy = "aes128"
random = "a93c7d10"
[[keygroup.key]]
token = 5
from = 0
signing = "050000005a5a5a5a5a5a5a5a5a5a5a5a5a5a5a5a5a5a5a5a5a5a5a5a5a5a5a5a"
encrypting = "050000005a5a5a5a5a5a5a5a5a5a5a5a"
nonce = "05000000"

[[group]]
name = "g2"
id = 1
interval = 100
security = "encrypt"
keygroup = "keys"
[[group.writer]]
name = "w2"
id = 1
dataset = "r1"

[[readgroup]]
name = "rg2"
publisher = "u8:6"
group = 1
security = "encrypt"
keygroup = "keys"
[[readgroup.reader]]
name = "r2"
writer = 1
dataset = "r1"
"#;

/// What sessions ask of a configuration is what `read_config` promises of those that it accepts.
pub(crate) fn configured(alloc: Global) -> Result<Config, Fail>
    ensures { IfOk result IsGood }
{
    Ok(read_config(alloc, CONFIGURATION.as_bytes())?)
}

/// So is the second one.
pub(crate) fn configured_second(alloc: Global) -> Result<Config, Fail>
    ensures { IfOk result IsGood }
{
    Ok(read_config(alloc, SECOND.as_bytes())?)
}

/// It has one key group, of short keys, and one reader.
pub(crate) fn expect_small(config: &Config) -> Result<(), Fail>
    ensures { OnOk result (IsSmall config.now) }
{
    let [keys] = config.keygroup.as_slice() else {
        return Err("another number of key groups".into());
    };
    let [group] = config.readgroup.as_slice() else {
        return Err("another number of read groups".into());
    };
    let [_reader] = group.reader.as_slice() else {
        return Err("another number of readers".into());
    };
    let Policy::Aes128 = keys.policy else {
        return Err("long keys".into());
    };
    Ok(())
}
