//! The configurations of the cases.
use ps_config::{Config, built_in, read_config};
use std::alloc::Global;

/// A data set of two fields with statuses, whose writer tells its versions, and one of a truth value.
const MANY: &str = r#"[publisher]
id = "text:pump-7"
port = 1

[[dataset]]
name = "wide"
quality = true
major = 3
minor = 2
field = [{ name = "t", kind = "Int16" }, { name = "s", kind = "String", cap = 8 }]

[[dataset]]
name = "flag"
field = [{ name = "on", kind = "Boolean" }]

[[group]]
name = "g1"
id = 1
interval = 100
writer = [{ name = "w1", id = 1, dataset = "wide", versions = true }, { name = "w2", id = 258, dataset = "flag" }]
"#;

/// The configuration of this name.
pub fn configuration(alloc: Global, name: &str) -> Option<Config> {
    match name {
        "built-in" => built_in(alloc).ok(),
        "many" => read_config(alloc, MANY.as_bytes()).ok(),
        _ => None,
    }
}
