//! The calls that programs of bench/ measure from C or from Rust, each made many times. `crypto` is for bench/crypto, `guard` and
//! `parts` for bench/datagrams, `config`, `script` and `report` for bench/texts, `messages` for bench/json. Configurations come from
//! these programs.
#![tactic(auto)]

mod closing;
mod config;
mod crypto;
mod guard;
mod messages;
mod parts;
mod report;
mod script;

pub use config::bench_config;
pub use crypto::{
    bench_key_128, bench_sign, bench_stream_128, bench_stream_256, bench_take, bench_test,
};
pub use guard::{bench_open, bench_protect};
pub use messages::{bench_json_read, bench_json_write};
pub use parts::{bench_join, bench_read_header, bench_split, bench_write_header};
pub use report::bench_report;
pub use script::{bench_script, script_sum};
